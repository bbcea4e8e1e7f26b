//! The entries that pieces hold.
ghost use Rattle.std.specs.Prelude.{◌≡◌, length, option_map, IfOk};
ghost use Rattle.std.specs.List.{slice_split};
ghost use Rattle.cv_journal.specs.EntryReading.{entry_in};
ghost use Rattle.cv_journal.specs.Reading.{pieces};
ghost use Rattle.cv_journal.specs.Steps.{prepended};
ghost use Rattle.cv_resume.specs.Kept.{entries_at, entries_in, entries_of, lines_in};
ghost use Rattle.cv_resume.specs.Texts.{texts_of};

use cv_base::{Entry, Items, NoMemory};
use cv_journal::{lines_read_exactly, numbers_are_read_back, read_line};
use std::alloc::{AllocError, Global};

/// The number that no piece may have: a plan has at most 64 rounds.
const NO_PIECE: usize = 1024;

/// The entries that pieces hold, in order, numbered from 0 through all pieces. The inner error is the
/// number, from 0, of the first bad piece: it is empty, lacks its final line feed, has a line that is
/// the line of no entry with its number, or has the number 1,024 (docs/FORMATS.md, "Kept rounds").
#[tactic(auto, using(crate::proofs::Lines::piece_more, crate::proofs::Lines::piece_bad, crate::proofs::Lines::piece_past, crate::proofs::Lines::pieces_done))]
pub fn entries_of(
    alloc: Global,
    pieces: &[Items<u8>],
) -> Result<Result<Items<Entry>, u32>, NoMemory>
    ensures { IfOk result (λ r. r ≡ entries_of pieces.now) }
{
    let mut entries = Items::make(alloc);
    for (number, piece) in pieces.iter().enumerate() {
        if number == NO_PIECE {
            return Ok(Err(number as u32));
        }
        match with_piece(alloc, entries, piece.as_slice())? {
            Some(more) => entries = more,
            None => return Ok(Err(number as u32)),
        }
    }
    Ok(Ok(entries))
}

/// The entries of one more piece, behind those of the pieces before it.
fn with_piece(
    alloc: Global,
    before: Items<Entry>,
    piece: &[u8],
) -> Result<Option<Items<Entry>>, NoMemory>
    ensures { IfOk result (λ o. o ≡ prepended before (entries_in (length before) piece.now)) }
{
    match lines_in(alloc, piece)? {
        Some(lines) => with_lines(alloc, before, lines.as_slice()),
        None => Ok(None),
    }
}

/// The lines of a piece, each without its line feed; `None` where it is empty, or lacks its final
/// line feed.
#[tactic(auto, unfolding(crate::specs::Kept::lines_in))]
fn lines_in<'t>(alloc: Global, piece: &'t [u8]) -> Result<Option<Vec<&'t [u8]>>, NoMemory>
    ensures { IfOk result (λ o. option_map (λ v. texts_of v.items) o ≡ lines_in piece.now) }
{
    if piece.is_empty() {
        return Ok(None);
    }
    let last = piece.len() - 1;
    if piece[last] != b'\n' {
        return Ok(None);
    }
    let lines = lines(alloc, &piece[..last])?;
    Ok(Some(lines))
}

/// What stands between the line feeds of a text.
fn lines<'t>(alloc: Global, text: &'t [u8]) -> Result<Vec<&'t [u8]>, AllocError>
    ensures { IfOk result (λ v. texts_of v.items ≡ pieces 10 text.now) }
{
    text.split(|byte| *byte == b'\n').collect(alloc)
}

/// The entries of lines, behind those before them, from whose count on they are numbered; `None`
/// where one is the line of no entry with its number.
#[tactic(auto, using(crate::proofs::Lines::line_more, crate::proofs::Lines::line_bad, crate::proofs::Lines::lines_done))]
fn with_lines(
    alloc: Global,
    before: Items<Entry>,
    lines: &[&[u8]],
) -> Result<Option<Items<Entry>>, NoMemory>
    ensures { IfOk result (λ o. o ≡ prepended before (entries_at (length before) (texts_of lines.now))) }
{
    let mut entries = before;
    for line in lines {
        let Some(entry) = entry_at(alloc, entries.len(), *line)? else {
            return Ok(None);
        };
        let Ok(()) = entries.push(entry) else {
            return Err(NoMemory);
        };
    }
    Ok(Some(entries))
}

/// The entry whose line this is under a number; none has a number past 32 bits.
#[tactic(auto, using(crate::proofs::Lines::none_past))]
fn entry_at(alloc: Global, number: usize, line: &[u8]) -> Result<Option<Entry>, NoMemory>
    ensures { IfOk result (λ o. o ≡ entry_in number line.now) }
{
    numbers_are_read_back();
    match u32::try_from(number) {
        Ok(number) => entry_in(alloc, number, line),
        Err(_) => Ok(None),
    }
}

/// The entry whose line this is under a number, as the definitions read it.
#[tactic(auto, using(crate::proofs::Lines::read_some, crate::proofs::Lines::read_none))]
fn entry_in(alloc: Global, number: u32, line: &[u8]) -> Result<Option<Entry>, NoMemory>
    ensures { IfOk result (λ o. o ≡ entry_in number line.now) }
{
    lines_read_exactly();
    read_line(alloc, number, line)
}
