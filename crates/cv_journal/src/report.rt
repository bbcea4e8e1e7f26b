ghost use Rattle.std.specs.Prelude.{◌≡◌, ◌≤◌, ◌+◌, length, take_while};
ghost use Rattle.std.specs.Option.{option_copied};
ghost use Rattle.cv_journal.specs.JournalOf.{Answers, begins_entry, entries_from, journal_of};
ghost use Rattle.cv_journal.specs.Steps.{pieces_left, text_left};

use crate::faults::{JournalFail, JournalFault};
use crate::line::entry_in;
use crate::pieces::piece;
use cv_base::{Entry, Items};
use std::alloc::Global;

/// The fewest bytes of an entry's line with its line feed.
const SHORTEST: usize = 95;

/// The journal of a report's text (docs/FORMATS.md, "Reading a report"): the entries of its third
/// line and those after it, as long as they begin with `entry `. The second line and those behind
/// the entries are not read. `Refused` has the first fault: the first line is no form of the report,
/// it is that of the first form, or the first entry line that is the line of no entry with its
/// number. `NoMemory` is that memory was refused.
pub fn read_entries(alloc: Global, bytes: &[u8]) -> Result<Items<Entry>, JournalFail>
    requires { length bytes.now ≤ 268435456 }
    ensures { Answers (journal_of bytes.now) result }
{
    let (first, rest) = piece(bytes, b'\n');
    if first == b"clearview report 1".as_slice() {
        return Err(JournalFail::Refused(JournalFault::OldReport));
    }
    if first != b"clearview report 2".as_slice() {
        return Err(JournalFail::Refused(JournalFault::NotReport));
    }
    let Some(rest) = rest else {
        return Ok(Items::make(alloc));
    };
    let (_job, lines) = piece(rest, b'\n');
    let feeds = bytes.iter().filter(|byte| **byte == b'\n').count();
    let most = bytes.len() / SHORTEST;
    entries(alloc, lines, 1 + feeds.min(most))
}

/// Whether a line has to be the line of an entry.
#[tactic(auto, unfolding(crate::specs::JournalOf::begins_entry))]
fn begins_entry(line: &[u8]) -> bool
    ensures { result ≡ begins_entry line.now }
{
    line.starts_with(b"entry ")
}

/// The entries of lines, as long as these begin with `entry `, with room for so many.
#[tactic(auto, using(crate::proofs::Loops::entry_more, crate::proofs::Loops::entry_none, crate::proofs::Loops::entries_end, crate::proofs::Loops::no_entry_before, crate::proofs::Loops::no_entry_behind))]
fn entries(alloc: Global, lines: Option<&[u8]>, room: usize) -> Result<Items<Entry>, JournalFail>
    requires { text_left (option_copied lines) ≤ 268435457 }
    ensures { Answers (entries_from 0 (take_while begins_entry (pieces_left 10 (option_copied lines.entry)))) result }
{
    let Ok(mut entries) = Vec::with_capacity(alloc, room) else {
        return Err(JournalFail::NoMemory);
    };
    let mut number: u32 = 0;
    let mut left = lines;
    while let Some(others) = left {
        let (line, rest) = piece(others, b'\n');
        if !begins_entry(line) {
            break;
        }
        let Some(entry) = entry_in(alloc, number, line)? else {
            return Err(JournalFail::Refused(JournalFault::BadEntry(number)));
        };
        let Ok(()) = entries.push(entry) else {
            return Err(JournalFail::NoMemory);
        };
        number += 1;
        left = rest;
    }
    Ok(Items::from_vec(entries))
}
