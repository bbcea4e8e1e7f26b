ghost use Rattle.std.specs.Prelude.{◌≡◌, ◌≤◌, ◌||◌, length, IfOk};
ghost use Rattle.std.specs.Char.{is_ascii_digit};
ghost use Rattle.std.specs.List.{list_all, slice_split};
ghost use Rattle.std.specs.Option.{option_map};
ghost use Rattle.cv_asm.specs.Labels.{texts_of};
ghost use Rattle.cv_asm.specs.Lines.{ends_with_colon, is_label, is_letter, is_separator, line_of_pieces, lines_of, pieces_of, without_comment};

use std::alloc::{AllocError, Global};

/// The lines of a text.
pub(crate) fn lines<'t>(alloc: Global, text: &'t [u8]) -> Result<Vec<&'t [u8]>, AllocError>
    ensures { IfOk result (λ v. texts_of v.items ≡ lines_of text.now) }
{
    text.split(|b| *b == b'\n').collect(alloc)
}

/// The line before its first `#`.
pub(crate) fn without_comment(line: &[u8]) -> &[u8]
    ensures { result.now ≡ without_comment line.now }
{
    for (i, b) in line.iter().enumerate() {
        if *b == b'#' {
            return &line[..i];
        }
    }
    line
}

/// Whether a byte parts pieces: blank, tab, carriage return, comma or a round bracket.
fn is_separator(b: u8) -> bool
    ensures { result ≡ is_separator b }
{
    b == b' ' || b == b'\t' || b == b'\r' || b == b',' || b == b'(' || b == b')'
}

/// What stands between separators, the empty runs too.
fn runs<'t>(alloc: Global, line: &'t [u8]) -> Result<Vec<&'t [u8]>, AllocError>
    ensures { IfOk result (λ v. texts_of v.items ≡ slice_split is_separator line.now) }
{
    line.split(|b| is_separator(*b)).collect(alloc)
}

/// The pieces of a line without its comment.
pub(crate) fn pieces<'t>(alloc: Global, line: &'t [u8]) -> Result<Vec<&'t [u8]>, AllocError>
    ensures { IfOk result (λ v. texts_of v.items ≡ pieces_of line.now) }
{
    let runs = runs(alloc, line)?;
    let mut pieces = Vec::new(alloc);
    for run in &runs {
        if !run.is_empty() {
            pieces.push(*run)?;
        }
    }
    Ok(pieces)
}

/// Whether a piece ends with `:`.
fn ends_with_colon(piece: &[u8]) -> bool
    ensures { result ≡ ends_with_colon piece.now }
{
    match piece {
        [] => false,
        [.., last] => *last == b':',
    }
}

/// The label that the pieces of a line define, without its `:`, and the pieces of its instruction.
pub(crate) fn parted<'a, 't>(pieces: &'a [&'t [u8]]) -> (Option<&'t [u8]>, &'a [&'t [u8]])
    ensures label { option_map (λ l. l.now) result.0 ≡ (line_of_pieces (texts_of pieces.now)).label }
    ensures code { texts_of result.1.now ≡ (line_of_pieces (texts_of pieces.now)).code }
    ensures fewer { length result.1.now ≤ length pieces.now }
{
    match pieces {
        [] => (None, pieces),
        [first, rest @ ..] => {
            if ends_with_colon(first) {
                (Some(&first[..first.len() - 1]), rest)
            } else {
                (None, pieces)
            }
        }
    }
}

/// Whether a byte is an ASCII letter or `_`.
fn is_letter(c: u8) -> bool
    ensures { result ≡ is_letter c }
{
    c.is_ascii_alphabetic() || c == b'_'
}

/// Whether a text has the form of a label.
pub(crate) fn is_label(text: &[u8]) -> bool
    ensures { result ≡ is_label text.now }
{
    match text {
        [] => false,
        [first, rest @ ..] => { is_letter(*first) && are_of_label(rest) }
    }
}

/// Whether each byte is a letter, a digit or `_`.
fn are_of_label(text: &[u8]) -> bool
    ensures { result ≡ list_all (λ b. is_letter b || is_ascii_digit b) text.now }
{
    text.iter().all(|b| is_letter(*b) || b.is_ascii_digit())
}
