ghost use Rattle.std.specs.Prelude.{◌≡◌, ◌≤◌, length};
ghost use Rattle.std.specs.Option.{option_map};
ghost use Rattle.cv_asm.specs.Assembled.{Answers};
ghost use Rattle.cv_asm.specs.Labels.{AreLabels, is_earlier, place_by, read_lines, texts_of};
ghost use Rattle.cv_asm.specs.Lines.{line_of_pieces};
ghost use Rattle.cv_asm.specs.Results.{unless};
ghost use Rattle.cv_asm.specs.Source.{code_word, fault_of_label, source_of, words_of};

use crate::encoder::code_word;
use crate::fault::{AsmFail, AsmFault, LineFault};
use crate::labels::{Labels, is_earlier, labels};
use crate::lexer::{is_label, lines, parted, pieces, without_comment};
use std::alloc::Global;

/// The fault of a label, if it has one.
fn label_fault<'t>(labels: &Labels<'t>, number: usize, label: Option<&'t [u8]>) -> Option<LineFault>
    ensures { result ≡ fault_of_label (is_earlier labels.now number) (option_map (λ l. l.now) label.entry) }
{
    match label {
        None => None,
        Some(label) => {
            if !is_label(label) {
                Some(LineFault::BadLabel)
            } else if is_earlier(labels, number, label) {
                Some(LineFault::DoubleLabel)
            } else {
                None
            }
        }
    }
}

/// The word of a line, which comes after `before` others, if the line has one.
fn line_word<'t>(
    labels: &Labels<'t>,
    number: usize,
    before: u32,
    pieces: &[&'t [u8]],
) -> Result<Option<u32>, LineFault>
    requires { before ≤ 65536 }
    ensures { result ≡ unless (fault_of_label (is_earlier labels.now number) (line_of_pieces (texts_of pieces.now)).label) (code_word (place_by labels.now) before (line_of_pieces (texts_of pieces.now)).code) }
{
    let (label, code) = parted(pieces);
    match label_fault(labels, number, label) {
        Some(fault) => Err(fault),
        None => code_word(labels, before, code),
    }
}

/// The words of all lines, or the first fault.
fn words<'t>(alloc: Global, lines: &[&'t [u8]], labels: &Labels<'t>) -> Result<Vec<u32>, AsmFail>
    requires few { length lines.now ≤ 4194305 }
    requires labels { AreLabels (read_lines lines.now) labels.now }
    ensures { Answers (λ v. v.items) (words_of (read_lines lines.now)) result }
{
    let mut words = Vec::new(alloc);
    let mut before = 0u32;
    for (i, line) in lines.iter().enumerate() {
        let Ok(pieces) = pieces(alloc, without_comment(line)) else {
            return Err(AsmFail::NoMemory);
        };
        let word = match line_word(labels, i, before, pieces.as_slice()) {
            Ok(Some(word)) => word,
            Ok(None) => continue,
            Err(fault) => {
                let line = i as u32 + 1;
                return Err(AsmFail::Refused(AsmFault { line, fault }));
            }
        };
        let Ok(()) = words.push(word) else {
            return Err(AsmFail::NoMemory);
        };
        before += 1;
    }
    Ok(words)
}

/// The words of a source of at most 4,194,304 bytes, or its first fault (docs/FORMATS.md, "Assembly").
///
/// Refused comes exactly where a line of the source is faulty, with the first such line, counted from
/// 1, and its first fault; NoMemory where memory was refused.
pub fn assemble(alloc: Global, text: &[u8]) -> Result<Vec<u32>, AsmFail>
    requires { length text.now ≤ 4194304 }
    ensures { Answers (λ v. v.items) (source_of text.now) result }
{
    let lines = lines(alloc, text)?;
    let labels = labels(alloc, lines.as_slice())?;
    words(alloc, lines.as_slice(), &labels)
}
