ghost use Rattle.std.specs.Prelude.{◌≡◌, ◌≤◌, ◌*◌, ℕ, nat_lt, length, IfOk, OnOk, List};
ghost use Rattle.std.specs.Option.{option_map};
ghost use Rattle.cv_asm.specs.Labels.{AreLabels, definition_in, found_in, found_or, is_earlier, place_by, read_lines};
ghost use Rattle.cv_asm.specs.Lines.{defines, is_named, line_of};

use crate::lexer::{parted, pieces, without_comment};
use cv_base::NoMemory;
use std::alloc::Global;
use std::collections::BTreeMap;

/// Where a label is defined for the first time: the line, counted from 0, and the label's place.
#[derive(Clone, Copy, Debug, PartialEq, Eq)]
pub struct Definition {
    pub line: usize,
    pub place: u32,
}

/// The first definition of each label of a source.
pub(crate) type Labels<'t> = BTreeMap<&'t [u8], Definition>;

/// The first definition of each label, with places of the instructions before it.
pub(crate) fn labels<'t>(alloc: Global, lines: &[&'t [u8]]) -> Result<Labels<'t>, NoMemory>
    requires { length lines.now ≤ 4194305 }
    ensures { IfOk result (λ m. AreLabels (read_lines lines.now) m) }
{
    let mut labels = BTreeMap::new(alloc);
    let mut before = 0u32;
    for (i, line) in lines.iter().enumerate() {
        if define_line(alloc, &mut labels, i, 4 * before, line)? {
            before += 1;
        }
    }
    Ok(labels)
}

/// Puts the definition of a line in, if it has one, and says whether the line has an instruction.
fn define_line<'t>(
    alloc: Global,
    labels: &mut Labels<'t>,
    number: usize,
    place: u32,
    line: &'t [u8],
) -> Result<bool, NoMemory>
    ensures put { OnOk result ((wanted : List ℕ) → found_in labels.new wanted ≡ found_or (found_in labels.old wanted) (defines wanted (line_of line.now)) (record { line = number; place = place })) }
    ensures code { IfOk result (λ b. b ≡ nat_lt 0 (length (line_of line.now).code)) }
{
    let pieces = pieces(alloc, without_comment(line))?;
    let (label, code) = parted(pieces.as_slice());
    define(labels, label, number, place)?;
    Ok(!code.is_empty())
}

/// Puts a definition in, unless the label is there already.
fn define<'t>(
    labels: &mut Labels<'t>,
    label: Option<&'t [u8]>,
    line: usize,
    place: u32,
) -> Result<(), NoMemory>
    ensures { OnOk result ((wanted : List ℕ) → found_in labels.new wanted ≡ found_or (found_in labels.old wanted) (is_named wanted (option_map (λ l. l.now) label.entry)) (record { line = line; place = place })) }
{
    if let Some(label) = label {
        if !labels.contains_key(&label) {
            labels.insert(label, Definition { line, place })?;
        }
    }
    Ok(())
}

/// The place of a label.
pub(crate) fn place<'t>(labels: &Labels<'t>, label: &'t [u8]) -> Option<u32>
    ensures { result ≡ place_by labels.now label.now }
{
    match labels.get(&label) {
        Some(definition) => Some(definition.place),
        None => None,
    }
}

/// Whether a line before this one defines the label.
pub(crate) fn is_earlier<'t>(labels: &Labels<'t>, line: usize, label: &'t [u8]) -> bool
    ensures { result ≡ is_earlier labels.now line label.now }
{
    match labels.get(&label) {
        Some(definition) => definition.line < line,
        None => false,
    }
}
