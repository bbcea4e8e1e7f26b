ghost use Rattle.std.specs.Prelude.{◌≡◌, Some, option_map};
ghost use Rattle.cv_journal.specs.EntryReading.{end_in, exit_or_failure, failure_in};

use crate::names::{held, kind};
use crate::numbers::{address, number};
use crate::pieces::{behind, cut};
use cv_base::{Adopted, End, FailureId, FiredRow, TallyRow};

/// A row of an entry, which stands as one piece of a list.
pub trait Row {
    ghost use Rattle.std.specs.Prelude.{ℕ, List, Option};

    ghost reading: { List ℕ → Option Self };

    /// The row that has this text; `None` where no row has it.
    fn read(text: &[u8]) -> Option<Self>
        ensures { result ≡ reading text.now };
}

/// An address of a site.
impl Row for u32 {
    ghost use Rattle.cv_journal.specs.Reading.{address_in};

    ghost reading = { address_in };

    fn read(text: &[u8]) -> Option<u32> {
        address(text)
    }
}

/// A version and the number of its block entries.
#[tactic(auto, unfolding(crate::specs::EntryReading::adopted_in))]
impl Row for Adopted {
    ghost use Rattle.cv_journal.specs.EntryReading.{adopted_in};

    ghost reading = { adopted_in };

    fn read(text: &[u8]) -> Option<Adopted> {
        let (version, entries) = cut(text, b':')?;
        let version = number(version)?;
        let entries = number(entries)?;
        Some(Adopted { version, entries })
    }
}

/// How often a candidate was checked, and how often it did not hold.
#[tactic(auto, unfolding(crate::specs::EntryReading::tally_in))]
impl Row for TallyRow {
    ghost use Rattle.cv_journal.specs.EntryReading.{tally_in};

    ghost reading = { tally_in };

    fn read(text: &[u8]) -> Option<TallyRow> {
        let (case, rest) = cut(text, b'.')?;
        let (index, rest) = cut(rest, b':')?;
        let (checks, rest) = cut(rest, b':')?;
        let (violations, last) = cut(rest, b':')?;
        let case = number(case)?;
        let index = number(index)?;
        let checks = number(checks)?;
        let violations = number(violations)?;
        let last_held = held(last)?;
        Some(TallyRow {
            case,
            index,
            checks,
            violations,
            last_held,
        })
    }
}

/// How often a repair fired.
#[tactic(auto, unfolding(crate::specs::EntryReading::fired_in))]
impl Row for FiredRow {
    ghost use Rattle.cv_journal.specs.EntryReading.{fired_in};

    ghost reading = { fired_in };

    fn read(text: &[u8]) -> Option<FiredRow> {
        let (case, rest) = cut(text, b'.')?;
        let (index, count) = cut(rest, b':')?;
        let case = number(case)?;
        let index = number(index)?;
        let count = number(count)?;
        Some(FiredRow { case, index, count })
    }
}

/// How a run ended.
#[tactic(auto, unfolding(crate::specs::EntryReading::end_in))]
pub fn end(text: &[u8]) -> Option<End>
    ensures { result ≡ end_in text.now }
{
    if text == b"budget".as_slice() {
        return Some(End::Budget);
    }
    if let Some(code) = behind(text, b"exit:") {
        return exit(code);
    }
    failure(behind(text, b"failure:")?)
}

/// The end with an exit code.
fn exit(text: &[u8]) -> Option<End>
    ensures { result ≡ exit_or_failure (Some text.now) None }
{
    let code = number(text)?;
    Some(End::Exit { code })
}

/// The end by a failure, of which it has the kind, the pc and the detail.
#[tactic(auto, unfolding(crate::specs::EntryReading::failure_in))]
fn failure(text: &[u8]) -> Option<End>
    ensures { result ≡ failure_in text.now }
{
    let (name, rest) = cut(text, b':')?;
    let (pc, detail) = cut(rest, b':')?;
    let kind = kind(name)?;
    let pc = address(pc)?;
    let detail = address(detail)?;
    let id = FailureId { kind, pc };
    Some(End::Failure { id, detail })
}
