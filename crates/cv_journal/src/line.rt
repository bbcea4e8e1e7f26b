ghost use Rattle.std.specs.Prelude.{◌≡◌, ℕ, ◌<◌, ◌^◌, ◌↔◌, List, Some, IfOk, IfSome, IfNone};
ghost use Rattle.cv_base.specs.declared.entries.Entry.{Entry as AnEntry};
ghost use Rattle.cv_journal.specs.EntryReading.{entry_in, entry_of};
ghost use Rattle.cv_journal.specs.LineOf.{IsLineOf};
ghost use Rattle.cv_journal.specs.Views.{values_view};

use crate::lists::{bytes, list};
use crate::names::mode;
use crate::numbers::number;
use crate::rows::end;
use crate::values::{Values, values_of};
use cv_base::{Entry, NoMemory};
use std::alloc::Global;

/// The entry whose line, without its line feed, this is under a number (docs/FORMATS.md, "Reading a
/// report"); `None` exactly where no entry has that line. An entry's numbers are in 32 bits; whether
/// it can be the entry of a run is not asked. The error is that memory was refused.
#[tactic(auto, using(crate::proofs::EntryLaw::read_exactly))]
pub fn read_line(alloc: Global, number: u32, line: &[u8]) -> Result<Option<Entry>, NoMemory>
    ensures found { IfOk result (λ o. IfSome o (λ e. IsLineOf number line.now e)) }
    ensures none { IfOk result (λ o. IfNone o ((e : AnEntry) → IsLineOf number line.now e → ⊥)) }
{
    entry_in(alloc, number, line)
}

/// A law of the definitions, with nothing to run: what is read of a line is exactly the entry whose
/// line it is, and a line has one entry.
pub fn lines_read_exactly()
    ensures exactly { (number : ℕ) → number < 2 ^ 32 → (line : List ℕ) (e : AnEntry)
        → (entry_in number line ≡ Some e) ↔ IsLineOf number line e }
    ensures one { (number : ℕ) → number < 2 ^ 32 → (line : List ℕ) (e f : AnEntry)
        → IsLineOf number line e → IsLineOf number line f → e ≡ f }
{}

/// The entry whose line this is, as the definitions read it.
#[tactic(auto, unfolding(crate::specs::EntryReading::entry_in))]
pub fn entry_in(alloc: Global, number: u32, line: &[u8]) -> Result<Option<Entry>, NoMemory>
    ensures { IfOk result (λ o. o ≡ entry_in number line.now) }
{
    match values_of(line) {
        Some(values) => entry_of(alloc, number, &values),
        None => Ok(None),
    }
}

/// The entry that has these values; `None` where the number is another one, or a value is no text
/// of its kind.
#[tactic(auto, unfolding(crate::specs::EntryReading::entry_of))]
fn entry_of(alloc: Global, its_number: u32, values: &Values<'_>) -> Result<Option<Entry>, NoMemory>
    ensures { IfOk result (λ o. o ≡ entry_of its_number (values_view values.now)) }
{
    if number(values.number) != Some(its_number) {
        return Ok(None);
    }
    let (Some(run), Some(worker), Some(mode), Some(end), Some(turns)) = (
        number(values.run),
        number(values.worker),
        mode(values.mode),
        end(values.end),
        number(values.turns),
    ) else {
        return Ok(None);
    };
    let Some(adopted) = list(alloc, values.adopted, 4)? else {
        return Ok(None);
    };
    let Some(sites) = list(alloc, values.sites, 9)? else {
        return Ok(None);
    };
    let Some(output) = bytes(alloc, values.output)? else {
        return Ok(None);
    };
    let Some(tally) = list(alloc, values.tally, 13)? else {
        return Ok(None);
    };
    let Some(fired) = list(alloc, values.fired, 6)? else {
        return Ok(None);
    };
    Ok(Some(Entry {
        run,
        worker,
        mode,
        adopted,
        end,
        turns,
        sites,
        output,
        tally,
        fired,
    }))
}
