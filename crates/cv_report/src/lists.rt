ghost use Rattle.std.specs.Prelude.{◌≡◌, ◌∷◌, ◌++◌, map, string_bytes, IfOk, OnOk};
ghost use Rattle.std.specs.List.{flat_map};
ghost use Rattle.cv_base.specs.InvariantText.{list_text};
ghost use Rattle.cv_histories.specs.Texts.{held_text};

use crate::texts::maker_text;
use cv_base::{Adopted, FiredRow, NoMemory, TallyRow};
use std::alloc::Global;

/// A row of an entry, which the entry's line writes as one piece of a list.
pub trait Row {
    ghost use Rattle.std.specs.Prelude.{ℕ, List};

    ghost written: { Self → List ℕ };

    /// The row's text.
    fn text(&self, alloc: Global) -> Result<String, NoMemory>
        ensures { IfOk result (λ s. string_bytes s ≡ written self.now) };
}

/// A version and the number of its block entries.
impl Row for Adopted {
    ghost use Rattle.cv_histories.specs.Texts.{adopted_text};

    ghost written = { adopted_text };

    fn text(&self, alloc: Global) -> Result<String, NoMemory> {
        let version = self.version;
        let entries = self.entries;
        Ok(format!(in alloc; "{version}:{entries}")?)
    }
}

/// How often a candidate was checked, and how often it did not hold.
impl Row for TallyRow {
    ghost use Rattle.cv_histories.specs.Texts.{tally_text};

    ghost written = { tally_text };

    fn text(&self, alloc: Global) -> Result<String, NoMemory> {
        let case = self.case;
        let index = self.index;
        let checks = self.checks;
        let violations = self.violations;
        let last = held_text(self.last_held);
        Ok(format!(in alloc; "{case}.{index}:{checks}:{violations}:{last}")?)
    }
}

/// The word for whether a candidate held.
fn held_text(held: bool) -> &'static str
    ensures { result.now ≡ held_text held }
{
    if held { "held" } else { "failed" }
}

/// How often a repair fired.
impl Row for FiredRow {
    ghost use Rattle.cv_histories.specs.Texts.{fired_text};

    ghost written = { fired_text };

    fn text(&self, alloc: Global) -> Result<String, NoMemory> {
        let case = self.case;
        let index = self.index;
        let count = self.count;
        Ok(format!(in alloc; "{case}.{index}:{count}")?)
    }
}

/// A number, or `-` where there is none.
impl Row for Option<u32> {
    ghost use Rattle.cv_histories.specs.Report.{maker_text};

    ghost written = { maker_text };

    fn text(&self, alloc: Global) -> Result<String, NoMemory> {
        maker_text(alloc, *self)
    }
}

/// The texts of rows, joined by commas; `-` where there is none.
pub fn list_text<R: Row>(alloc: Global, rows: &[R]) -> Result<String, NoMemory>
    ensures { IfOk result (λ s. string_bytes s ≡ list_text (map R.written rows.now)) }
{
    match rows {
        [] => Ok(String::from_str(alloc, "-")?),
        [first, rest @ ..] => {
            let mut text = first.text(alloc)?;
            add_rest(alloc, rest, &mut text)?;
            Ok(text)
        }
    }
}

/// Adds the texts of rows, with a comma before each.
fn add_rest<R: Row>(alloc: Global, rows: &[R], text: &mut String) -> Result<(), NoMemory>
    ensures { OnOk result (string_bytes text.new ≡ string_bytes text.old ++ flat_map (λ r. 44 ∷ R.written r) rows.now) }
{
    for row in rows {
        let piece = row.text(alloc)?;
        text.push_str(",")?;
        text.push_str(piece.as_str())?;
    }
    Ok(())
}
