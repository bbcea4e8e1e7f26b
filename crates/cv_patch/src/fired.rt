ghost use Rattle.std.specs.Prelude.{◌≡◌, ◌+◌, ◌<◌, ◌≤◌, [], ℕ, List, true, length, vec_len, vec_capacity, IfOk, MatchResult, OnOk, OnErr};
ghost use Rattle.cv_histories.specs.Rows.{FiredNote, fired_of};
ghost use Rattle.cv_patch.specs.Bumped.{fired_once_more, has_firing_room, is_fired_of, with_firing};
ghost use Rattle.cv_patch.specs.Counts.{CountsFirings, FiredRises, fired_ready, fired_up_to, has_fired};
ghost use Rattle.cv_patch.specs.Prepared.{StandsAt, BelongsAt, is_lower_fired, is_higher_fired, with_repair, with_fired_for, with_all_fired};

use cv_base::{FiredRow, Items, NoMemory, Patch, PatchTable};
use std::alloc::Global;
use std::marker::Model;

/// How often repairs fired in a run. It has a row for each repair of the tables that it was prepared
/// for; contracts see the rows, ordered by case and index.
#[derive(Debug, Drop)]
pub struct Fired {
    rows: Vec<FiredRow>,
    /// The place of the row that is looked at first, that of the repair that fired last: one that
    /// fires in a loop often fires alone.
    last: usize,
}

impl Model for Fired {
    ghost use Rattle.std.specs.Prelude.{List};
    ghost use Rattle.cv_base.specs.declared.entries.FiredRow.{FiredRow};
    ghost use Rattle.cv_patch.specs.Counts.{FiredRises};

    ghost Value = { List FiredRow };

    ghost view = { λ f. f.rows.items };

    ghost invariant = { λ f. FiredRises f.rows.items };
}

impl Fired {
    /// No row. It takes no memory.
    pub fn make(alloc: Global) -> Fired
        ensures { result ≡ [] }
    {
        Fired {
            rows: Vec::new(alloc),
            last: 0,
        }
    }

    /// Makes a row for each repair that a table enforces and that has none yet. Where memory is
    /// refused all stays as it was.
    pub fn prepare(&mut self, table: &PatchTable) -> Result<(), NoMemory>
        ensures ready { OnOk result (fired_ready table.now self.new ≡ true) }
        ensures counts { (firings : List FiredNote) → CountsFirings self.old firings → CountsFirings self.new firings }
        ensures limit { (n : ℕ) → fired_up_to n self.old ≡ true → fired_up_to n self.new ≡ true }
        ensures err { OnErr result (self.new ≡ self.old) }
    {
        let patches = table.patches.as_slice();
        self.rows.reserve(patches.len())?;
        add_all(&mut self.rows, patches);
        Ok(())
    }

    /// The rows of the repairs that fired, ordered by case and index.
    pub fn rows(&self, alloc: Global) -> Result<Items<FiredRow>, NoMemory>
        ensures { (firings : List FiredNote) → CountsFirings self.now firings → IfOk result (λ rows. rows ≡ fired_of firings) }
    {
        let mut rows = Vec::new(alloc);
        for row in self.rows.as_slice() {
            if row.count != 0 {
                rows.push(*row)?;
            }
        }
        Ok(Items::from_vec(rows))
    }

    /// Equal rows.
    pub fn copied(&self, alloc: Global) -> Result<Fired, NoMemory>
        ensures { IfOk result (λ f. f ≡ self.now) }
    {
        let rows = Vec::from_slice(alloc, self.rows.as_slice())?;
        Ok(Fired {
            rows,
            last: self.last,
        })
    }

    /// Counts a firing of a repair, whose row has room for it. It takes no memory.
    pub(crate) fn fire(&mut self, case: u32, index: u32)
        requires row { has_fired self.old case index ≡ true }
        requires room { has_firing_room case index self.old ≡ true }
        ensures { self.new ≡ with_firing case index self.old }
    {
        let at = self.row_of(case, index);
        let row = self.rows[at];
        self.rows[at] = fired_once_more(row);
        self.last = at;
    }

    // the place of a repair's row
    fn row_of(&self, case: u32, index: u32) -> usize
        requires { has_fired self.now case index ≡ true }
        ensures { StandsAt (is_fired_of case index) self.now result }
    {
        if let Some(row) = self.rows.get(self.last) {
            if row.case == case && row.index == index {
                return self.last;
            }
        }
        place(self.rows.as_slice(), case, index).unwrap()
    }
}

// the row after one more firing
fn fired_once_more(row: FiredRow) -> FiredRow
    requires { row.count < 4294967295 }
    ensures { result ≡ fired_once_more row }
{
    FiredRow {
        count: row.count + 1,
        ..row
    }
}

// where the row of a repair is, or else where it belongs
fn place(rows: &[FiredRow], case: u32, index: u32) -> Result<usize, usize>
    requires { FiredRises rows.now }
    ensures { MatchResult result (StandsAt (is_fired_of case index) rows.now) (BelongsAt (is_lower_fired case index) (is_higher_fired case index) rows.now) }
{
    rows.binary_search_by_key(&(case, index), |r| (r.case, r.index))
}

// makes a row for a repair that has none
fn add(rows: &mut Vec<FiredRow>, case: u32, index: u32)
    requires rises { FiredRises rows.old.items }
    requires room { vec_len rows.old < vec_capacity rows.old }
    ensures items { rows.new.items ≡ with_repair case index rows.old.items }
    ensures room { vec_capacity rows.old ≤ vec_capacity rows.new }
    ensures len { vec_len rows.new ≤ vec_len rows.old + 1 }
{
    if let Err(at) = place(rows.as_slice(), case, index) {
        let row = FiredRow {
            case,
            index,
            count: 0,
        };
        rows.insert(at, row).unwrap();
    }
}

// makes a row for the repair that a patch enforces, if it has none
fn add_for(rows: &mut Vec<FiredRow>, patch: &Patch)
    requires rises { FiredRises rows.old.items }
    requires room { vec_len rows.old < vec_capacity rows.old }
    ensures items { rows.new.items ≡ with_fired_for rows.old.items patch.now }
    ensures room { vec_capacity rows.old ≤ vec_capacity rows.new }
    ensures len { vec_len rows.new ≤ vec_len rows.old + 1 }
{
    if let Patch::Enforce { case, index, .. } = patch {
        add(rows, *case, *index);
    }
}

// makes a row for each repair that is enforced and has none
fn add_all(rows: &mut Vec<FiredRow>, patches: &[Patch])
    requires rises { FiredRises rows.old.items }
    requires room { vec_len rows.old + length patches.now ≤ vec_capacity rows.old }
    ensures { rows.new.items ≡ with_all_fired patches.now rows.old.items }
{
    for patch in patches {
        add_for(rows, patch);
    }
}
