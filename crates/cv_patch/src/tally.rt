ghost use Rattle.std.specs.Prelude.{◌≡◌, ◌+◌, ◌<◌, ◌≤◌, [], ℕ, List, true, length, vec_len, vec_capacity, IfOk, MatchResult, OnOk, OnErr};
ghost use Rattle.cv_histories.specs.Rows.{CheckNote, tally_of};
ghost use Rattle.cv_patch.specs.Bumped.{checked_once_more, has_check_room, is_of, with_check};
ghost use Rattle.cv_patch.specs.Counts.{CountsChecks, TallyRises, has_tally, tally_ready, tally_up_to};
ghost use Rattle.cv_patch.specs.Prepared.{StandsAt, BelongsAt, is_lower, is_higher, with_candidate, with_tally_for, with_tallies};

use cv_base::{Items, NoMemory, Patch, PatchTable, TallyRow};
use std::alloc::Global;
use std::marker::Model;

/// How often candidates were checked in a run, and with what result. It has a row for each candidate
/// of the tables that it was prepared for; contracts see the rows, ordered by case and index.
#[derive(Debug, Drop)]
pub struct Tally {
    rows: Vec<TallyRow>,
    /// The place of the row that is looked at first: candidates at one point, and at points that follow
    /// each other, often have rows that follow each other.
    next: usize,
}

impl Model for Tally {
    ghost use Rattle.std.specs.Prelude.{◌≡◌, true, nat_le, List};
    ghost use Rattle.std.specs.List.{list_all};
    ghost use Rattle.cv_base.specs.declared.entries.TallyRow.{TallyRow};
    ghost use Rattle.cv_patch.specs.Counts.{TallyRises};

    ghost Value = { List TallyRow };

    ghost view = { λ t. t.rows.items };

    ghost invariant = { λ t. TallyRises t.rows.items × (list_all (λ (r : TallyRow). nat_le r.violations r.checks) t.rows.items ≡ true) };
}

impl Tally {
    /// A tally without a row. It takes no memory.
    pub fn make(alloc: Global) -> Tally
        ensures { result ≡ [] }
    {
        Tally {
            rows: Vec::new(alloc),
            next: 0,
        }
    }

    /// Makes a row for each candidate that a table checks and that has none yet. Where memory is
    /// refused the tally stays as it was.
    pub fn prepare(&mut self, table: &PatchTable) -> Result<(), NoMemory>
        ensures ready { OnOk result (tally_ready table.now self.new ≡ true) }
        ensures counts { (checks : List CheckNote) → CountsChecks self.old checks → CountsChecks self.new checks }
        ensures limit { (n : ℕ) → tally_up_to n self.old ≡ true → tally_up_to n self.new ≡ true }
        ensures err { OnErr result (self.new ≡ self.old) }
    {
        let patches = table.patches.as_slice();
        self.rows.reserve(patches.len())?;
        add_all(&mut self.rows, patches);
        Ok(())
    }

    /// The rows of the candidates that were checked, ordered by case and index.
    pub fn rows(&self, alloc: Global) -> Result<Items<TallyRow>, NoMemory>
        ensures { (checks : List CheckNote) → CountsChecks self.now checks → IfOk result (λ rows. rows ≡ tally_of checks) }
    {
        let mut rows = Vec::new(alloc);
        for row in self.rows.as_slice() {
            if row.checks != 0 {
                rows.push(*row)?;
            }
        }
        Ok(Items::from_vec(rows))
    }

    /// An equal tally.
    pub fn copied(&self, alloc: Global) -> Result<Tally, NoMemory>
        ensures { IfOk result (λ t. t ≡ self.now) }
    {
        let rows = Vec::from_slice(alloc, self.rows.as_slice())?;
        Ok(Tally {
            rows,
            next: self.next,
        })
    }

    /// Counts a check of a candidate, whose row has room for it. It takes no memory.
    pub(crate) fn check(&mut self, case: u32, index: u32, held: bool)
        requires row { has_tally self.old case index ≡ true }
        requires room { has_check_room case index self.old ≡ true }
        ensures { self.new ≡ with_check case index held self.old }
    {
        let at = self.row_of(case, index);
        let row = self.rows[at];
        self.rows[at] = checked_once_more(row, held);
        self.next = at + 1;
    }

    // the place of a candidate's row
    fn row_of(&self, case: u32, index: u32) -> usize
        requires { has_tally self.now case index ≡ true }
        ensures { StandsAt (is_of case index) self.now result }
    {
        if let Some(row) = self.rows.get(self.next) {
            if row.case == case && row.index == index {
                return self.next;
            }
        }
        place(self.rows.as_slice(), case, index).unwrap()
    }
}

// the row after one more check
fn checked_once_more(row: TallyRow, held: bool) -> TallyRow
    requires room { row.checks < 4294967295 }
    requires counted { row.violations ≤ row.checks }
    ensures { result ≡ checked_once_more held row }
{
    TallyRow {
        checks: row.checks + 1,
        violations: if held {
            row.violations
        } else {
            row.violations + 1
        },
        last_held: held,
        ..row
    }
}

// where the row of a candidate is, or else where it belongs
fn place(rows: &[TallyRow], case: u32, index: u32) -> Result<usize, usize>
    requires { TallyRises rows.now }
    ensures { MatchResult result (StandsAt (is_of case index) rows.now) (BelongsAt (is_lower case index) (is_higher case index) rows.now) }
{
    rows.binary_search_by_key(&(case, index), |r| (r.case, r.index))
}

// makes a row for a candidate that has none
fn add(rows: &mut Vec<TallyRow>, case: u32, index: u32)
    requires rises { TallyRises rows.old.items }
    requires room { vec_len rows.old < vec_capacity rows.old }
    ensures items { rows.new.items ≡ with_candidate case index rows.old.items }
    ensures room { vec_capacity rows.old ≤ vec_capacity rows.new }
    ensures len { vec_len rows.new ≤ vec_len rows.old + 1 }
{
    if let Err(at) = place(rows.as_slice(), case, index) {
        let row = TallyRow {
            case,
            index,
            checks: 0,
            violations: 0,
            last_held: false,
        };
        rows.insert(at, row).unwrap();
    }
}

// makes a row for the candidate that a patch checks, if it has none
fn add_for(rows: &mut Vec<TallyRow>, patch: &Patch)
    requires rises { TallyRises rows.old.items }
    requires room { vec_len rows.old < vec_capacity rows.old }
    ensures items { rows.new.items ≡ with_tally_for rows.old.items patch.now }
    ensures room { vec_capacity rows.old ≤ vec_capacity rows.new }
    ensures len { vec_len rows.new ≤ vec_len rows.old + 1 }
{
    if let Patch::Check { case, index, .. } = patch {
        add(rows, *case, *index);
    }
}

// makes a row for each candidate that is checked and has none
fn add_all(rows: &mut Vec<TallyRow>, patches: &[Patch])
    requires rises { TallyRises rows.old.items }
    requires room { vec_len rows.old + length patches.now ≤ vec_capacity rows.old }
    ensures { rows.new.items ≡ with_tallies patches.now rows.old.items }
{
    for patch in patches {
        add_for(rows, patch);
    }
}
