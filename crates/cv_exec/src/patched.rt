ghost use Rattle.std.specs.Prelude.{◌≡◌, ◌<◌, ◌≤◌, [], ℕ, List, Some, None, true, false, length, option_map, IfOk, OnOk, OnErr};
ghost use Rattle.cv_base.specs.Picture.{is_point};
ghost use Rattle.cv_base.specs.Points.{is_point_in};
ghost use Rattle.cv_histories.specs.Rows.{checks_in, firings_in};
ghost use Rattle.cv_exec.specs.Ending.{live_told};
ghost use Rattle.cv_exec.specs.LiveRun.{MayAdopt, adoptions_of, one_entry_more, rows_of};
ghost use Rattle.cv_exec.specs.Keeping.{EntersAfter, IsCopy, IsEntered, IsFresh, IsKept, IsNoted, IsReady, IsRefused, KeepsCounts, MayTurn, indexed_table, is_of_version, is_transfer_in, last_span, last_table, left_now, state_then, table_if, turn_now, wants_by};
ghost use Rattle.cv_exec.specs.Passing.{EndsBy, passed};
ghost use Rattle.cv_patch.specs.Indexing.{AreFree};
ghost use Rattle.cv_exec.specs.RunEnds.{end_with};
ghost use Rattle.cv_machine.specs.Answers.{answer_of};
ghost use Rattle.cv_machine.specs.Held.{state_of};
ghost use Rattle.cv_patch.specs.Applied.{applied, left_at};
ghost use Rattle.cv_patch.specs.Counts.{FiredGoesOn, TallyGoesOn, fired_ready, fired_up_to, tally_ready, tally_up_to};
ghost use Rattle.cv_runs.specs.PatchedRun.{PatchedStep};

use crate::ending::Account;
use cv_base::{Adopted, End, Items, Mode, NoMemory, PatchTable, TextRange};
use cv_blocks::EntryRule;
use cv_machine::{Machine, Stretch, Turn};
use cv_patch::{Applied, Fired, Indexed, Tally, apply_indexed};
use cv_shadow::Core;
use std::alloc::Global;
use std::marker::Model;
use std::sync::Arc;

/// A version that block entries in a row adopted, how many, and its table.
#[derive(Drop)]
pub(crate) struct Span {
    version: u32,
    entries: u32,
    table: Arc<PatchTable, Global>,
}

impl Model for Span {
    ghost use Rattle.cv_exec.specs.LiveRun as live;

    ghost Value = { live.Span };

    ghost view = { λ s. record { version = s.version; entries = s.entries; table = s.table.value } };
}

impl Span {
    /// The same, with its table once more.
    fn copied(&self) -> Result<Span, NoMemory>
        ensures { IfOk result (λ s. s ≡ self.now) }
    {
        let table = Arc::try_clone(&self.table)?;
        Ok(Span {
            version: self.version,
            entries: self.entries,
            table,
        })
    }
}

/// What a live run keeps beside its machine: where its blocks begin, what it has adopted, and what
/// its patches noted.
#[derive(Drop)]
pub(crate) struct Patched {
    alloc: Global,
    text: TextRange,
    rule: EntryRule,
    /// Whether the next turn is a block entry, and whether a table was adopted for it.
    enters: bool,
    entered: bool,
    spans: Vec<Span>,
    /// Whether the tally and the firings have a row for each patch of the last span's table, and the
    /// index is of that table.
    prepared: bool,
    /// The table with its index; none where it has no patch.
    index: Option<Indexed>,
    tally: Tally,
    fired: Fired,
}

impl Patched {
    /// Before the first turn, which is a block entry.
    pub(crate) fn make(alloc: Global, text: TextRange) -> Patched
        ensures { IsFresh text result }
    {
        let mut rule = EntryRule::make();
        let enters = rule.next(false);
        Patched {
            alloc,
            text,
            rule,
            enters,
            entered: false,
            spans: Vec::new(alloc),
            prepared: false,
            index: None,
            tally: Tally::make(alloc),
            fired: Fired::make(alloc),
        }
    }

    /// The same once more.
    pub(crate) fn copied(&self) -> Result<Patched, NoMemory>
        ensures { IfOk result (IsCopy self.now) }
    {
        let spans = copied_spans(self.alloc, self.spans.as_slice())?;
        let index = copied_index(self.alloc, &self.index)?;
        let tally = self.tally.copied(self.alloc)?;
        let fired = self.fired.copied(self.alloc)?;
        Ok(Patched {
            alloc: self.alloc,
            text: self.text,
            rule: self.rule,
            enters: self.enters,
            entered: self.entered,
            spans,
            prepared: self.prepared,
            index,
            tally,
            fired,
        })
    }

    /// Whether the next turn is a block entry for which no version was adopted yet.
    pub(crate) fn wants_entry(&self) -> bool
        ensures { result ≡ wants_by self.now }
    {
        self.enters && !self.entered
    }

    /// The table of a version, where it is the one adopted last.
    pub(crate) fn last_table(
        &self,
        version: u32,
    ) -> Result<Option<Arc<PatchTable, Global>>, NoMemory>
        ensures { IfOk result (λ found. option_map (λ t. t.value) found ≡ table_if version (last_span self.now.spans.items)) }
    {
        match self.spans.as_slice().last() {
            Some(span) if span.version == version => Ok(Some(Arc::try_clone(&span.table)?)),
            _ => Ok(None),
        }
    }

    /// A block entry adopts a version with its table. Where memory is refused it still wants one.
    pub(crate) fn adopt(
        &mut self,
        version: u32,
        table: Arc<PatchTable, Global>,
    ) -> Result<(), NoMemory>
        requires may { MayAdopt version table.value self.old.spans.items }
        requires room { length (adoptions_of self.old.spans.items) < 4294967295 }
        requires ready { self.old.prepared ≡ true → IsReady self.old }
        ensures ok { OnOk result (IsEntered version table.value self.old self.new) }
        ensures err { OnErr result (IsRefused self.old self.new) }
    {
        self.prepare(version, &table)?;
        add_entry(&mut self.spans, version, table)?;
        self.prepared = true;
        self.entered = true;
        Ok(())
    }

    /// A block entry adopts the version adopted last once more, where it is this one: whether it was.
    /// It takes no memory, and asks for no table.
    pub(crate) fn again(&mut self, version: u32) -> bool
        requires room { length (adoptions_of self.old.spans.items) < 4294967295 }
        requires ready { self.old.prepared ≡ true → IsReady self.old }
        ensures known { result ≡ true → is_of_version version (last_span self.old.spans.items) ≡ true }
        ensures entered { result ≡ true → IsEntered version (last_table self.old.spans.items) self.old self.new }
        ensures same { result ≡ false → self.new ≡ self.old }
    {
        if !self.prepared {
            return false;
        }
        if !is_last(self.spans.as_slice(), version) {
            return false;
        }
        count_entry(&mut self.spans, version);
        self.entered = true;
        true
    }

    /// Sees to it that each patch of a version's table has its row, and the table its index.
    fn prepare(&mut self, version: u32, table: &Arc<PatchTable, Global>) -> Result<(), NoMemory>
        requires ready { self.old.prepared ≡ true → IsReady self.old }
        requires known { is_of_version version (last_span self.old.spans.items) ≡ true → last_table self.old.spans.items ≡ table.now.value }
        ensures tally { OnOk result (tally_ready table.now.value self.new.tally ≡ true) }
        ensures fired { OnOk result (fired_ready table.now.value self.new.fired ≡ true) }
        ensures index { OnOk result (indexed_table self.new.index ≡ table.now.value) }
        ensures ready { self.new.prepared ≡ true → IsReady self.new }
        ensures counts { KeepsCounts self.old self.new }
        ensures rest { self.new ≡ record self.old { prepared = self.new.prepared; index = self.new.index; tally = self.new.tally; fired = self.new.fired } }
    {
        if self.prepared && is_last(self.spans.as_slice(), version) {
            return Ok(());
        }
        self.prepared = false;
        self.tally.prepare(table)?;
        self.fired.prepare(table)?;
        self.index = index_of(self.alloc, table)?;
        Ok(())
    }

    /// A patched turn with the table adopted last, of `left` that the budget still allows: how the run
    /// ends with it, if it does.
    pub(crate) fn turn(&mut self, machine: &mut Machine, left: u32) -> Option<End>
        requires { MayTurn self.old machine.old }
        ensures image { machine.new.image ≡ machine.old.image }
        ensures point { is_point machine.new.image machine.new.core.pc ≡ true }
        ensures state { state_of machine.new ≡ state_then self.old machine.old }
        ensures end { result ≡ end_with left (turn_now self.old machine.old).outcome }
        ensures noted { IsNoted (turn_now self.old machine.old) self.old self.new }
        ensures next { result ≡ None → EntersAfter (is_transfer_in (turn_now self.old machine.old).outcome) self.old self.new }
    {
        match self.patched_turn(machine) {
            Turn::Ended(end) => Some(end),
            Turn::Next { .. } if left == 1 => Some(End::Budget),
            Turn::Next { transfer } => {
                self.enters = self.rule.next(transfer);
                self.entered = false;
                None
            }
        }
    }

    /// The patches at the machine's pc, and the plain turn where they did not use it up.
    fn patched_turn(&mut self, machine: &mut Machine) -> Turn
        requires { MayTurn self.old machine.old }
        ensures image { machine.new.image ≡ machine.old.image }
        ensures point { is_point machine.new.image machine.new.core.pc ≡ true }
        ensures state { state_of machine.new ≡ state_then self.old machine.old }
        ensures answer { result ≡ answer_of (turn_now self.old machine.old).outcome }
        ensures noted { IsNoted (turn_now self.old machine.old) self.old self.new }
        ensures rest { self.new ≡ record self.old { tally = self.new.tally; fired = self.new.fired } }
    {
        match self.patch(machine) {
            Applied::Go => machine.turn(),
            Applied::Skipped | Applied::Returned => Turn::Next { transfer: true },
        }
    }

    /// The patches at the machine's pc of the table adopted last.
    fn patch(&mut self, machine: &mut Machine) -> Applied
        requires { MayTurn self.old machine.old }
        ensures core { machine.new ≡ record machine.old { core = (left_now self.old machine.old).core } }
        ensures point { is_point machine.new.image machine.new.core.pc ≡ true }
        ensures applied { result ≡ applied machine.old.core (left_now self.old machine.old) }
        ensures noted { IsNoted (turn_now self.old machine.old) self.old self.new }
        ensures rest { self.new ≡ record self.old { tally = self.new.tally; fired = self.new.fired } }
    {
        apply_with(
            &self.index,
            self.text,
            machine.core_mut(),
            &mut self.tally,
            &mut self.fired,
        )
    }

    /// How many plain turns may be made at once from a point on, `most` at most: none of them has a
    /// patch, and no block entry comes before the last where none but the last is a transfer.
    pub(crate) fn free(&self, pc: u32, most: u32) -> u32
        requires { IsReady self.now }
        ensures free { AreFree (last_table self.now.spans.items) result pc }
        ensures ends { EndsBy self.now.rule result }
        ensures most { result ≤ most }
    {
        let room = self.rule.room();
        let most = room.min(most);
        free_words(&self.index, pc, most)
    }

    /// Goes on over turns that the machine made, one at the least.
    pub(crate) fn pass(&mut self, stretch: Stretch)
        requires some { 0 < stretch.turns }
        requires ends { EndsBy self.old.rule stretch.turns }
        ensures { self.new ≡ passed stretch.turns stretch.transfer self.old }
    {
        self.rule.pass(stretch.turns - 1);
        self.enters = self.rule.next(stretch.transfer);
        self.entered = false;
    }

    /// What the run tells of itself: what it adopted, checked and repaired.
    pub(crate) fn tell(&self, alloc: Global) -> Result<Account, NoMemory>
        ensures { IfOk result (λ t. (done : List PatchedStep) → IsKept done self.now → t ≡ live_told done self.now) }
    {
        let adopted = self.rows(alloc)?;
        let tally = self.tally.rows(alloc)?;
        let fired = self.fired.rows(alloc)?;
        Ok(Account {
            mode: Mode::Live,
            adopted,
            tally,
            fired,
        })
    }

    /// The versions and how often each was adopted.
    fn rows(&self, alloc: Global) -> Result<Items<Adopted>, NoMemory>
        ensures { IfOk result (λ rows. rows ≡ rows_of self.now.spans.items) }
    {
        let mut rows = Vec::with_capacity(alloc, self.spans.len())?;
        for span in self.spans.as_slice() {
            rows.push(Adopted {
                version: span.version,
                entries: span.entries,
            })?;
        }
        Ok(Items::from_vec(rows))
    }

    /// What it adopted. It takes no memory.
    pub(crate) fn into_spans(self) -> Vec<Span>
        ensures { result.items ≡ self.spans.items }
    {
        let Patched { spans, .. } = self;
        spans
    }
}

/// The same spans.
fn copied_spans(alloc: Global, spans: &[Span]) -> Result<Vec<Span>, NoMemory>
    ensures { IfOk result (λ v. v.items ≡ spans.now) }
{
    let mut copies = Vec::with_capacity(alloc, spans.len())?;
    for span in spans {
        copies.push(span.copied()?)?;
    }
    Ok(copies)
}

/// The same table with an equal index, where there is one.
fn copied_index(alloc: Global, index: &Option<Indexed>) -> Result<Option<Indexed>, NoMemory>
    ensures { IfOk result (λ copy. copy ≡ index.now) }
{
    match index {
        Some(table) => Ok(Some(table.copied(alloc)?)),
        None => Ok(None),
    }
}

/// Whether a version is the one adopted last.
fn is_last(spans: &[Span], version: u32) -> bool
    ensures { result ≡ is_of_version version (last_span spans.now) }
{
    match spans.last() {
        Some(span) => span.version == version,
        None => false,
    }
}

/// One block entry more.
fn add_entry(
    spans: &mut Vec<Span>,
    version: u32,
    table: Arc<PatchTable, Global>,
) -> Result<(), NoMemory>
    requires { length (adoptions_of spans.old.items) < 4294967295 }
    ensures ok { OnOk result (spans.new.items ≡ one_entry_more version table.value spans.old.items) }
    ensures err { OnErr result (spans.new.items ≡ spans.old.items) }
{
    if is_last(spans.as_slice(), version) {
        let last = spans.len() - 1;
        spans[last].entries += 1;
    } else {
        spans.push(Span {
            version,
            entries: 1,
            table,
        })?;
    }
    Ok(())
}

/// One block entry more of the version adopted last.
fn count_entry(spans: &mut Vec<Span>, version: u32)
    requires room { length (adoptions_of spans.old.items) < 4294967295 }
    requires last { is_of_version version (last_span spans.old.items) ≡ true }
    ensures { spans.new.items ≡ one_entry_more version (last_table spans.old.items) spans.old.items }
{
    let last = spans.len() - 1;
    spans[last].entries += 1;
}

/// A table with its index, where it has a patch.
fn index_of(alloc: Global, table: &Arc<PatchTable, Global>) -> Result<Option<Indexed>, NoMemory>
    ensures { IfOk result (λ index. indexed_table index ≡ table.now.value) }
{
    if table.patches.is_empty() {
        return Ok(None);
    }
    let indexed = Indexed::make(alloc, Arc::try_clone(table)?)?;
    Ok(Some(indexed))
}

/// How many words from an address on have no patch, at most `most`.
fn free_words(index: &Option<Indexed>, pc: u32, most: u32) -> u32
    ensures free { AreFree (indexed_table index.now) result pc }
    ensures most { result ≤ most }
{
    match index {
        None => most,
        Some(table) => table.free_from(pc).min(most),
    }
}

/// The patches of a table at the pc, by its index.
fn apply_with(
    index: &Option<Indexed>,
    text: TextRange,
    core: &mut Core,
    tally: &mut Tally,
    fired: &mut Fired,
) -> Applied
    requires point { is_point_in text.base text.count core.old.pc ≡ true }
    requires tally_ready { tally_ready (indexed_table index.now) tally.old ≡ true }
    requires fired_ready { fired_ready (indexed_table index.now) fired.old ≡ true }
    requires tally_room { tally_up_to 4294967294 tally.old ≡ true }
    requires fired_room { fired_up_to 4294967294 fired.old ≡ true }
    ensures core { core.new ≡ (left_at text (indexed_table index.now) core.old).core }
    ensures applied { result ≡ applied core.old (left_at text (indexed_table index.now) core.old) }
    ensures tally { TallyGoesOn (indexed_table index.now) tally.old tally.new (checks_in (left_at text (indexed_table index.now) core.old).notes) }
    ensures fired { FiredGoesOn (indexed_table index.now) fired.old fired.new (firings_in (left_at text (indexed_table index.now) core.old).notes) }
    ensures point { is_point_in text.base text.count core.new.pc ≡ true }
{
    match index {
        None => Applied::Go,
        Some(table) => apply_indexed(table, text, core, tally, fired),
    }
}
