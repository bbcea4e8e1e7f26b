ghost use Rattle.std.specs.List.{AllByRecursion};
ghost use Rattle.std.specs.Prelude.{◌≡◌, ◌≤◌, ◌<◌, ◌++◌, [], ℕ, List, Some, None, false, true, option_map, slice_get, IfOk, OnOk, OnErr, IsOk, IsSome};
ghost use Rattle.cv_base.specs.declared.plan.Mode.TheVariants as mode;
ghost use Rattle.cv_blocks.specs.TextMap.{text_only};
ghost use Rattle.cv_exec.specs.ArenaOf.{adopted_in, entered, entry_of_going, flight_in, has_ended, is_over, one_more, seen_in, seen_so_far, turns_in, wants_entry};
ghost use Rattle.cv_exec.specs.Keeping.{IsNotBelow, is_of_version, last_span, last_table, table_if};
ghost use Rattle.cv_exec.specs.LearnRun.{IsLearnRun, learn_steps, entry_by};
ghost use Rattle.cv_exec.specs.LiveRun.{HaveTables, IsLiveRun, MayAdopt, Span, rows_of};
ghost use Rattle.cv_exec.specs.Passing.{with_adopted, with_turns};
ghost use Rattle.cv_histories.specs.Seen.{is_live, is_observed, observed_of};
ghost use Rattle.cv_histories.specs.Unfired.{SaysPlain};
ghost use Rattle.cv_histories.specs.Flight as flight;
ghost use Rattle.cv_histories.specs.Flight.{begun, turned};
ghost use Rattle.cv_histories.specs.Honest.{IsHonest};
ghost use Rattle.cv_histories.specs.Legal.{NeverFalls};
ghost use Rattle.cv_histories.specs.Rows.{written};
ghost use Rattle.cv_histories.specs.Runs.{Run, run_at};
ghost use Rattle.cv_observe.specs.StandsFor.{StandsFor};
ghost use Rattle.cv_patch.specs.Adopting.{IsGrown};
ghost use Rattle.cv_runs.specs.Learned.{observations};

use crate::turns::see;
use crate::{InFlight, Record};
use cv_base::{Entry, Mode, NoMemory, PatchTable, Plan};
use cv_blocks::TextMap;
use cv_histories::is_observed;
use cv_laws::{flown_is_of, flown_is_plain, unfired_is_plain};
use cv_observe::Summary;
use cv_patch::{Adopter, Watcher};
use std::alloc::Global;
use std::marker::Model;
use std::sync::Arc;

/// Where the runs of one plan are run, one after another, each turn by turn, and seen. Contracts see
/// the plan, the run that is going on with its turns so far and what it adopted, which make the run
/// in flight, and the summary of what was seen before its turns.
#[derive(Drop)]
pub struct Arena {
    flight: InFlight,
    summary: Summary,
}

impl Model for Arena {
    ghost use Rattle.cv_exec.specs.ArenaOf.{ArenaOf};

    ghost Value = { ArenaOf };

    ghost use Rattle.cv_exec.specs.ArenaStands.{IsArena};

    ghost view = { λ a. record { plan = a.flight.plan; going = a.flight.going; summary = a.summary } };

    ghost invariant = { λ a. IsArena a.flight a.summary };
}

impl Arena {
    /// An arena for the runs of a plan, of which it keeps a copy; no run is going on.
    pub fn make(alloc: Global, plan: &Plan) -> Result<Arena, NoMemory>
        ensures plan { IfOk result (λ a. a.plan ≡ plan.now) }
        ensures going { IfOk result (λ a. a.going ≡ None) }
    {
        let map = TextMap::make(alloc, &plan.image)?;
        let summary = Summary::make(alloc, &map)?;
        let flight = InFlight::with_text(alloc, plan, map.range())?;
        Ok(Arena { flight, summary })
    }

    /// Starts a run of the arena's plan, by its number, for a worker of the plan. A run that was not
    /// finished is given up. It takes no memory.
    pub fn start(
        &mut self,
        alloc: Global,
        plan: &Plan,
        run: u32,
        worker: u32,
    ) -> Result<(), NoMemory>
        requires plan { plan.now ≡ self.old.plan }
        requires run { IsSome (run_at plan.now run) }
        requires worker { worker < plan.now.workers }
        ensures going { OnOk result (self.new.going ≡ Some (record { run = run; worker = worker; turns = 0; adopted = [] })) }
        ensures flight { OnOk result (flight_in self.new.plan self.new.going ≡ option_map (λ (r : Run). begun self.old.plan run r) (run_at self.old.plan run)) }
        ensures begins { OnOk result (has_ended self.new ≡ false) }
        ensures plan { self.new.plan ≡ self.old.plan }
        ensures err { OnErr result (self.new ≡ self.old) }
        ensures ok { IsOk result }
    {
        self.summary.clear();
        self.flight.start(alloc, plan, run, worker);
        Ok(())
    }

    /// Whether a run was started that has ended, by an end or by the budget.
    pub fn ended(&self) -> bool
        ensures { result ≡ has_ended self.now }
    {
        self.flight.ended()
    }

    /// Whether a live run is going on whose next turn is a block entry, for which no version was
    /// adopted yet. It takes no memory.
    pub fn wants_entry(&self) -> bool
        ensures { result ≡ wants_entry self.now }
    {
        self.flight.wants_entry()
    }

    /// The block entry that is wanted adopts a version, with its table: a version not below the last
    /// one of this run and, where it is that one, its table. Where memory is refused the arena stays
    /// as it was.
    pub fn adopt(&mut self, version: u32, table: Arc<PatchTable, Global>) -> Result<(), NoMemory>
        requires wanted { wants_entry self.old ≡ true }
        requires may { MayAdopt version table.value (adopted_in self.old.going) }
        ensures going { OnOk result (self.new.going ≡ entered version table.value self.old.going) }
        ensures flight { OnOk result (flight_in self.new.plan self.new.going ≡ option_map (flight.entered version table.value) (flight_in self.old.plan self.old.going)) }
        ensures goes_on { OnOk result (has_ended self.new ≡ false) }
        ensures entered { OnOk result (wants_entry self.new ≡ false) }
        ensures plan { self.new.plan ≡ self.old.plan }
        ensures err { OnErr result (self.new ≡ self.old) }
    {
        self.flight.adopt(version, table)
    }

    /// One turn of the run that is going on: whether the run has ended with it. A learn run's turn is
    /// plain, and the summary sees the point, the registers and the frame's sp before it; a live run's
    /// is patched with the table that was adopted last. It takes no memory.
    pub fn step(&mut self) -> Result<bool, NoMemory>
        requires started { IsSome self.old.going }
        requires goes_on { has_ended self.old ≡ false }
        requires entered { wants_entry self.old ≡ false }
        ensures turned { OnOk result (self.new.going ≡ one_more self.old.going) }
        ensures flight { OnOk result (flight_in self.new.plan self.new.going ≡ option_map (turned self.old.plan) (flight_in self.old.plan self.old.going)) }
        ensures ended { IfOk result (λ over. over ≡ has_ended self.new) }
        ensures plan { self.new.plan ≡ self.old.plan }
        ensures err { OnErr result (self.new ≡ self.old) }
        ensures ok { IsOk result }
    {
        see_before(&self.flight, &mut self.summary);
        Ok(self.flight.step())
    }

    /// The record of a run that has ended, which is no longer going on then. Of a live run that is
    /// learned from, the plain run is run and seen, which takes its time once more. Where memory is
    /// refused the arena stays as it was.
    pub fn finish(&mut self, alloc: Global) -> Result<Record, NoMemory>
        requires { has_ended self.old ≡ true }
        ensures plan { IfOk result (λ r. r.plan ≡ self.old.plan) }
        ensures entry { IfOk result (λ r. entry_of_going self.old.plan self.old.going ≡ Some r.entry) }
        ensures adopted { IfOk result (λ r. r.adopted ≡ adopted_in self.old.going) }
        ensures going { IfOk result (λ r. self.old.going ≡ Some (record { run = r.entry.run; worker = r.entry.worker; turns = r.entry.turns; adopted = r.adopted })) }
        ensures turns { IfOk result (λ r. r.entry.turns ≤ self.old.plan.budget) }
        ensures worker { IfOk result (λ r. r.entry.worker < self.old.plan.workers) }
        ensures learned { IfOk result (λ r. is_live r.entry.mode ≡ false → StandsFor self.new.summary (observed_of self.old.plan (run_at self.old.plan r.entry.run))) }
        ensures observed { IfOk result (λ r. is_observed r.entry ≡ true → StandsFor self.new.summary (observed_of self.old.plan (run_at self.old.plan r.entry.run))) }
        ensures unseen { IfOk result (λ r. is_live r.entry.mode ≡ true → is_observed r.entry ≡ false → StandsFor self.new.summary []) }
        ensures left { OnOk result (self.new.going ≡ None) }
        ensures kept { self.new.plan ≡ self.old.plan }
        ensures err { OnErr result (self.new ≡ self.old) }
    {
        let plan = self.flight.shared()?;
        let entry = self.flight.entry(alloc)?;
        let spans = self.flight.land(alloc);
        self.look_again(alloc, &entry);
        Ok(Record { plan, entry, spans })
    }

    /// Where the entry is of a live run that is learned from, the summary is of its plain run then,
    /// which is run here; else it stays as it is.
    fn look_again(&mut self, alloc: Global, entry: &Entry)
        requires none { self.old.going ≡ None }
        requires run { IsSome (run_at self.old.plan entry.now.run) }
        ensures learned { is_live entry.now.mode ≡ false → self.new.summary ≡ self.old.summary }
        ensures observed { is_live entry.now.mode ≡ true → is_observed entry.now ≡ true → StandsFor self.new.summary (observed_of self.old.plan (run_at self.old.plan entry.now.run)) }
        ensures unseen { is_observed entry.now ≡ false → self.new.summary ≡ self.old.summary }
        ensures none { self.new.going ≡ None }
        ensures plan { self.new.plan ≡ self.old.plan }
    {
        if let Mode::Learn = entry.mode {
            return;
        }
        if !is_observed(entry) {
            return;
        }
        self.flight.look(alloc, &mut self.summary, entry.run);
    }

    /// A learn run of the arena's plan from its start to its end: `start`, `step` until it has
    /// ended, and `finish`. Where memory is refused the arena can run again.
    pub fn learn(
        &mut self,
        alloc: Global,
        plan: &Plan,
        run: u32,
        worker: u32,
    ) -> Result<Record, NoMemory>
        requires plan { plan.now ≡ self.old.plan }
        requires learns { IsLearnRun plan.now run }
        requires worker { worker < plan.now.workers }
        ensures record_plan { IfOk result (λ r. r.plan ≡ plan.now) }
        ensures entry { IfOk result (λ r. entry_by plan.now run worker ≡ Some r.entry) }
        ensures none { IfOk result (λ r. r.adopted ≡ []) }
        ensures turns { IfOk result (λ r. r.entry.turns ≤ plan.now.budget) }
        ensures seen { OnOk result (StandsFor self.new.summary (observations (learn_steps plan.now run))) }
        ensures left { OnOk result (self.new.going ≡ None) }
        ensures plan { self.new.plan ≡ self.old.plan }
    {
        flown_is_of();
        flown_is_plain();
        self.start(alloc, plan, run, worker)?;
        let mut over = false;
        while !over {
            let _turns = self.turns();
            over = self.step()?;
        }
        self.finish(alloc)
    }

    /// A live run of the arena's plan from its start to its end: `start`; then, before each turn that
    /// is a block entry, the watcher is told of it, and the adopter's version is adopted; `step` until
    /// it has ended; and `finish`. A table is asked for only where the version is another than the
    /// last one. Where memory is refused the arena can run again.
    ///
    /// Where no repair fired, the entry says what the run without patches does. The arena's summary
    /// is of that run where it is learned from, and of nothing where it is not.
    pub fn live<A: Adopter, W: Watcher>(
        &mut self,
        alloc: Global,
        plan: &Plan,
        run: u32,
        worker: u32,
        adopter: &mut A,
        watcher: &mut W,
    ) -> Result<Record, NoMemory>
        requires plan { plan.now ≡ self.old.plan }
        requires lives { IsLiveRun plan.now run }
        requires worker { worker < plan.now.workers }
        ensures record_plan { IfOk result (λ r. r.plan ≡ plan.now) }
        ensures run { IfOk result (λ r. r.entry.run ≡ run) }
        ensures by { IfOk result (λ r. r.entry.worker ≡ worker) }
        ensures live { IfOk result (λ r. r.entry.mode ≡ mode.Live) }
        ensures tables { IfOk result (λ r. HaveTables (A.tables adopter.new) r.adopted) }
        ensures honest { IfOk result (λ r. IsHonest plan.now (A.tables adopter.new) r.entry) }
        ensures answers { IfOk result (λ r. (before : List ℕ) → A.Answers adopter.old before → A.Answers adopter.new (before ++ written r.entry.adopted)) }
        ensures rises { IfOk result (λ r. NeverFalls r.entry.adopted) }
        ensures unfired { IfOk result (λ r. r.entry.fired ≡ [] → SaysPlain plan.now r.entry) }
        ensures turns { IfOk result (λ r. r.entry.turns ≤ plan.now.budget) }
        ensures observed { IfOk result (λ r. is_observed r.entry ≡ true → StandsFor self.new.summary (observed_of plan.now (run_at plan.now r.entry.run))) }
        ensures unseen { IfOk result (λ r. is_observed r.entry ≡ false → StandsFor self.new.summary []) }
        ensures grown { IsGrown (A.tables adopter.old) (A.tables adopter.new) }
        ensures origin { A.origin adopter.new ≡ A.origin adopter.old }
        ensures left { OnOk result (self.new.going ≡ None) }
        ensures plan { self.new.plan ≡ self.old.plan }
    {
        self.start(alloc, plan, run, worker)?;
        let mut over = false;
        while !over {
            self.enter(alloc, adopter, watcher)?;
            over = self.go()?;
        }
        let record = self.finish(alloc)?;
        flown_is_of();
        unfired_is_plain();
        let _honest = record.entry();
        Ok(record)
    }

    /// Turns of the run that is going on, one at the least and none behind the next block entry:
    /// whether the run has ended with the last.
    fn go(&mut self) -> Result<bool, NoMemory>
        requires started { IsSome self.old.going }
        requires goes_on { has_ended self.old ≡ false }
        requires entered { wants_entry self.old ≡ false }
        ensures more { OnOk result (turns_in self.old.going < turns_in self.new.going) }
        ensures turned { OnOk result (self.new.going ≡ with_turns (turns_in self.new.going) self.old.going) }
        ensures ended { IfOk result (λ over. over ≡ has_ended self.new) }
        ensures plan { self.new.plan ≡ self.old.plan }
    {
        if self.pass() {
            return Ok(false);
        }
        self.step()
    }

    /// Plain turns of a live run, where no patch stands and the budget allows more: whether there
    /// were any.
    fn pass(&mut self) -> bool
        requires started { IsSome self.old.going }
        requires goes_on { has_ended self.old ≡ false }
        requires entered { wants_entry self.old ≡ false }
        ensures more { result ≡ true → turns_in self.old.going < turns_in self.new.going }
        ensures turned { result ≡ true → self.new.going ≡ with_turns (turns_in self.new.going) self.old.going }
        ensures goes_on { has_ended self.new ≡ false }
        ensures same { result ≡ false → self.new ≡ self.old }
        ensures plan { self.new.plan ≡ self.old.plan }
    {
        self.flight.pass()
    }

    /// Before a turn of a live run. Where it is a block entry, the watcher is told of it, and the
    /// adopter's version is adopted.
    fn enter<A: Adopter, W: Watcher>(
        &mut self,
        alloc: Global,
        adopter: &mut A,
        watcher: &mut W,
    ) -> Result<(), NoMemory>
        requires started { IsSome self.old.going }
        requires goes_on { has_ended self.old ≡ false }
        requires tables { HaveTables (A.tables adopter.old) (adopted_in self.old.going) }
        requires answered { AllByRecursion (λ (s : Span). A.HasAnswered adopter.old s.version) (adopted_in self.old.going) }
        ensures below { turns_in self.old.going < self.old.plan.budget }
        ensures going { OnOk result (self.new.going ≡ with_adopted (adopted_in self.new.going) self.old.going) }
        ensures goes_on { OnOk result (has_ended self.new ≡ false) }
        ensures entered { OnOk result (wants_entry self.new ≡ false) }
        ensures rises { OnOk result (NeverFalls (rows_of (adopted_in self.old.going)) → NeverFalls (rows_of (adopted_in self.new.going))) }
        ensures tables { OnOk result (HaveTables (A.tables adopter.new) (adopted_in self.new.going)) }
        ensures answered { OnOk result (AllByRecursion (λ (s : Span). A.HasAnswered adopter.new s.version) (adopted_in self.new.going)) }
        ensures answers { OnOk result ((before : List ℕ) → A.Answers adopter.old (before ++ written (rows_of (adopted_in self.old.going))) → A.Answers adopter.new (before ++ written (rows_of (adopted_in self.new.going)))) }
        ensures grown { IsGrown (A.tables adopter.old) (A.tables adopter.new) }
        ensures origin { A.origin adopter.new ≡ A.origin adopter.old }
        ensures plan { self.new.plan ≡ self.old.plan }
    {
        let turn = self.turns();
        if !self.wants_entry() {
            return Ok(());
        }
        watcher.entry(turn);
        let version = adopter.enter();
        if self.again(version) {
            return Ok(());
        }
        let table = self.table_of(alloc, adopter, version)?;
        self.adopt(version, table)
    }

    /// The block entry that is wanted adopts the version that the run adopted last, where it is this
    /// one: whether it was. It takes no memory.
    fn again(&mut self, version: u32) -> bool
        requires wanted { wants_entry self.old ≡ true }
        ensures going { result ≡ true → self.new.going ≡ entered version (last_table (adopted_in self.old.going)) self.old.going }
        ensures known { result ≡ true → is_of_version version (last_span (adopted_in self.old.going)) ≡ true }
        ensures goes_on { result ≡ true → has_ended self.new ≡ false }
        ensures entered { result ≡ true → wants_entry self.new ≡ false }
        ensures same { result ≡ false → self.new ≡ self.old }
        ensures plan { self.new.plan ≡ self.old.plan }
    {
        self.flight.again(version)
    }

    /// The table of a version that the adopter has answered, which is asked only where the run has not
    /// adopted it last.
    fn table_of<A: Adopter>(
        &self,
        alloc: Global,
        adopter: &mut A,
        version: u32,
    ) -> Result<Arc<PatchTable, Global>, NoMemory>
        requires { A.HasAnswered adopter.old version }
        ensures may { IfOk result (λ t. IsNotBelow version (last_span (adopted_in self.now.going)) → MayAdopt version t.value (adopted_in self.now.going)) }
        ensures table { IfOk result (λ t. HaveTables (A.tables adopter.old) (adopted_in self.now.going) → slice_get (A.tables adopter.new) version ≡ Some t.value) }
        ensures answers { (before : List ℕ) → A.Answers adopter.old before → A.Answers adopter.new before }
        ensures kept { (version : ℕ) → A.HasAnswered adopter.old version → A.HasAnswered adopter.new version }
        ensures grown { IsGrown (A.tables adopter.old) (A.tables adopter.new) }
        ensures origin { A.origin adopter.new ≡ A.origin adopter.old }
    {
        match self.last_table(version)? {
            Some(table) => Ok(table),
            None => adopter.table(alloc, version),
        }
    }

    /// The table of a version, where it is the one that the run adopted last.
    fn last_table(&self, version: u32) -> Result<Option<Arc<PatchTable, Global>>, NoMemory>
        ensures { IfOk result (λ found. option_map (λ t. t.value) found ≡ table_if version (last_span (adopted_in self.now.going))) }
    {
        self.flight.last_table(version)
    }

    /// The turns so far of the run that is going on.
    fn turns(&self) -> u32
        ensures value { result ≡ turns_in self.now.going }
        ensures below { has_ended self.now ≡ false → IsSome self.now.going → result < self.now.plan.budget }
    {
        self.flight.turns()
    }

    /// What was seen before the turns of the learn run that is going on, and nothing while a live run
    /// is. After `finish` what was seen in the run that was finished: in a live run that is not learned
    /// from nothing.
    pub fn summary(&self) -> &Summary
        ensures value { result.now ≡ self.now.summary }
        ensures text { result.now.text ≡ text_only self.now.plan.image }
        ensures so_far { IsSome self.now.going → StandsFor result.now (seen_so_far self.now.plan self.now.going) }
    {
        let _flight = &self.flight;
        &self.summary
    }
}

/// Sees what stands before the next turn, where a learn run is going on.
fn see_before(flight: &InFlight, summary: &mut Summary)
    requires started { IsSome flight.now.going }
    requires goes_on { is_over flight.now.plan flight.now.going ≡ false }
    requires text { summary.old.text ≡ text_only flight.now.plan.image }
    requires seen { StandsFor summary.old (seen_so_far flight.now.plan flight.now.going) }
    ensures seen { StandsFor summary.new (seen_in (option_map (turned flight.now.plan) (flight_in flight.now.plan flight.now.going))) }
    ensures text { summary.new.text ≡ summary.old.text }
{
    if flight.learns() {
        see(summary, flight.machine().core()).unwrap();
    }
}
