ghost use Rattle.std.specs.Prelude.{◌≡◌, ◌≤◌, ◌<◌, [], Some, None, false, true, option_map, IfOk, IsSome, OnErr, OnOk};
ghost use Rattle.cv_base.specs.Picture.{is_point};
ghost use Rattle.cv_blocks.specs.TextMap.{text_only};
ghost use Rattle.cv_exec.specs.ArenaOf.{adopted_in, entered, entry_of_going, flight_in, is_over, learns, one_more, seen_so_far, turns_in, wants};
ghost use Rattle.cv_exec.specs.Keeping.{is_of_version, last_span, last_table, range_of, table_if};
ghost use Rattle.cv_exec.specs.LiveRun.{MayAdopt, rows_of};
ghost use Rattle.cv_exec.specs.Passing.{with_turns};
ghost use Rattle.cv_exec.specs.RecordOf.{IsHonestUnder};
ghost use Rattle.cv_histories.specs.Flight as flight;
ghost use Rattle.cv_histories.specs.Flight.{Flight, begun, turned};
ghost use Rattle.cv_histories.specs.Legal.{NeverFalls};
ghost use Rattle.cv_histories.specs.Runs.{Run, run_at};
ghost use Rattle.cv_histories.specs.Seen.{is_live, observed_of};
ghost use Rattle.cv_machine.specs.Held.{state_of};
ghost use Rattle.cv_observe.specs.StandsFor.{StandsFor};

use crate::SharedPlan;
use crate::ending::{entry_of, spans_in, told};
use crate::flying::{Flying, flying_for};
use crate::look::look;
use crate::patched::Span;
use crate::plans::{budget_of, input_of, mode_of};
use crate::turns::turn;
use cv_base::{Entry, NoMemory, PatchTable, Plan, TextRange};
use cv_blocks::TextMap;
use cv_laws::{flown_is_honest, flown_is_plain, rows_are_joined};
use cv_machine::Machine;
use cv_observe::Summary;
use std::alloc::Global;
use std::marker::Model;
use std::mem;
use std::sync::Arc;

/// A run of a plan in flight, turn by turn, without what is seen of it. Contracts see the plan and
/// the run that is going on with its turns so far and what it adopted.
#[derive(Drop)]
pub struct InFlight {
    plan: SharedPlan,
    machine: Machine,
    text: TextRange,
    flying: Flying,
}

impl Model for InFlight {
    ghost use Rattle.cv_exec.specs.ArenaOf.{InFlightOf};

    ghost Value = { InFlightOf };

    ghost use Rattle.cv_exec.specs.InFlightStands.{IsInFlight, going_of};

    ghost view = { λ f. record { plan = f.plan; going = going_of f.flying } };

    ghost invariant = { λ f. IsInFlight f.plan f.machine f.text f.flying };
}

impl InFlight {
    /// Where runs of a plan, of which it keeps a copy, can fly one after another; no run is going on.
    pub fn make(alloc: Global, plan: &Plan) -> Result<InFlight, NoMemory>
        ensures plan { IfOk result (λ f. f.plan ≡ plan.now) }
        ensures going { IfOk result (λ f. f.going ≡ None) }
    {
        let map = TextMap::make(alloc, &plan.image)?;
        InFlight::with_text(alloc, plan, map.range())
    }

    /// The same, where it is known where the text lies.
    pub(crate) fn with_text(
        alloc: Global,
        plan: &Plan,
        text: TextRange,
    ) -> Result<InFlight, NoMemory>
        requires { text ≡ range_of plan.now.image }
        ensures plan { IfOk result (λ f. f.plan ≡ plan.now) }
        ensures going { IfOk result (λ f. f.going ≡ None) }
    {
        let machine = Machine::make(alloc, &plan.image)?;
        let plan = SharedPlan::make(alloc, plan)?;
        Ok(InFlight {
            plan,
            machine,
            text,
            flying: Flying::Nothing,
        })
    }

    /// The same run in flight once more, which goes on by itself. It takes the memory of a machine.
    #[tactic(auto, using(crate::proofs::Copied::in_flight_copied, crate::proofs::Copied::going_copied))]
    pub fn copied(&self, alloc: Global) -> Result<InFlight, NoMemory>
        ensures { IfOk result (λ f. f ≡ self.now) }
    {
        let plan = self.plan.shared()?;
        let machine = self.machine.copied(alloc)?;
        let flying = self.flying.copied()?;
        Ok(InFlight {
            plan,
            machine,
            text: self.text,
            flying,
        })
    }

    /// Starts a run of the plan, by its number, for a worker of the plan. A run that was going on is
    /// given up. It takes no memory.
    pub fn start(&mut self, alloc: Global, plan: &Plan, run: u32, worker: u32)
        requires plan { plan.now ≡ self.old.plan }
        requires run { IsSome (run_at plan.now run) }
        requires worker { worker < plan.now.workers }
        ensures going { self.new.going ≡ Some (record { run = run; worker = worker; turns = 0; adopted = [] }) }
        ensures flight { flight_in self.new.plan self.new.going ≡ option_map (λ (r : Run). begun self.old.plan run r) (run_at self.old.plan run) }
        ensures begins { is_over self.new.plan self.new.going ≡ false }
        ensures plan { self.new.plan ≡ self.old.plan }
    {
        let _budget = budget_of(plan);
        let input = input_of(plan, run);
        self.machine.begin(alloc, input).unwrap();
        self.flying = flying_for(alloc, mode_of(plan, run), self.text, run, worker);
    }

    /// Whether a run was started that has ended, by an end or by the budget.
    pub fn ended(&self) -> bool
        ensures { result ≡ is_over self.now.plan self.now.going }
    {
        self.flying.ended()
    }

    /// Whether a live run is going on whose next turn is a block entry, for which no version was
    /// adopted yet.
    pub fn wants_entry(&self) -> bool
        ensures { result ≡ wants self.now.plan self.now.going }
    {
        self.flying.wants_entry()
    }

    /// Whether a learn run is going on.
    pub fn learns(&self) -> bool
        ensures { result ≡ learns self.now.plan self.now.going }
    {
        self.flying.learns()
    }

    /// The turns so far of the run that is going on.
    pub fn turns(&self) -> u32
        ensures value { result ≡ turns_in self.now.going }
        ensures below { is_over self.now.plan self.now.going ≡ false → IsSome self.now.going → result < self.now.plan.budget }
    {
        self.flying.turns()
    }

    /// The machine, before the next turn of a run that goes on.
    pub fn machine(&self) -> &Machine
        ensures state { is_over self.now.plan self.now.going ≡ false → IsSome self.now.going → option_map (λ (f : Flight). f.state) (flight_in self.now.plan self.now.going) ≡ Some (state_of result.now) }
        ensures image { result.now.image ≡ self.now.plan.image }
        ensures point { is_point result.now.image result.now.core.pc ≡ true }
    {
        let _flying = &self.flying;
        &self.machine
    }

    /// The block entry that is wanted adopts a version, with its table: a version not below the last
    /// one of this run and, where it is that one, its table. Where memory is refused all stays as it
    /// was.
    pub fn adopt(&mut self, version: u32, table: Arc<PatchTable, Global>) -> Result<(), NoMemory>
        requires wanted { wants self.old.plan self.old.going ≡ true }
        requires may { MayAdopt version table.value (adopted_in self.old.going) }
        ensures going { OnOk result (self.new.going ≡ entered version table.value self.old.going) }
        ensures flight { OnOk result (flight_in self.new.plan self.new.going ≡ option_map (flight.entered version table.value) (flight_in self.old.plan self.old.going)) }
        ensures goes_on { OnOk result (is_over self.new.plan self.new.going ≡ false) }
        ensures entered { OnOk result (wants self.new.plan self.new.going ≡ false) }
        ensures plan { self.new.plan ≡ self.old.plan }
        ensures err { OnErr result (self.new ≡ self.old) }
    {
        let _budget = budget_of(self.plan.get());
        match &mut self.flying {
            Flying::Living(_, patched) => patched.adopt(version, table),
            Flying::Nothing | Flying::Learning(_) => unreachable!(),
        }
    }

    /// The block entry that is wanted adopts the version that the run adopted last, where it is this
    /// one: whether it was. It takes no memory.
    pub(crate) fn again(&mut self, version: u32) -> bool
        requires wanted { wants self.old.plan self.old.going ≡ true }
        ensures going { result ≡ true → self.new.going ≡ entered version (last_table (adopted_in self.old.going)) self.old.going }
        ensures known { result ≡ true → is_of_version version (last_span (adopted_in self.old.going)) ≡ true }
        ensures goes_on { result ≡ true → is_over self.new.plan self.new.going ≡ false }
        ensures entered { result ≡ true → wants self.new.plan self.new.going ≡ false }
        ensures seen { seen_so_far self.new.plan self.new.going ≡ seen_so_far self.old.plan self.old.going }
        ensures same { result ≡ false → self.new ≡ self.old }
        ensures plan { self.new.plan ≡ self.old.plan }
    {
        let _budget = budget_of(self.plan.get());
        match &mut self.flying {
            Flying::Living(_, patched) => patched.again(version),
            Flying::Nothing | Flying::Learning(_) => unreachable!(),
        }
    }

    /// The table of a version, where it is the one that the run adopted last.
    pub(crate) fn last_table(
        &self,
        version: u32,
    ) -> Result<Option<Arc<PatchTable, Global>>, NoMemory>
        ensures { IfOk result (λ found. option_map (λ t. t.value) found ≡ table_if version (last_span (adopted_in self.now.going))) }
    {
        match &self.flying {
            Flying::Living(_, patched) => patched.last_table(version),
            Flying::Nothing | Flying::Learning(_) => Ok(None),
        }
    }

    /// One turn of the run that is going on: whether the run has ended with it. A learn run's turn is
    /// plain, and a live run's is patched with the table that was adopted last. It takes no memory.
    pub fn step(&mut self) -> bool
        requires started { IsSome self.old.going }
        requires goes_on { is_over self.old.plan self.old.going ≡ false }
        requires entered { wants self.old.plan self.old.going ≡ false }
        ensures turned { self.new.going ≡ one_more self.old.going }
        ensures flight { flight_in self.new.plan self.new.going ≡ option_map (turned self.old.plan) (flight_in self.old.plan self.old.going) }
        ensures ended { result ≡ is_over self.new.plan self.new.going }
        ensures plan { self.new.plan ≡ self.old.plan }
    {
        let budget = budget_of(self.plan.get());
        match &mut self.flying {
            Flying::Nothing => unreachable!(),
            Flying::Learning(started) => {
                let end = turn(&mut self.machine, budget - started.turns);
                started.took(end)
            }
            Flying::Living(started, patched) => {
                let end = patched.turn(&mut self.machine, budget - started.turns);
                started.took(end)
            }
        }
    }

    /// Plain turns of a live run, where no patch stands and the budget allows more: whether there
    /// were any.
    pub(crate) fn pass(&mut self) -> bool
        requires started { IsSome self.old.going }
        requires goes_on { is_over self.old.plan self.old.going ≡ false }
        requires entered { wants self.old.plan self.old.going ≡ false }
        ensures more { result ≡ true → turns_in self.old.going < turns_in self.new.going }
        ensures turned { result ≡ true → self.new.going ≡ with_turns (turns_in self.new.going) self.old.going }
        ensures goes_on { is_over self.new.plan self.new.going ≡ false }
        ensures seen { seen_so_far self.new.plan self.new.going ≡ seen_so_far self.old.plan self.old.going }
        ensures same { result ≡ false → self.new ≡ self.old }
        ensures plan { self.new.plan ≡ self.old.plan }
    {
        let budget = budget_of(self.plan.get());
        match &mut self.flying {
            Flying::Nothing | Flying::Learning(_) => false,
            Flying::Living(started, patched) => {
                let most = patched.free(self.machine.core().pc, budget - 1 - started.turns);
                let stretch = self.machine.stretch(most);
                if stretch.turns == 0 {
                    return false;
                }
                patched.pass(stretch);
                started.turns += stretch.turns;
                true
            }
        }
    }

    /// The entry of a run that has ended.
    pub(crate) fn entry(&self, alloc: Global) -> Result<Entry, NoMemory>
        requires { is_over self.now.plan self.now.going ≡ true }
        ensures entry { IfOk result (λ e. entry_of_going self.now.plan self.now.going ≡ Some e) }
        ensures honest { IfOk result (λ e. IsHonestUnder self.now.plan (adopted_in self.now.going) e) }
        ensures rows { IfOk result (λ e. rows_of (adopted_in self.now.going) ≡ e.adopted) }
        ensures going { IfOk result (λ e. self.now.going ≡ Some (record { run = e.run; worker = e.worker; turns = e.turns; adopted = adopted_in self.now.going })) }
        ensures rises { IfOk result (λ e. NeverFalls e.adopted) }
        ensures learned { IfOk result (λ e. is_live e.mode ≡ false → seen_so_far self.now.plan self.now.going ≡ observed_of self.now.plan (run_at self.now.plan e.run)) }
        ensures unseen { IfOk result (λ e. is_live e.mode ≡ true → seen_so_far self.now.plan self.now.going ≡ []) }
        ensures turns { IfOk result (λ e. e.turns ≤ self.now.plan.budget) }
        ensures worker { IfOk result (λ e. e.worker < self.now.plan.workers) }
        ensures run { IfOk result (λ e. IsSome (run_at self.now.plan e.run)) }
    {
        flown_is_honest();
        flown_is_plain();
        rows_are_joined();
        let Some((started, end)) = self.flying.ending() else {
            unreachable!()
        };
        let told = told(alloc, &self.flying)?;
        entry_of(alloc, started, end, &self.machine, told)
    }

    /// The plan, shared once more.
    pub(crate) fn shared(&self) -> Result<SharedPlan, NoMemory>
        ensures { IfOk result (λ s. s ≡ self.now.plan) }
    {
        self.plan.shared()
    }

    /// Gives up the run that was going on: what it has adopted. It takes no memory.
    pub(crate) fn land(&mut self, alloc: Global) -> Vec<Span>
        ensures adopted { result.items ≡ adopted_in self.old.going }
        ensures none { self.new.going ≡ None }
        ensures plan { self.new.plan ≡ self.old.plan }
    {
        let flying = mem::replace(&mut self.flying, Flying::Nothing);
        spans_in(alloc, flying)
    }

    /// Where no run is going on, a run of the plan without patches, seen in a summary of the plan's
    /// text that forgets all else. It takes no memory.
    pub(crate) fn look(&mut self, alloc: Global, summary: &mut Summary, run: u32)
        requires none { self.old.going ≡ None }
        requires run { IsSome (run_at self.old.plan run) }
        requires text { summary.old.text ≡ text_only self.old.plan.image }
        ensures seen { StandsFor summary.new (observed_of self.old.plan (run_at self.old.plan run)) }
        ensures text { summary.new.text ≡ summary.old.text }
        ensures same { self.new ≡ self.old }
    {
        let plan = self.plan.get();
        let input = input_of(plan, run);
        let budget = budget_of(plan);
        look(alloc, &mut self.machine, summary, input, budget);
    }
}
