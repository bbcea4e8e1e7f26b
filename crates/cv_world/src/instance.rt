ghost use Rattle.std.specs.Prelude.{◌≡◌, ◌<◌, [], false, true, Some, None, is_some, option_map, IfOk, IfSome, OnErr, OnOk, IsSome};
ghost use Rattle.cv_exec.specs.ArenaOf.{adopted_in, entered, entry_of_going, flight_in, is_over, one_more, wants};
ghost use Rattle.cv_exec.specs.LiveRun.{MayAdopt};
ghost use Rattle.cv_histories.specs.Flight as flight;
ghost use Rattle.cv_histories.specs.Flight.{begun, turned};
ghost use Rattle.cv_histories.specs.Legal.{MayFollow};
ghost use Rattle.cv_histories.specs.Runs.{Run, run_at};
ghost use Rattle.cv_manager.specs.ManagerOf.{with_entry};
ghost use Rattle.cv_world.specs.InstanceOf.{IsFinished, IsKept, going_in, going_of, may_turn_in};

use cv_base::{NoMemory, PatchTable, Plan};
use cv_core::Book;
use cv_exec::{Arena, Record};
use std::alloc::Global;
use std::marker::Model;
use std::sync::Arc;

/// An instance: the arena in which it runs, and the record of its run where a post of it was refused
/// memory.
#[derive(Drop)]
pub(crate) struct Instance {
    arena: Arena,
    /// Whether it has a run.
    flying: bool,
    /// The record of that run, once a post of it was refused memory.
    kept: Option<Record>,
}

impl Model for Instance {
    ghost use Rattle.std.specs.Prelude.{◌≡◌, IfSome, is_some};
    ghost use Rattle.cv_world.specs.InstanceOf.{InstanceOf, IsHeld, going_in};

    ghost Value = { InstanceOf };

    ghost view = { λ i. record { plan = i.arena.plan; going = going_in i.kept i.arena.going } };

    ghost invariant = { λ i. IsHeld i.arena i.flying i.kept };
}

impl Instance {
    /// An instance without a run.
    pub(crate) fn make(alloc: Global, plan: &Plan) -> Result<Instance, NoMemory>
        ensures { IfOk result (λ i. i ≡ record { plan = plan.now; going = None }) }
    {
        let arena = Arena::make(alloc, plan)?;
        Ok(Instance {
            arena,
            flying: false,
            kept: None,
        })
    }

    /// Whether it has a run.
    pub(crate) fn has_run(&self) -> bool
        ensures { result ≡ is_some self.now.going }
    {
        self.flying
    }

    /// Whether it has a run that has ended.
    pub(crate) fn ended(&self) -> bool
        ensures { result ≡ is_over self.now.plan self.now.going }
    {
        self.kept.is_some() || self.arena.ended()
    }

    /// Whether it has a live run that stands before a block entry and has not entered.
    pub(crate) fn wants_entry(&self) -> bool
        ensures { result ≡ wants self.now.plan self.now.going }
    {
        self.kept.is_none() && self.arena.wants_entry()
    }

    /// Whether it has a run that has not ended and wants no version before its next turn.
    pub(crate) fn may_turn(&self) -> bool
        ensures { result ≡ may_turn_in self.now.plan self.now.going }
    {
        self.flying && !self.ended() && !self.wants_entry()
    }

    /// Begins a run of its plan, as a worker of the plan.
    pub(crate) fn begin(
        &mut self,
        alloc: Global,
        plan: &Plan,
        run: u32,
        worker: u32,
    ) -> Result<(), NoMemory>
        requires plan { plan.now ≡ self.old.plan }
        requires none { self.old.going ≡ None }
        requires run { IsSome (run_at plan.now run) }
        requires worker { worker < plan.now.workers }
        ensures begun { OnOk result (self.new ≡ record self.old { going = Some (record { run = run; worker = worker; turns = 0; adopted = [] }) }) }
        ensures flight { OnOk result (flight_in self.new.plan self.new.going ≡ option_map (λ (r : Run). begun self.old.plan run r) (run_at self.old.plan run)) }
        ensures err { OnErr result (self.new ≡ self.old) }
    {
        self.arena.start(alloc, plan, run, worker)?;
        self.flying = true;
        Ok(())
    }

    /// Its run enters a block under a version, with its table.
    pub(crate) fn adopt(
        &mut self,
        version: u32,
        table: Arc<PatchTable, Global>,
    ) -> Result<(), NoMemory>
        requires wanted { wants self.old.plan self.old.going ≡ true }
        requires may { MayAdopt version table.value (adopted_in self.old.going) }
        ensures entered { OnOk result (self.new ≡ record self.old { going = entered version table.value self.old.going }) }
        ensures flight { OnOk result (flight_in self.new.plan self.new.going ≡ option_map (flight.entered version table.value) (flight_in self.old.plan self.old.going)) }
        ensures err { OnErr result (self.new ≡ self.old) }
    {
        self.arena.adopt(version, table)
    }

    /// One turn of its run.
    pub(crate) fn turn(&mut self) -> Result<(), NoMemory>
        requires started { IsSome self.old.going }
        requires goes_on { is_over self.old.plan self.old.going ≡ false }
        requires entered { wants self.old.plan self.old.going ≡ false }
        ensures turned { OnOk result (self.new ≡ record self.old { going = one_more self.old.going }) }
        ensures flight { OnOk result (flight_in self.new.plan self.new.going ≡ option_map (turned self.old.plan) (flight_in self.old.plan self.old.going)) }
        ensures err { OnErr result (self.new ≡ self.old) }
    {
        self.arena.step()?;
        Ok(())
    }

    /// Posts the entry of its run, which has ended, to a book of its plan whose history the entry may
    /// follow. Where memory is refused it keeps the run.
    pub(crate) fn post(&mut self, alloc: Global, book: &mut Book) -> Result<(), NoMemory>
        requires plan { book.old.plan ≡ self.old.plan }
        requires over { is_over self.old.plan self.old.going ≡ true }
        requires follows { IfSome (entry_of_going self.old.plan self.old.going) (MayFollow book.old.plan book.old.past) }
        ensures posted { OnOk result (IfSome (entry_of_going self.old.plan self.old.going) (λ e. book.new ≡ with_entry book.old e)) }
        ensures left { OnOk result (self.new ≡ record self.old { going = None }) }
        ensures err { OnErr result (self.new ≡ self.old) }
        ensures kept { OnErr result (book.new ≡ book.old) }
    {
        let outcome = taken(alloc, &mut self.arena, &mut self.kept)?;
        match book.post(alloc, outcome, self.arena.summary()) {
            Ok(_) => {
                self.flying = false;
                Ok(())
            }
            Err(unbooked) => {
                self.kept = Some(unbooked.outcome);
                Err(NoMemory)
            }
        }
    }
}

/// The record of a run that has ended: the one that was kept of it, or that of the arena's run. Both
/// are without it then, and where memory is refused they are as they were.
fn taken(alloc: Global, arena: &mut Arena, kept: &mut Option<Record>) -> Result<Record, NoMemory>
    requires keeps { IsKept arena.old kept.old }
    requires over { is_over arena.old.plan (going_in kept.old arena.old.going) ≡ true }
    ensures run { IfOk result (λ r. going_in kept.old arena.old.going ≡ Some (going_of r)) }
    ensures finished { IfOk result (λ r. IsFinished arena.new.plan arena.new.summary r) }
    ensures left { OnOk result (arena.new.going ≡ None) }
    ensures taken { OnOk result (kept.new ≡ None) }
    ensures plan { arena.new.plan ≡ arena.old.plan }
    ensures err { OnErr result (arena.new ≡ arena.old) }
    ensures still { OnErr result (kept.new ≡ kept.old) }
{
    match kept.take() {
        Some(outcome) => Ok(outcome),
        None => arena.finish(alloc),
    }
}
