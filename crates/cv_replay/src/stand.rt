ghost use Rattle.std.specs.Prelude.{◌≡◌, ◌<◌, ◌+◌, Some, IfOk, IsSome, OnOk};
ghost use Rattle.cv_histories.specs.Runs.{run_at};
ghost use Rattle.cv_machine.specs.Held.{state_of};
ghost use Rattle.cv_replay.specs.Said.{state_before};
ghost use Rattle.cv_replay.specs.Script.{IsScript, steps_by_script};
ghost use Rattle.cv_replay.specs.Standing.{IsAt, IsNear, turn_of};

use crate::cursor::Cursor;
use crate::script::Script;
use cv_base::{NoMemory, Plan};
use cv_exec::InFlight;
use cv_machine::Machine;
use std::alloc::Global;

/// The run in flight before one of its turns, with the place in the rows of its entry.
#[derive(Drop)]
pub(crate) struct Stand {
    pub(crate) flight: InFlight,
    pub(crate) cursor: Cursor,
}

impl Stand {
    /// Before the first turn of a script's run, for a worker of the plan.
    pub(crate) fn make(
        alloc: Global,
        plan: &Plan,
        script: &Script,
        worker: u32,
    ) -> Result<Stand, NoMemory>
        requires script { IsScript plan.now script.now }
        requires worker { worker < plan.now.workers }
        ensures at { IfOk result (λ s. IsAt script.now s) }
        ensures plan { IfOk result (λ s. s.flight.plan ≡ plan.now) }
        ensures turn { IfOk result (λ s. turn_of s ≡ 0) }
    {
        let mut flight = InFlight::make(alloc, plan)?;
        flight.start(alloc, plan, script.run(), worker);
        let mut stand = Stand {
            flight,
            cursor: Cursor { row: 0, used: 0 },
        };
        stand.enter(script)?;
        Ok(stand)
    }

    /// An equal one.
    pub(crate) fn copied(&self, alloc: Global) -> Result<Stand, NoMemory>
        ensures { IfOk result (λ s. s ≡ self.now) }
    {
        Ok(Stand {
            flight: self.flight.copied(alloc)?,
            cursor: self.cursor,
        })
    }

    /// The turn before which it stands.
    pub(crate) fn turn(&self) -> u32
        ensures { result ≡ turn_of self.now }
    {
        self.flight.turns()
    }

    /// The machine before the turn.
    pub(crate) fn machine(&self, script: &Script) -> &Machine
        requires script { IsScript self.now.flight.plan script.now }
        requires at { IsAt script.now self.now }
        ensures { state_before (steps_by_script self.now.flight.plan script.now) (turn_of self.now) ≡ Some (state_of result.now) }
    {
        self.flight.machine()
    }

    /// One turn further, where the run has that turn. After want of memory it stands nowhere.
    pub(crate) fn forward(&mut self, script: &Script) -> Result<(), NoMemory>
        requires script { IsScript self.old.flight.plan script.now }
        requires at { IsAt script.now self.old }
        requires more { turn_of self.old + 1 < script.now.entry.turns }
        ensures at { OnOk result (IsAt script.now self.new) }
        ensures turn { OnOk result (turn_of self.new ≡ turn_of self.old + 1) }
        ensures plan { self.new.flight.plan ≡ self.old.flight.plan }
    {
        self.flight.step();
        self.enter(script)
    }

    /// The block entry before the turn, if it is one.
    fn enter(&mut self, script: &Script) -> Result<(), NoMemory>
        requires script { IsScript self.old.flight.plan script.now }
        requires near { IsNear script.now self.old }
        ensures at { OnOk result (IsAt script.now self.new) }
        ensures turn { OnOk result (turn_of self.new ≡ turn_of self.old) }
        ensures plan { self.new.flight.plan ≡ self.old.flight.plan }
    {
        if !self.flight.wants_entry() {
            return Ok(());
        }
        let rows = script.rows();
        let version = self.cursor.version(rows);
        let table = script.table(version)?;
        self.flight.adopt(version, table)?;
        self.cursor = self.cursor.next(rows);
        Ok(())
    }
}
