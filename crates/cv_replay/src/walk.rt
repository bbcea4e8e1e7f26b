ghost use Rattle.std.specs.Prelude.{◌≡◌, ◌<◌, ◌+◌, List, IfOk, OnOk};
ghost use Rattle.cv_replay.specs.Changed.{AreSince};
ghost use Rattle.cv_replay.specs.Script.{IsScript};
ghost use Rattle.cv_replay.specs.Standing.{IsWalk, plan_of, turn_of};
ghost use Rattle.cv_runs.specs.PlainRun.{Step};

use crate::changes::Changes;
use crate::script::Script;
use crate::stand::Stand;
use cv_base::NoMemory;
use std::alloc::Global;

/// A stand that has come from the first turn, with since when each register has its value.
#[derive(Drop)]
pub(crate) struct Walk {
    pub(crate) stand: Stand,
    pub(crate) changes: Changes,
}

impl Walk {
    /// Of a stand before the first turn.
    pub(crate) fn make(stand: Stand) -> Walk
        ensures stand { result.stand ≡ stand }
        ensures since { (steps : List Step) → AreSince steps 0 result.changes.cells }
    {
        Walk {
            stand,
            changes: Changes::none(),
        }
    }

    /// An equal one.
    pub(crate) fn copied(&self, alloc: Global) -> Result<Walk, NoMemory>
        ensures { IfOk result (λ w. w ≡ self.now) }
    {
        Ok(Walk {
            stand: self.stand.copied(alloc)?,
            changes: self.changes,
        })
    }

    /// The turn before which it stands.
    pub(crate) fn turn(&self) -> u32
        ensures { result ≡ turn_of self.now.stand }
    {
        self.stand.turn()
    }

    /// One turn further, where the run has that turn. After want of memory it stands nowhere.
    pub(crate) fn forward(&mut self, script: &Script) -> Result<(), NoMemory>
        requires script { IsScript (plan_of self.old) script.now }
        requires at { IsWalk script.now self.old }
        requires more { turn_of self.old.stand + 1 < script.now.entry.turns }
        ensures at { OnOk result (IsWalk script.now self.new) }
        ensures turn { OnOk result (turn_of self.new.stand ≡ turn_of self.old.stand + 1) }
        ensures plan { plan_of self.new ≡ plan_of self.old }
    {
        let before = self.stand.machine(script).core().regs;
        self.stand.forward(script)?;
        let after = self.stand.machine(script).core().regs;
        self.changes.note(&before, &after, self.stand.turn());
        Ok(())
    }
}
