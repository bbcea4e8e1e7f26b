ghost use Rattle.std.specs.Prelude.{◌≡◌, ◌<◌, ◌≤◌, ℕ, Some, Ok, length, map, IfOk, OnErr};
ghost use Rattle.std.specs.List.{range_with_len};
ghost use Rattle.cv_histories.specs.Honest.{IsHonest};
ghost use Rattle.cv_histories.specs.Legal.{NeverFalls};
ghost use Rattle.cv_machine.specs.Held.{state_of};
ghost use Rattle.cv_replay.specs.ReplayOf.{byte, register, said, since};
ghost use Rattle.cv_replay.specs.Said.{state_before};

use crate::bytes::byte_changed;
use crate::copies::Copies;
use crate::script::Script;
use crate::stand::Stand;
use crate::walk::Walk;
use cv_base::{Entry, NoMemory, PatchTable, Plan};
use cv_machine::Machine;
use std::alloc::Global;
use std::marker::Model;
use std::sync::Arc;

/// Where a seek has come to.
#[derive(Clone, Copy, Debug, PartialEq, Eq)]
pub enum Sought {
    /// The replay stands at the turn.
    There,
    /// The run has no such turn. The replay stands where it stood.
    Past,
}

/// A run that has an entry, stood before one of its turns. It keeps at most 16 copies of the run in
/// flight, evenly spaced, of at most 224 MiB in all, so that a seek goes on from the nearest. It
/// notes on its way since when each register has its value.
///
/// Contracts see the plan, the tables of the versions, the entry, and the turn.
#[derive(Drop)]
pub struct Replay {
    script: Script,
    here: Walk,
    copies: Copies,
}

impl Model for Replay {
    ghost use Rattle.cv_replay.specs.ReplayOf.{ReplayOf};

    ghost Value = { ReplayOf };

    ghost use Rattle.cv_replay.specs.Standing.{IsReplay, replay_of};

    ghost view = { λ r. replay_of r.script r.here };

    ghost invariant = { λ r. IsReplay r.script r.here r.copies };
}

impl Replay {
    /// A replay of the run of an entry, before its first turn. The tables are those of the versions
    /// that there are, and the entry is honest under them.
    pub fn make(
        alloc: Global,
        plan: &Plan,
        entry: &Entry,
        tables: Vec<Arc<PatchTable, Global>>,
    ) -> Result<Replay, NoMemory>
        requires honest { IsHonest plan.now (map (λ t. t.value) tables.items) entry.now }
        requires rises { NeverFalls entry.now.adopted }
        requires worker { entry.now.worker < plan.now.workers }
        ensures { IfOk result (λ r. r ≡ record { plan = plan.now; versions = map (λ t. t.value) tables.items; entry = entry.now; turn = 0 }) }
    {
        let script = Script::make(alloc, plan, entry, tables)?;
        let here = Walk::make(Stand::make(alloc, plan, &script, entry.worker)?);
        let first = here.copied(alloc)?;
        let copies = Copies::make(alloc, &plan.image, script.turns(), first);
        Ok(Replay {
            script,
            here,
            copies,
        })
    }

    /// The turn before which it stands.
    pub fn turn(&self) -> u32
        ensures { result ≡ self.now.turn }
    {
        self.here.turn()
    }

    /// Stands before a turn. `Past` comes exactly where the run has no such turn.
    pub fn seek(&mut self, alloc: Global, turn: u32) -> Result<Sought, NoMemory>
        ensures there { result ≡ Ok Sought.There → (turn < length (said self.old)) × (self.new ≡ record self.old { turn = turn }) }
        ensures past { result ≡ Ok Sought.Past → (length (said self.old) ≤ turn) × (self.new ≡ self.old) }
        ensures err { OnErr result (self.new ≡ self.old) }
    {
        if turn >= self.script.turns() {
            return Ok(Sought::Past);
        }
        let walk = self.copies.travel(alloc, &self.script, &self.here, turn)?;
        self.here = walk;
        Ok(Sought::There)
    }

    /// The machine before the turn.
    pub fn machine(&self) -> &Machine
        ensures { state_before (said self.now) self.now.turn ≡ Some (state_of result.now) }
    {
        self.here.stand.machine(&self.script)
    }

    /// The greatest turn below the present one before which the register has another value than
    /// before the next; none where it has one value before all of them.
    pub fn reg_changed(&self, reg: u8) -> Option<u32>
        requires { reg < 32 }
        ensures { result ≡ since (register reg) self.now }
    {
        self.here.changes.turn(reg)
    }

    /// The same of each register, x0 first.
    pub fn regs_changed(&self) -> [Option<u32>; 32]
        ensures { result ≡ map (λ (n : ℕ). since (register n) self.now) (range_with_len 0 32) }
    {
        self.here.changes.turns()
    }

    /// The same of the byte at an address.
    pub fn byte_changed(&mut self, alloc: Global, addr: u32) -> Result<Option<u32>, NoMemory>
        ensures since { IfOk result (λ turn. turn ≡ since (byte addr) self.old) }
        ensures same { self.new ≡ self.old }
    {
        byte_changed(alloc, &self.script, &self.here, &self.copies, addr)
    }
}
