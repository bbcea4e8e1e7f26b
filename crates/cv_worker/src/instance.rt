//! An instance: an arena with a pass, which takes the runs of a round one after another.
ghost use Rattle.std.specs.Prelude.{◌≡◌, false, true, None, Some, IfOk, IsSome};
ghost use Rattle.cv_desk.specs.Openings.{SettingOf};
ghost use Rattle.cv_desk.specs.Passes.{IsPastRuns};
ghost use Rattle.cv_worker.specs.Instances.{AreSeated, HasMetEnd, HasTaken, IsOfSetting, IsReady, IsSame};

use crate::shift::Shift;
use cv_base::{NoMemory, Plan};
use cv_desk::{Office, Pass};
use cv_edge::{Gate, Moment};
use cv_exec::Arena;
use cv_office::Named;
use std::alloc::Global;
use std::marker::Model;
use std::mem;
use std::sync::Wait;

/// Where one worker takes runs: an arena of a plan, and the worker's pass of an office, or none.
/// Contracts see the plan and the pass.
#[derive(Drop)]
pub struct Instance<N: Named> {
    arena: Arena,
    pass: Option<Pass<N>>,
    /// Whether memory was refused in the last round.
    refused: bool,
}

impl<N: Named> Model for Instance<N> {
    ghost use Rattle.cv_worker.specs.Instances.{InstanceOf};

    ghost Value = { InstanceOf };

    ghost view = { λ i. record { plan = i.arena.plan; pass = i.pass; refused = i.refused } };
}

impl<N: Named> Instance<N> {
    /// An instance for the runs of a plan, with no pass.
    pub fn make(alloc: Global, plan: &Plan) -> Result<Instance<N>, NoMemory>
        ensures plan { IfOk result (λ i. i.plan ≡ plan.now) }
        ensures pass { IfOk result (λ i. i.pass ≡ None) }
    {
        let arena = Arena::make(alloc, plan)?;
        Ok(Instance {
            arena,
            pass: None,
            refused: false,
        })
    }

    /// Seats a pass, and hands back the one that was there.
    pub fn seat(&mut self, pass: Pass<N>) -> Option<Pass<N>>
        ensures seated { self.new ≡ record self.old { pass = Some pass } }
        ensures result { result ≡ self.old.pass }
    {
        mem::replace(&mut self.pass, Some(pass))
    }

    /// Takes the pass out; None exactly where there was none.
    pub fn unseat(&mut self) -> Option<Pass<N>>
        ensures seated { self.new ≡ record self.old { pass = None } }
        ensures result { result ≡ self.old.pass }
    {
        self.pass.take()
    }

    /// The pass that is seated, if any. The arena is dropped.
    pub(crate) fn into_pass(self) -> Option<Pass<N>>
        ensures { result ≡ self.pass }
    {
        let Instance { pass, .. } = self;
        pass
    }

    /// Whether memory was refused in the last round that it took part in.
    pub(crate) fn refused(&self) -> bool
        ensures { result ≡ self.now.refused }
    {
        self.refused
    }

    /// Draws a run of the office's round, runs it and posts it: true. False exactly where the round had
    /// no run left. It passes the gate before the draw, before each load of a live run's version,
    /// before the post and after it.
    ///
    /// After true it can take the next run. After false its pass has nothing to post, and after a
    /// refusal of memory the ticket is forfeited: then only `unseat` may follow.
    pub fn run_next<R: Wait, G: Gate>(
        &mut self,
        rt: &R,
        alloc: Global,
        plan: &Plan,
        round: u32,
        office: &Office<N>,
        gate: &G,
    ) -> Result<bool, NoMemory>
        requires ready { IsReady plan.now round self.old }
        ensures taken { IfOk result (λ more. more ≡ true → HasTaken plan.now round self.old self.new) }
        ensures ended { IfOk result (λ more. more ≡ false → AreSeated IsPastRuns self.old.pass self.new.pass) }
        ensures plan { self.new.plan ≡ self.old.plan }
        ensures same { AreSeated IsSame self.old.pass self.new.pass }
    {
        let shift = Shift {
            rt,
            alloc,
            plan,
            round,
            office,
            gate,
        };
        let Some(mut pass) = self.pass.take() else {
            unreachable!()
        };
        shift.pass_gate(pass.worker(), Moment::Begin);
        let Some(ticket) = pass.draw(office) else {
            self.pass = Some(pass);
            return Ok(false);
        };
        let taken = shift.take(&mut self.arena, pass, ticket);
        self.pass = Some(taken.pass);
        taken.posted?;
        Ok(true)
    }

    /// Takes runs until the round has none left, or memory is refused.
    #[tactic(auto, using(crate::proofs::Ending::seated_same, crate::proofs::Ending::same_then, crate::proofs::Ending::met_end))]
    pub(crate) fn run_all<R: Wait, G: Gate>(
        &mut self,
        rt: &R,
        alloc: Global,
        plan: &Plan,
        round: u32,
        office: &Office<N>,
        gate: &G,
    )
        requires ready { IsReady plan.now round self.old }
        ensures end { self.new.refused ≡ false → (s : SettingOf) → IsOfSetting s self.old → HasMetEnd s self.new }
        ensures seated { IsSome self.new.pass }
    {
        self.refused = false;
        for _ in rt.forever() {
            match self.run_next(rt, alloc, plan, round, office, gate) {
                Ok(true) => {}
                Ok(false) => return,
                Err(_) => {
                    self.refused = true;
                    return;
                }
            }
        }
    }
}
