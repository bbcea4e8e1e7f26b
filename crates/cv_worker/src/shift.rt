//! What a run of an office goes through: it is run in an arena, and posted.
ghost use Rattle.std.specs.Prelude.{◌≡◌, [], true, None, Some, IfOk, OnOk};
ghost use Rattle.cv_blocks.specs.TextMap.{text_only};
ghost use Rattle.cv_desk.specs.Passes.{HasPosted, HasTicket, IsOutcome, kept_of};
ghost use Rattle.cv_exec.specs.LearnRun.{IsLearnRun};
ghost use Rattle.cv_exec.specs.LiveRun.{IsLiveRun};
ghost use Rattle.cv_histories.specs.Honest.{IsHonest};
ghost use Rattle.cv_histories.specs.Runs.{run_at};
ghost use Rattle.cv_histories.specs.Seen.{is_observed, observed_of};
ghost use Rattle.cv_observe.specs.StandsFor.{StandsFor};
ghost use Rattle.cv_worker.specs.Instances.{HasPostedRun, IsSame};
ghost use Rattle.cv_worker.specs.Running.{MayRun};

use crate::watching::GateWatcher;
use cv_base::{Mode, NoMemory, Plan};
use cv_desk::{Office, Pass, Seated, Ticket, Unposted};
use cv_edge::{Gate, Moment};
use cv_exec::{Arena, Record, mode_of};
use cv_laws::numbers_are_of_round;
use cv_observe::Summary;
use cv_office::Named;
use std::alloc::Global;
use std::sync::Wait;

/// What the instances of a round share.
#[derive(Drop)]
pub(crate) struct Shift<'a, N: Named, R: Wait, G: Gate> {
    pub(crate) rt: &'a R,
    pub(crate) alloc: Global,
    pub(crate) plan: &'a Plan,
    pub(crate) round: u32,
    pub(crate) office: &'a Office<N>,
    pub(crate) gate: &'a G,
}

/// A pass, with the record of the run that it drew.
#[derive(Drop)]
struct Ran<N: Named> {
    pass: Pass<N>,
    outcome: Result<Record, NoMemory>,
}

/// A pass, with whether the run that it drew was posted.
#[derive(Drop)]
pub(crate) struct Taken<N: Named> {
    pub(crate) pass: Pass<N>,
    pub(crate) posted: Result<(), NoMemory>,
}

impl<'a, N: Named, R: Wait, G: Gate> Shift<'a, N, R, G> {
    /// A worker passes the gate.
    pub(crate) fn pass_gate(&self, worker: u32, moment: Moment) {
        self.gate.pass(self.rt, worker, self.round, moment);
    }

    /// Runs the run of a ticket, and posts it. Where memory is refused the ticket is forfeited.
    pub(crate) fn take(&self, arena: &mut Arena, pass: Pass<N>, ticket: Ticket) -> Taken<N>
        requires arena { arena.old.plan ≡ self.now.plan.now }
        requires ticket { MayRun self.now.plan.now self.now.round pass ticket }
        ensures posted { OnOk result.posted (HasPostedRun self.now.plan.now self.now.round ticket pass result.pass) }
        ensures same { IsSame pass result.pass }
        ensures plan { arena.new.plan ≡ arena.old.plan }
    {
        let Ran { mut pass, outcome } = self.run(arena, pass, &ticket);
        let posted = match outcome {
            Ok(record) => self.post(&mut pass, ticket, record, arena.summary()),
            Err(refusal) => {
                ticket.forfeit();
                Err(refusal)
            }
        };
        Taken { pass, posted }
    }

    /// Runs the run of a ticket. Where it is learned from, the arena's summary is of it.
    fn run(&self, arena: &mut Arena, pass: Pass<N>, ticket: &Ticket) -> Ran<N>
        requires arena { arena.old.plan ≡ self.now.plan.now }
        requires ticket { MayRun self.now.plan.now self.now.round pass ticket.now }
        ensures kept { kept_of result.pass ≡ kept_of pass }
        ensures outcome { IfOk result.outcome (λ r. IsOutcome result.pass ticket.now r) }
        ensures of_plan { IfOk result.outcome (λ r. r.plan ≡ self.now.plan.now) }
        ensures seen { IfOk result.outcome (λ r. is_observed r.entry ≡ true → StandsFor arena.new.summary (observed_of self.now.plan.now (run_at self.now.plan.now r.entry.run))) }
        ensures plan { arena.new.plan ≡ arena.old.plan }
    {
        numbers_are_of_round();
        match mode_of(self.plan, ticket.run()) {
            Some(Mode::Learn) => self.learn(arena, pass, ticket),
            Some(Mode::Live) => self.live(arena, pass, ticket),
            None => unreachable!(),
        }
    }

    /// A learn run.
    fn learn(&self, arena: &mut Arena, pass: Pass<N>, ticket: &Ticket) -> Ran<N>
        requires arena { arena.old.plan ≡ self.now.plan.now }
        requires ticket { MayRun self.now.plan.now self.now.round pass ticket.now }
        requires learns { IsLearnRun self.now.plan.now ticket.now.run }
        ensures pass { result.pass ≡ pass }
        ensures outcome { IfOk result.outcome (λ r. IsOutcome pass ticket.now r) }
        ensures of_plan { IfOk result.outcome (λ r. r.plan ≡ self.now.plan.now) }
        ensures seen { IfOk result.outcome (λ r. StandsFor arena.new.summary (observed_of self.now.plan.now (run_at self.now.plan.now r.entry.run))) }
        ensures plan { arena.new.plan ≡ arena.old.plan }
    {
        let outcome = arena.learn(self.alloc, self.plan, ticket.run(), pass.worker());
        Ran { pass, outcome }
    }

    /// A live run under the versions that the pass loads. The gate is passed before each load.
    fn live(&self, arena: &mut Arena, pass: Pass<N>, ticket: &Ticket) -> Ran<N>
        requires arena { arena.old.plan ≡ self.now.plan.now }
        requires ticket { MayRun self.now.plan.now self.now.round pass ticket.now }
        requires lives { IsLiveRun self.now.plan.now ticket.now.run }
        ensures kept { kept_of result.pass ≡ kept_of pass }
        ensures outcome { IfOk result.outcome (λ r. IsOutcome result.pass ticket.now r) }
        ensures of_plan { IfOk result.outcome (λ r. r.plan ≡ self.now.plan.now) }
        ensures seen { IfOk result.outcome (λ r. is_observed r.entry ≡ true → StandsFor arena.new.summary (observed_of self.now.plan.now (run_at self.now.plan.now r.entry.run))) }
        ensures plan { arena.new.plan ≡ arena.old.plan }
    {
        let worker = pass.worker();
        let mut watcher = GateWatcher {
            rt: self.rt,
            gate: self.gate,
            worker,
            round: self.round,
        };
        let mut adopter = Seated::make(pass, self.office, self.rt);
        let outcome = arena.live(
            self.alloc,
            self.plan,
            ticket.run(),
            worker,
            &mut adopter,
            &mut watcher,
        );
        Ran {
            pass: adopter.into_pass(),
            outcome,
        }
    }

    /// Posts the record of a run. The gate is passed before and after it. Where memory is refused the
    /// ticket is forfeited.
    fn post(
        &self,
        pass: &mut Pass<N>,
        ticket: Ticket,
        outcome: Record,
        summary: &Summary,
    ) -> Result<(), NoMemory>
        requires ticket { HasTicket pass.old ticket }
        requires outcome { IsOutcome pass.old ticket outcome }
        requires text { summary.now.text ≡ text_only outcome.plan.image }
        requires seen { is_observed outcome.entry ≡ true → StandsFor summary.now (observed_of outcome.plan (run_at outcome.plan outcome.entry.run)) }
        ensures posted { OnOk result (HasPosted ticket.draw pass.old pass.new) }
        ensures honest { OnOk result (IsHonest outcome.plan pass.new.known.versions outcome.entry) }
        ensures same { IsSame pass.old pass.new }
    {
        let worker = pass.worker();
        self.pass_gate(worker, Moment::Post);
        let _honest = outcome.entry();
        match pass.post(self.rt, self.alloc, self.office, ticket, outcome, summary) {
            Ok(()) => {
                self.pass_gate(worker, Moment::Posted);
                Ok(())
            }
            Err(unposted) => {
                let Unposted { ticket, outcome: _ } = unposted;
                ticket.forfeit();
                Err(NoMemory)
            }
        }
    }
}
