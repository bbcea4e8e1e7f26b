//! What a pass of an office does: it draws runs, has them run, and posts their records.
ghost use Rattle.std.specs.Prelude.{◌≡◌, true};
ghost use Rattle.cv_desk.specs.Openings.{SettingOf};
ghost use Rattle.cv_exec.specs.LearnRun.{IsLearnRun};
ghost use Rattle.cv_exec.specs.LiveRun.{IsLiveRun};
ghost use Rattle.cv_office_examples.specs.Taking.{CanDraw, HasMetEnd, IsReady, IsSameOffice, MayPost, MayRun};

use cv_base::{Mode, Plan};
use cv_desk::{Office, Pass, Seated, Ticket, Unposted};
use cv_exec::{Arena, Record, mode_of};
use cv_office::Named;
use cv_patch::Watcher;
use std::alloc::Global;
use std::process::Abort;
use std::sync::Wait;

/// Nobody is told of block entries.
#[derive(Drop)]
struct Unwatched;

impl Watcher for Unwatched {
    fn entry(&mut self, _turn: u32) {}
}

/// What the steps of a round share.
#[derive(Drop)]
pub(crate) struct Scene<'a, N: Named, R: Abort + Wait> {
    pub(crate) rt: &'a R,
    pub(crate) alloc: Global,
    pub(crate) plan: &'a Plan,
    pub(crate) office: &'a Office<N>,
}

/// A pass, with the record of the run that it drew.
#[derive(Drop)]
pub(crate) struct Ran<N: Named> {
    pub(crate) pass: Pass<N>,
    pub(crate) outcome: Record,
}

impl<'a, N: Named, R: Abort + Wait> Scene<'a, N, R> {
    /// Draws a run, which is left.
    pub(crate) fn draw(&self, pass: &mut Pass<N>) -> Ticket
        requires ready { IsReady self.now.plan.now pass.old }
        ensures may { MayRun self.now.plan.now pass.new result }
        ensures office { IsSameOffice pass.old pass.new }
    {
        match pass.draw(self.office) {
            Some(ticket) => ticket,
            None => self.rt.panic("a run is left"),
        }
    }

    /// Whether a draw finds no run left.
    pub(crate) fn meets_end(&self, pass: &mut Pass<N>) -> bool
        requires { IsReady self.now.plan.now pass.old }
        ensures { result ≡ true → (s : SettingOf) → CanDraw s pass.old → HasMetEnd s pass.new }
    {
        match pass.draw(self.office) {
            None => true,
            Some(ticket) => {
                ticket.forfeit();
                false
            }
        }
    }

    /// Runs the run of a ticket whole.
    pub(crate) fn run(&self, arena: &mut Arena, pass: Pass<N>, ticket: &Ticket) -> Ran<N>
        requires arena { arena.old.plan ≡ self.now.plan.now }
        requires ticket { MayRun self.now.plan.now pass ticket.now }
        ensures may { MayPost result.pass ticket.now result.outcome arena.new }
        ensures office { IsSameOffice pass result.pass }
        ensures plan { arena.new.plan ≡ arena.old.plan }
    {
        match mode_of(self.plan, ticket.run()) {
            Some(Mode::Learn) => self.learn(arena, pass, ticket),
            Some(Mode::Live) => self.live(arena, pass, ticket),
            None => self.rt.panic("the run is the plan's"),
        }
    }

    /// A learn run.
    fn learn(&self, arena: &mut Arena, pass: Pass<N>, ticket: &Ticket) -> Ran<N>
        requires arena { arena.old.plan ≡ self.now.plan.now }
        requires ticket { MayRun self.now.plan.now pass ticket.now }
        requires learns { IsLearnRun self.now.plan.now ticket.now.run }
        ensures may { MayPost result.pass ticket.now result.outcome arena.new }
        ensures office { IsSameOffice pass result.pass }
        ensures plan { arena.new.plan ≡ arena.old.plan }
    {
        match arena.learn(self.alloc, self.plan, ticket.run(), pass.worker()) {
            Ok(outcome) => Ran { pass, outcome },
            Err(_) => self.rt.panic("the run is run"),
        }
    }

    /// A live run under the versions that the pass loads.
    fn live(&self, arena: &mut Arena, pass: Pass<N>, ticket: &Ticket) -> Ran<N>
        requires arena { arena.old.plan ≡ self.now.plan.now }
        requires ticket { MayRun self.now.plan.now pass ticket.now }
        requires lives { IsLiveRun self.now.plan.now ticket.now.run }
        ensures may { MayPost result.pass ticket.now result.outcome arena.new }
        ensures office { IsSameOffice pass result.pass }
        ensures plan { arena.new.plan ≡ arena.old.plan }
    {
        let worker = pass.worker();
        let mut adopter = Seated::make(pass, self.office, self.rt);
        let outcome = arena.live(
            self.alloc,
            self.plan,
            ticket.run(),
            worker,
            &mut adopter,
            &mut Unwatched,
        );
        let pass = adopter.into_pass();
        match outcome {
            Ok(outcome) => Ran { pass, outcome },
            Err(_) => self.rt.panic("the run is run"),
        }
    }

    /// Posts the record of a run; where memory is refused, what comes back is posted once more.
    pub(crate) fn post(&self, pass: &mut Pass<N>, ticket: Ticket, outcome: Record, arena: &Arena)
        requires arena { arena.now.plan ≡ self.now.plan.now }
        requires may { MayPost pass.old ticket outcome arena.now }
        ensures ready { IsReady self.now.plan.now pass.new }
        ensures office { IsSameOffice pass.old pass.new }
    {
        let summary = arena.summary();
        match pass.post(self.rt, self.alloc, self.office, ticket, outcome, summary) {
            Ok(()) => {}
            Err(unposted) => {
                let Unposted { ticket, outcome } = unposted;
                self.post_again(pass, ticket, outcome, arena);
            }
        }
    }

    /// Posts a record that came back.
    fn post_again(&self, pass: &mut Pass<N>, ticket: Ticket, outcome: Record, arena: &Arena)
        requires arena { arena.now.plan ≡ self.now.plan.now }
        requires may { MayPost pass.old ticket outcome arena.now }
        ensures ready { IsReady self.now.plan.now pass.new }
        ensures office { IsSameOffice pass.old pass.new }
    {
        let summary = arena.summary();
        match pass.post(self.rt, self.alloc, self.office, ticket, outcome, summary) {
            Ok(()) => {}
            Err(unposted) => {
                let Unposted { ticket, outcome: _ } = unposted;
                ticket.forfeit();
                self.rt.panic("memory is refused once")
            }
        }
    }

    /// Draws a run, which is left, runs it and posts its record.
    pub(crate) fn take(&self, arena: &mut Arena, pass: Pass<N>) -> Pass<N>
        requires arena { arena.old.plan ≡ self.now.plan.now }
        requires ready { IsReady self.now.plan.now pass }
        ensures ready { IsReady self.now.plan.now result }
        ensures office { IsSameOffice pass result }
        ensures plan { arena.new.plan ≡ arena.old.plan }
    {
        let mut pass = pass;
        let ticket = self.draw(&mut pass);
        let Ran { mut pass, outcome } = self.run(arena, pass, &ticket);
        self.post(&mut pass, ticket, outcome, arena);
        pass
    }
}
