//! Passes of an office, and the runs that they draw.
ghost use Rattle.std.specs.Prelude.{◌≡◌, ◌≤◌, ◌<◌, ◌+◌, [], true, Some, length, slice_get, IfErr, IfNone, IfOk, IfSome, OnErr, OnOk};
ghost use Rattle.cv_blocks.specs.TextMap.{text_only};
ghost use Rattle.cv_desk.specs.Openings.{SettingOf};
ghost use Rattle.cv_desk.specs.Passes.{HasGrown, HasPosted, HasTicket, IsOf, IsOfWorker, IsOutcome, IsPastRuns};
ghost use Rattle.cv_histories.specs.Runs.{run_at};
ghost use Rattle.cv_histories.specs.Seen.{is_observed, observed_of};
ghost use Rattle.cv_observe.specs.StandsFor.{StandsFor};
ghost use Rattle.cv_rule.specs.Steps.{drawn, entered};

use crate::desk::Unposted;
use crate::making::Making;
use crate::office::Office;
use cv_base::{NoMemory, PatchTable};
use cv_exec::Record;
use cv_observe::Summary;
use cv_office::{Named, Place, draw, enter};
use std::alloc::Global;
use std::marker::{Model, PhantomData};
use std::sync::{Arc, Wait};

/// A run of the round that was drawn, and has to be posted.
pub struct Ticket {
    draw: u64,
    run: u32,
}

impl Model for Ticket {
    ghost use Rattle.cv_desk.specs.Passes.{TicketOf};

    ghost Value = { TicketOf };

    ghost view = { λ t. record { draw = t.draw; run = t.run } };
}

impl Ticket {
    /// The number of the run in its plan.
    pub fn run(&self) -> u32
        ensures { result ≡ self.now.run }
    {
        self.run
    }

    /// Spends the ticket of a run that will not be posted: its pass can then draw no more, and its
    /// office can never be closed. It takes no memory.
    pub fn forfeit(self) {
        let Ticket { draw: _, run: _ } = self;
    }
}

/// A worker's seat of the office that `N` names. Contracts see its view.
#[derive(Drop)]
pub struct Pass<N: Named> {
    pub(crate) seat: Place<Making, PatchTable>,
    pub(crate) worker: u32,
    /// The number of the round's first run.
    pub(crate) first: u32,
    /// How many runs the round has.
    pub(crate) count: u32,
    pub(crate) of: PhantomData<N>,
}

impl<N: Named> Model for Pass<N> {
    ghost use Rattle.std.specs.Prelude.{◌≡◌, []};
    ghost use Rattle.cv_desk.specs.Passes.{IsSeated, Sight};

    ghost Value = { Sight };

    ghost view = { λ p. p.seat.me.0 };

    ghost invariant = { λ p. (p.seat.table_id ≡ N.table) × (p.seat.me.1 ≡ []) × IsSeated p.worker p.first p.count p.seat.me.0 };
}

impl<N: Named> Pass<N> {
    /// The worker of the plan whose pass it is.
    #[tactic(auto, using(crate::proofs::Keeping::within_plan))]
    pub fn worker(&self) -> u32
        ensures worker { IsOfWorker result self.now }
        ensures within { (s : SettingOf) → IsOf s self.now → result < s.plan.workers }
    {
        self.worker
    }

    /// Draws the next run of the round, by one add and without memory or waiting. None exactly where
    /// the round had no run left. It holds no ticket, has forfeited none, and has not met the end.
    pub fn draw(&mut self, office: &Office<N>) -> Option<Ticket>
        requires { self.old.hand ≡ [] }
        ensures drawn { IfSome result (λ t. (self.new ≡ drawn self.old t.draw) × HasTicket self.new t) }
        ensures none { IfNone result (IsPastRuns self.old self.new) }
    {
        let number = draw(&office.board, &mut self.seat);
        if u64::from(self.count) <= number {
            return None;
        }
        Some(Ticket {
            draw: number,
            run: self.first + number as u32,
        })
    }

    /// The newest version, by one load and without memory or waiting: never below the pass's last
    /// answer, nor below its floor, and at most 1,024.
    pub fn enter(&mut self, office: &Office<N>) -> u32
        ensures entered { self.new ≡ entered self.old result }
        ensures rises { (self.old.reach ≤ result) × (self.old.floor ≤ result) }
        ensures most { result ≤ 1024 }
    {
        enter(&office.board, &mut self.seat)
    }

    /// The book's table of a version that `enter` has answered; the pass's list then has it. It takes
    /// the lock, and may wait. Want of memory leaves what the pass has in hand, its loaded versions,
    /// floor and posts as they were.
    pub fn fetch<R: Wait>(
        &mut self,
        rt: &R,
        office: &Office<N>,
        version: u32,
    ) -> Result<Arc<PatchTable, Global>, NoMemory>
        requires { version ≤ self.old.reach }
        ensures grown { HasGrown self.old self.new }
        ensures known { version < length self.new.known.versions }
        ensures table { IfOk result (λ t. slice_get self.new.known.versions version ≡ Some t.value) }
    {
        office
            .desk
            .lock(rt)
            .fetch(&office.board, &mut self.seat, version)
    }

    /// Posts the record of a run to the office's book. It is of the office's plan, of the run whose
    /// ticket this pass has and of this pass's worker; its adopted versions, written out, are those that
    /// this pass loaded since its last post, and its tables those that the pass knows of them. `summary`
    /// is of the plan's text and, where the run is learned from, of that run. It takes the lock, and may
    /// wait.
    ///
    /// Where memory is refused the ticket and the record come back, and what the pass has in hand, its
    /// loaded versions, floor and posts are as they were: the same can be posted again.
    pub fn post<R: Wait>(
        &mut self,
        rt: &R,
        alloc: Global,
        office: &Office<N>,
        ticket: Ticket,
        outcome: Record,
        summary: &Summary,
    ) -> Result<(), Unposted>
        requires ticket { HasTicket self.old ticket }
        requires outcome { IsOutcome self.old ticket outcome }
        requires text { summary.now.text ≡ text_only outcome.plan.image }
        requires seen { is_observed outcome.entry ≡ true → StandsFor summary.now (observed_of outcome.plan (run_at outcome.plan outcome.entry.run)) }
        ensures posted { OnOk result (HasPosted ticket.draw self.old self.new) }
        ensures as_before { OnErr result (HasGrown self.old self.new) }
        ensures again { OnErr result (HasTicket self.new ticket × IsOutcome self.new ticket outcome) }
        ensures handed_back { IfErr result (λ unposted. (unposted.ticket ≡ ticket) × (unposted.outcome ≡ outcome)) }
    {
        office.desk.lock(rt).post(
            alloc,
            &office.board,
            &mut self.seat,
            ticket,
            outcome,
            summary,
        )
    }
}
