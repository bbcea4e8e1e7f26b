//! What lies in the lock: the book, with the master's seat.
ghost use Rattle.std.specs.Prelude.{◌≡◌, ◌≤◌, ◌<◌, None, true, Some, length, slice_get, IfErr, IfOk, OnErr, OnOk};
ghost use Rattle.cv_base.specs.PlanOf.{IsPlan};
ghost use Rattle.cv_blocks.specs.TextMap.{text_only};
ghost use Rattle.cv_desk.specs.Passes.{HasGrown, HasPosted, HasTicket, IsOutcome};
ghost use Rattle.cv_desk.specs.Standing.{AreAfter, IsNoted};
ghost use Rattle.cv_histories.specs.Legal.{IsLegal};
ghost use Rattle.cv_histories.specs.Runs.{run_at};
ghost use Rattle.cv_histories.specs.Seen.{is_observed, observed_of};
ghost use Rattle.cv_histories.specs.Versions.{newest};
ghost use Rattle.cv_manager.specs.ManagerOf.{ledger_in, with_entry};
ghost use Rattle.cv_observe.specs.StandsFor.{StandsFor};
ghost use Rattle.cv_office.specs.Told.{IsHolding, IsPass};

use crate::making::{Making, Setting};
use crate::pass::Ticket;
use cv_base::{NoMemory, PatchTable};
use cv_core::Book;
use cv_exec::Record;
use cv_laws::{
    floor_is_below, floor_stays, followed_has_room, numbers_are_of_round, numbers_rise,
    runs_are_counted,
};
use cv_observe::Summary;
use cv_office::{Board, Named, Place, announce, book, give_back, hear, send, tell};
use cv_rule::{Posted, booked_is_found, loaded_may_be_posted, longer_begins, post_settles};
use std::alloc::Global;
use std::marker::{Model, PhantomData};
use std::sync::Arc;

/// The book of a plan and the master's seat at the table that `N` names. The master's view knows the
/// book: the tables of its versions, and its entries behind those that were there at the making.
/// Contracts see the book.
#[derive(Drop)]
pub struct Desk<N: Named> {
    pub(crate) book: Book,
    pub(crate) seat: Place<Making, PatchTable>,
    pub(crate) of: PhantomData<N>,
}

impl<N: Named> Model for Desk<N> {
    ghost use Rattle.std.specs.Prelude.{◌≡◌, []};
    ghost use Rattle.cv_desk.specs.Standing.{IsDesk};
    ghost use Rattle.cv_manager.specs.ManagerOf.{ManagerOf};

    ghost Value = { ManagerOf };

    ghost view = { λ d. d.book };

    ghost invariant = { λ d. (d.seat.table_id ≡ N.table) × (d.seat.me.1 ≡ []) × IsDesk d.book d.seat.me.0 };
}

/// A record that was not posted for want of memory, with the ticket of its run.
pub struct Unposted {
    pub ticket: Ticket,
    pub outcome: Record,
}

impl<N: Named> Desk<N> {
    /// The book's table of a version that the pass has loaded. The pass then knows all that the book
    /// has; want of memory changes nothing of that.
    pub fn fetch(
        &mut self,
        board: &Board<Making, PatchTable, Setting>,
        pass: &mut Place<Making, PatchTable>,
        version: u32,
    ) -> Result<Arc<PatchTable, Global>, NoMemory>
        requires board { (board.now.shared.table_id.words ≡ 2) × (board.now.shared.table_id ≡ N.table) }
        requires at { pass.old.table_id ≡ N.table }
        requires pass { IsPass pass.old.me.0 × (pass.old.me.0.on_its_way ≡ None) }
        requires version { version ≤ pass.old.me.0.reach }
        ensures book { self.new ≡ self.old }
        ensures seat { (pass.new.table_id ≡ pass.old.table_id) × (pass.new.id ≡ pass.old.id) × (pass.new.me.1 ≡ pass.old.me.1) }
        ensures pass { IsPass pass.new.me.0 }
        ensures grown { HasGrown pass.old.me.0 pass.new.me.0 }
        ensures known { version < length pass.new.me.0.known.versions }
        ensures table { IfOk result (λ t. slice_get (ledger_in self.old).versions version ≡ Some t.value) }
        ensures found { IfOk result (λ t. slice_get pass.new.me.0.known.versions version ≡ Some t.value) }
    {
        hear(board, &mut self.seat, pass);
        let table = table_of(&self.book, version);
        tell(board, &mut self.seat, pass);
        table
    }

    /// Appends the entry of a record to the book: the record is of the run whose ticket the pass has,
    /// and adopted what the pass loaded for it. `summary` is of the plan's text and, where the run is
    /// learned from, of that run. Where memory is refused the ticket and the record come back, and the
    /// book and what the pass has in hand are as they were.
    pub fn post(
        &mut self,
        alloc: Global,
        board: &Board<Making, PatchTable, Setting>,
        pass: &mut Place<Making, PatchTable>,
        ticket: Ticket,
        outcome: Record,
        summary: &Summary,
    ) -> Result<(), Unposted>
        requires board { (board.now.shared.table_id.words ≡ 2) × (board.now.shared.table_id ≡ N.table) }
        requires at { pass.old.table_id ≡ N.table }
        requires pass { IsPass pass.old.me.0 × (pass.old.me.0.on_its_way ≡ None) }
        requires ticket { HasTicket pass.old.me.0 ticket }
        requires outcome { IsOutcome pass.old.me.0 ticket outcome }
        requires text { summary.now.text ≡ text_only outcome.plan.image }
        requires seen { is_observed outcome.entry ≡ true → StandsFor summary.now (observed_of outcome.plan (run_at outcome.plan outcome.entry.run)) }
        ensures posted { OnOk result (self.new ≡ with_entry self.old outcome.entry) }
        ensures refused { OnErr result (self.new ≡ self.old) }
        ensures handed_back { IfErr result (λ unposted. (unposted.ticket ≡ ticket) × (unposted.outcome ≡ outcome)) }
        ensures seat { (pass.new.table_id ≡ pass.old.table_id) × (pass.new.id ≡ pass.old.id) × (pass.new.me.1 ≡ pass.old.me.1) }
        ensures pass { IsPass pass.new.me.0 }
        ensures done { OnOk result (HasPosted ticket.draw pass.old.me.0 pass.new.me.0) }
        ensures newest { OnOk result (pass.new.me.0.floor ≡ newest self.new.plan self.new.past) }
        ensures as_before { OnErr result (HasGrown pass.old.me.0 pass.new.me.0) }
    {
        loaded_may_be_posted::<Making, PatchTable>();
        post_settles::<Making, PatchTable>();
        booked_is_found();
        longer_begins::<PatchTable>();
        longer_begins::<Posted>();
        numbers_are_of_round();
        numbers_rise();
        floor_is_below();
        floor_stays();
        followed_has_room();
        runs_are_counted();
        let _honest = outcome.entry();
        limits(&self.book);
        send(board, &mut self.seat, pass);
        match self.book.post(alloc, outcome, summary) {
            Ok(added) => {
                note(board, &mut self.seat, &self.book, added);
                tell(board, &mut self.seat, pass);
                ticket.forfeit();
                Ok(())
            }
            Err(unbooked) => {
                give_back(board, &mut self.seat, pass);
                Err(Unposted {
                    ticket,
                    outcome: unbooked.outcome,
                })
            }
        }
    }
}

/// The master's row goes to its book list, with the newest version of the book, of which the last
/// entry added this one, if any.
fn note(
    board: &Board<Making, PatchTable, Setting>,
    master: &mut Place<Making, PatchTable>,
    posted: &Book,
    added: Option<u32>,
)
    requires board { (board.now.shared.table_id.words ≡ 2) × (master.old.table_id ≡ board.now.shared.table_id) }
    requires holding { IsHolding master.old.me.0.hand master.old.me.0 }
    requires versions { AreAfter added master.old.me.0.known.versions (ledger_in posted.now).versions }
    ensures master { (master.new.table_id ≡ master.old.table_id) × (master.new.id ≡ master.old.id) × (master.new.me.1 ≡ master.old.me.1) }
    ensures noted { IsNoted (ledger_in posted.now).versions master.old.me.0 master.new.me.0 }
{
    match added {
        None => {
            book(board, master);
        }
        Some(version) => {
            announce(board, master, u64::from(version), table_at(posted, version));
        }
    }
}

/// What is known of a book: its plan's limits, and that its history is legal.
pub(crate) fn limits(book: &Book)
    ensures plan { IsPlan book.now.plan }
    ensures legal { IsLegal book.now.plan book.now.past }
{
    let _legal = book.manager();
    let _workers = book.plan().workers;
}

/// A book's table of a version.
fn table_at(book: &Book, version: u32) -> &PatchTable
    requires { version < length (ledger_in book.now).versions }
    ensures { slice_get (ledger_in book.now).versions version ≡ Some result.now }
{
    &book.manager().versions()[version as usize]
}

/// The same, to be kept.
fn table_of(book: &Book, version: u32) -> Result<Arc<PatchTable, Global>, NoMemory>
    requires { version < length (ledger_in book.now).versions }
    ensures { IfOk result (λ t. slice_get (ledger_in book.now).versions version ≡ Some t.value) }
{
    let table = Arc::try_clone(&book.manager().versions()[version as usize])?;
    Ok(table)
}
