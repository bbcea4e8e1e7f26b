//! An office: made of a book and a round, and closed to a book.
ghost use Rattle.std.specs.List.{range_with_len};
ghost use Rattle.std.specs.Prelude.{◌≡◌, ◌<◌, ◌≤◌, ◌+◌, [], length, IfErr, IfOk, OnOk};
ghost use Rattle.cv_desk.specs.Openings.{IsUpTo, SettingOf, opening_of};
ghost use Rattle.cv_desk.specs.Passes.{AreDone, AreNew, IsNew};
ghost use Rattle.cv_desk.specs.Standing.{IsClosed, IsSeating};
ghost use Rattle.cv_histories.specs.World.{numbers_of};
ghost use Rattle.cv_office.specs.Told.{IsAlone, IsMaster};

use crate::desk::{Desk, limits};
use crate::making::{Making, Setting};
use crate::pass::Pass;
use crate::rounds::{Numbers, numbers_of};
use cv_base::PatchTable;
use cv_core::Book;
use cv_laws::{legal_is_few, numbers_are_of_round, runs_are_counted, some_version};
use cv_office::{Board, Named, Place, close, end, open, seat};
use cv_rule::renewed_stays;
use std::alloc::{AllocError, Global};
use std::marker::{Model, PhantomData};
use std::sync::Mutex;

/// The table of one office, and what lies in its lock.
#[derive(Drop)]
pub struct Office<N: Named> {
    pub(crate) board: Board<Making, PatchTable, Setting>,
    pub(crate) desk: Mutex<Desk<N>>,
    pub(crate) of: PhantomData<N>,
    ghost named: { board.shared.table_id ≡ N.table },
    ghost two_words: { (board.shared.table_id.words ≡ 2) × (board.shared.table_id.slots ≡ 0) },
}

/// A book whose office was not made for want of memory.
#[derive(Drop)]
pub struct Unmade {
    pub book: Book,
}

/// A book and a round, with the table of the office that is to be made.
pub struct Draft {
    board: Board<Making, PatchTable, Setting>,
    seat: Place<Making, PatchTable>,
    setting: Setting,
}

impl Model for Draft {
    ghost use Rattle.std.specs.Prelude.{◌≡◌, []};
    ghost use Rattle.cv_desk.specs.Openings.{DraftOf, opening_of, versions_of, workers_of};
    ghost use Rattle.cv_rule.specs.Steps.{master_at_start};

    ghost Value = { DraftOf };

    ghost view = { λ d. record { table = d.board.shared.table_id; setting = d.setting } };

    ghost invariant = { λ d. (d.board.shared.table_id.words ≡ 2) × (d.board.shared.table_id.slots ≡ 0) × (d.seat.table_id ≡ d.board.shared.table_id) × (d.seat.me ≡ (master_at_start (opening_of d.setting) (versions_of d.setting) (workers_of d.setting), [])) };
}

impl Draft {
    /// The table for a round of a book's plan, where the book has the entries of all runs of the
    /// earlier rounds and no others. Where memory is refused the book comes back.
    pub fn make(alloc: Global, book: Book, round: u32) -> Result<Draft, Unmade>
        requires within { round < length book.plan.rounds }
        requires up_to { IsUpTo book.plan round book.past }
        ensures setting { IfOk result (λ d. d.setting ≡ record { plan = book.plan; past = book.past; round = round }) }
        ensures handed_back { IfErr result (λ unmade. unmade.book ≡ book) }
    {
        runs_are_counted();
        some_version();
        legal_is_few();
        limits(&book);
        let versions = u64::from(book.manager().version_count());
        let setting = Setting { book, round };
        match open(alloc, &setting, versions) {
            Ok((board, seat)) => Ok(Draft {
                board,
                seat,
                setting,
            }),
            Err(_) => {
                let Setting { book, .. } = setting;
                Err(Unmade { book })
            }
        }
    }
}

impl<N: Named> Office<N> {
    /// The office of a draft whose table is the one that `N` names, and one pass for each worker of the
    /// plan, in order. Where memory is refused the book comes back.
    pub fn make(alloc: Global, draft: Draft) -> Result<(Office<N>, Vec<Pass<N>>), Unmade>
        requires named { draft.table ≡ N.table }
        ensures passes { IfOk result (λ made. AreNew draft.setting 0 made.1.items × (length made.1.items ≡ draft.setting.plan.workers)) }
        ensures handed_back { IfErr result (λ unmade. (unmade.book.plan ≡ draft.setting.plan) × (unmade.book.past ≡ draft.setting.past)) }
    {
        let Draft {
            board,
            mut seat,
            setting,
        } = draft;
        let made = seats_for(alloc, &board, &mut seat, &setting);
        let Setting { book, .. } = setting;
        let Ok(passes) = made else {
            return Err(Unmade { book });
        };
        let desk = Mutex::new(Desk {
            book,
            seat,
            of: PhantomData,
        });
        Ok((
            Office {
                board,
                desk,
                of: PhantomData,
            },
            passes,
        ))
    }

    /// The book of an office whose passes are all here: each has posted what it drew, and one has met
    /// the end of the round. It has the entries of the round's runs behind those at the making, and no
    /// others. It takes no memory.
    pub fn close(self, passes: Vec<Pass<N>>) -> Book
        requires done { (s : SettingOf) × AreDone s passes.items }
        ensures { (s : SettingOf) → AreDone s passes.items → IsClosed s result }
    {
        let Office { board, desk, .. } = self;
        let Desk { book, mut seat, .. } = desk.into_inner();
        numbers_are_of_round();
        end_all(&board, &mut seat, passes);
        close(board, seat);
        book
    }
}

/// One pass for each worker of the plan, in order.
#[tactic(auto, using(crate::proofs::Seating::one_more_new))]
fn seats_for<N: Named>(
    alloc: Global,
    board: &Board<Making, PatchTable, Setting>,
    master: &mut Place<Making, PatchTable>,
    setting: &Setting,
) -> Result<Vec<Pass<N>>, AllocError>
    requires board { (board.now.shared.table_id.words ≡ 2) × (board.now.shared.table_id ≡ N.table) }
    requires at { master.old.table_id ≡ N.table }
    requires start { IsSeating setting.now 0 master.old.me.0 }
    ensures seat { (master.new.table_id ≡ master.old.table_id) × (master.new.me.1 ≡ master.old.me.1) }
    ensures seated { OnOk result (IsSeating setting.now setting.now.plan.workers master.new.me.0) }
    ensures passes { IfOk result (λ passes. AreNew setting.now 0 passes.items × (length passes.items ≡ setting.now.plan.workers)) }
{
    let plan = setting.book.plan();
    let numbers = numbers_of(plan, setting.round);
    let mut passes = Vec::new(alloc);
    for worker in 0..plan.workers {
        let pass = pass_for(board, master, setting, worker, &numbers);
        passes.push(pass)?;
    }
    Ok(passes)
}

/// The pass of the first worker that has none.
fn pass_for<N: Named>(
    board: &Board<Making, PatchTable, Setting>,
    master: &mut Place<Making, PatchTable>,
    setting: &Setting,
    worker: u32,
    numbers: &Numbers,
) -> Pass<N>
    requires board { (board.now.shared.table_id.words ≡ 2) × (board.now.shared.table_id ≡ N.table) }
    requires at { master.old.table_id ≡ N.table }
    requires first { IsSeating setting.now worker master.old.me.0 }
    requires within { worker < setting.now.plan.workers }
    requires numbers { (numbers_of setting.now.plan setting.now.round ≡ range_with_len numbers.now.first numbers.now.count) × (numbers.now.first + numbers.now.count ≤ 1024) }
    ensures seat { (master.new.table_id ≡ master.old.table_id) × (master.new.me.1 ≡ master.old.me.1) }
    ensures seated { IsSeating setting.now (worker + 1) master.new.me.0 }
    ensures pass { IsNew setting.now worker result }
{
    let place = seat(board, master);
    Pass {
        seat: place,
        worker,
        first: numbers.first,
        count: numbers.count,
        of: PhantomData,
    }
}

/// The master takes these passes.
fn end_all<N: Named>(
    board: &Board<Making, PatchTable, Setting>,
    master: &mut Place<Making, PatchTable>,
    passes: Vec<Pass<N>>,
)
    requires board { (board.now.shared.table_id.words ≡ 2) × (board.now.shared.table_id ≡ N.table) }
    requires at { master.old.table_id ≡ N.table }
    requires master { IsMaster master.old.me.0 × (master.old.me.0.absent ≡ []) }
    requires done { (s : SettingOf) × AreDone s passes.items }
    ensures seat { (master.new.table_id ≡ master.old.table_id) × (master.new.me.1 ≡ master.old.me.1) }
    ensures known { master.new.me.0.known ≡ master.old.me.0.known }
    ensures alone { (s : SettingOf) → AreDone s passes.items → IsAlone (opening_of s) master.new.me.0 }
{
    renewed_stays::<Making, PatchTable>();
    for pass in passes {
        end(board, master, pass.seat);
    }
}
