//! Rounds behind those that are done, each kept before the next begins.
ghost use Rattle.std.specs.Prelude.{◌≡◌, ◌<◌, ◌≤◌, length, IfOk, IsErrOf, OnOk};
ghost use Rattle.cv_base.specs.PlanOf.{IsPlan};
ghost use Rattle.cv_desk.specs.Openings.{IsUpTo};
ghost use Rattle.cv_edge.specs.Edge.{HasCause};
ghost use Rattle.cv_histories.specs.Legal.{IsLegal};
ghost use Rattle.cv_keep.specs.Keeping.{IsSettled};
ghost use Rattle.cv_resume.specs.Resumed.{IsPieceOf, IsResumed, LeavesRounds};

use crate::counting::rounds_of;
use crate::writing::lines_from;
use cv_base::{Items, NoMemory, Plan};
use cv_core::Book;
use cv_edge::{Disk, Gate};
use cv_keep::{Keep, KeepEnd, KeepFail};
use cv_laws::{legal_is_few, runs_are_counted};
use cv_worker::one_round;
use std::alloc::Global;
use std::sync::Wait;
use std::thread::Threads;

/// What going on has come to.
#[derive(Drop)]
pub enum Resumed {
    /// The book of all runs of the plan. Each round is kept.
    Done(Book),
    /// The entry lines of this round, the last one in the book, are longer than 268,435,456 bytes.
    /// It is not kept; the rounds before it are.
    TooLong { book: Book, round: u32 },
}

/// Runs the rounds of a book's plan from this one on, where the book has the entries of all runs of
/// the earlier rounds and no others, and keeps the entry lines of each as one piece before the next
/// round begins (docs/FORMATS.md, "Kept rounds").
///
/// A crash at any moment of the call, whatever it answers, leaves the pieces from before it and
/// those of the first of its rounds, all of one legal history. The disk has to be as the last
/// `recover` or `keep` left it, which was Ok; after a failure it has to be recovered again, and the
/// book is gone.
pub fn resume<R: Threads + Wait + Sync, G: Gate, D: Disk>(
    rt: &R,
    alloc: Global,
    mut book: Book,
    round: u32,
    keep: &mut Keep,
    disk: &mut D,
    gate: &G,
) -> Result<Resumed, KeepFail>
    requires within { round ≤ length book.plan.rounds }
    requires up_to { IsUpTo book.plan round book.past }
    requires settled { IsSettled D.means disk.old keep.old }
    ensures resumed { IfOk result (IsResumed D.means book round disk.old disk.new) }
    ensures images { LeavesRounds D.means book.plan round book.past disk.old disk.new }
    ensures settled { OnOk result (IsSettled D.means disk.new keep.new) }
    ensures cause { HasCause (D.means.faults disk.old) (D.means.faults disk.new) (IsErrOf result KeepFail.DiskFault) }
{
    let _legal = book.manager();
    for next in round..rounds_of(book.plan()) {
        let (more, piece) = run_round(rt, alloc, book, next, gate)?;
        book = more;
        match keep.keep(disk, piece.as_slice())? {
            KeepEnd::Kept => {}
            KeepEnd::TooLong => return Ok(Resumed::TooLong { book, round: next }),
        }
    }
    Ok(Resumed::Done(book))
}

/// Runs one round of a book's plan: the book with its entries, and their lines.
#[tactic(auto, using(crate::proofs::Pieces::is_piece))]
fn run_round<R: Threads + Wait + Sync, G: Gate>(
    rt: &R,
    alloc: Global,
    book: Book,
    round: u32,
    gate: &G,
) -> Result<(Book, Items<u8>), NoMemory>
    requires within { round < length book.plan.rounds }
    requires up_to { IsUpTo book.plan round book.past }
    ensures plan { IfOk result (λ r. r.0.plan ≡ book.plan) }
    ensures legal { IfOk result (λ r. IsLegal book.plan r.0.past) }
    ensures piece { IfOk result (λ r. IsPieceOf book.plan round book.past r.0.past r.1) }
{
    let first = count_of(&book);
    let book = one_round(rt, alloc, book, round, gate)?;
    let _few = count_of(&book);
    let piece = lines_from(alloc, book.manager().history(), first)?;
    Ok((book, piece))
}

/// The number of entries of a book, of which there are no more than the plan has runs.
#[tactic(auto, using(crate::proofs::Pieces::few_in))]
fn count_of(book: &Book) -> usize
    ensures count { result ≡ length book.now.past }
    ensures few { length book.now.past ≤ 1024 }
    ensures legal { IsLegal book.now.plan book.now.past }
{
    legal_is_few();
    runs_are_counted();
    limits(book.plan());
    book.manager().history().len()
}

/// A plan's limits are known where a field of it is read.
fn limits(plan: &Plan)
    ensures { IsPlan plan.now }
{
    let _workers = plan.workers;
}
