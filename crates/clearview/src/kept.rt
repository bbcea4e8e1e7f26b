ghost use Rattle.std.specs.Prelude.{◌≡◌, ◌+◌, None};
ghost use Rattle.cv_base.specs.PlanOf.{IsPlan};
ghost use Rattle.cv_desk.specs.Openings.{IsUpTo};
ghost use Rattle.cv_histories.specs.Legal.{IsWhole};
ghost use Rattle.clearview.specs.Causes.{status_of};
ghost use Rattle.clearview.specs.Headline.{Comes, IsPostedUpTo, outside};
ghost use Rattle.clearview.specs.Rounds.{Keeps};
ghost use Rattle.clearview.specs.RoundsEnd.{RoundsEnd, WholeEnd};
ghost use Rattle.clearview.specs.Verdict.{files_for};
ghost use Rattle.clearview.specs.Words.{Kept};

use crate::cause::{Cause, Finish};
use crate::files::plan_of;
use crate::tool::written;
use cv_base::{NoMemory, Plan};
use cv_core::Book;
use cv_edge::{Disk, Gate, Sink, Store};
use cv_laws::one_worker_is_serial;
use cv_report::report;
use cv_resume::{KeptFail, KeptFault, Resumed, run_kept};
use std::alloc::Global;
use std::sync::Wait;
use std::thread::Threads;

/// Runs a job as `run` does, but for the rounds that a disk holds, and keeps each further round on it
/// before the next begins; then writes the report (docs/FORMATS.md, "Kept rounds").
pub fn kept<R: Threads + Wait + Sync, S: Store, K: Sink, G: Gate, D: Disk>(
    rt: &R,
    alloc: Global,
    job: &str,
    store: &mut S,
    sink: &mut K,
    gate: &G,
    disk: &mut D,
) -> Finish
    ensures status { result.status ≡ status_of result.cause }
    ensures comes { Comes (Some (Kept job.now)) (outside (S.told store.old) (S.faults store.old) (K.written sink.old) (K.faults sink.old)) (outside (S.told store.new) (S.faults store.new) (K.written sink.new) (K.faults sink.new)) result.cause result.book result.found }
    ensures keeps { Keeps D.means (Some (Kept job.now)) (files_for (Some (Kept job.now)) (S.told store.old)) disk.old disk.new result.cause result.book }
{
    match plan_of(alloc, store, job) {
        Ok(plan) => {
            let (cause, book) = rounds_of(rt, alloc, plan, sink, gate, disk);
            finish(cause, book)
        }
        Err(cause) => finish(cause, None),
    }
}

/// How a call ended that judges no report.
fn finish(cause: Cause, book: Option<Book>) -> Finish
    ensures { result ≡ record { status = status_of cause; cause = cause; book = book; found = None } }
{
    Finish {
        status: cause.status(),
        cause,
        book,
        found: None,
    }
}

/// Runs the rounds of a plan over a disk, and writes the report: how that ended, and the book.
fn rounds_of<R: Threads + Wait + Sync, K: Sink, G: Gate, D: Disk>(
    rt: &R,
    alloc: Global,
    plan: Plan,
    sink: &mut K,
    gate: &G,
    disk: &mut D,
) -> (Cause, Option<Book>)
    ensures { RoundsEnd D.means plan disk.old disk.new (K.written sink.old) (K.written sink.new) (K.faults sink.old) (K.faults sink.new) result.0 result.1 }
{
    limits(&plan);
    match run_kept(rt, alloc, plan, disk, gate) {
        Ok(Resumed::Done(book)) => whole(alloc, book, sink),
        Ok(Resumed::TooLong { book, round }) => {
            posted_up_to(&book, round);
            (Cause::KeptRefused(KeptFault::TooLong(round)), Some(book))
        }
        Err(KeptFail::Refused(fault)) => (Cause::KeptRefused(fault), None),
        Err(KeptFail::DiskFault) => (Cause::DiskFault, None),
        Err(KeptFail::NoMemory) => (Cause::NoMemory, None),
    }
}

/// A plan's limits are known where a field of it is read.
fn limits(plan: &Plan)
    ensures { IsPlan plan.now }
{
    let _workers = plan.workers;
}

/// Writes the report of the book of all runs.
fn whole<K: Sink>(alloc: Global, book: Book, sink: &mut K) -> (Cause, Option<Book>)
    requires limits { IsPlan book.plan }
    requires whole { IsWhole book.plan book.past }
    ensures { WholeEnd book (K.written sink.old) (K.written sink.new) (K.faults sink.old) (K.faults sink.new) result.0 result.1 }
{
    one_worker_is_serial();
    match report(alloc, book.manager()) {
        Ok(text) => {
            let cause = written(sink, text.as_bytes());
            (cause, Some(book))
        }
        Err(NoMemory) => (Cause::NoMemory, None),
    }
}

/// A book is legal, which is known where it is read.
fn posted_up_to(book: &Book, round: u32)
    requires { IsUpTo book.now.plan (round + 1) book.now.past }
    ensures { IsPostedUpTo round book.now }
{
    let _manager = book.manager();
}
