ghost use Rattle.std.specs.Prelude.{◌≡◌, ◌<◌, ◌+◌, true, length, IfOk, OnOk};
ghost use Rattle.cv_base.specs.PlanOf.{IsPlan};
ghost use Rattle.cv_exec.specs.LearnRun.{IsLearnRun};
ghost use Rattle.cv_exec.specs.LiveRun.{IsLiveRun};
ghost use Rattle.cv_histories.specs.Legal.{IsWhole};
ghost use Rattle.cv_histories.specs.Runs.{run_at, runs};
ghost use Rattle.cv_histories.specs.Seen.{is_observed, observed_of};
ghost use Rattle.cv_histories.specs.Serial.{serial};
ghost use Rattle.cv_laws.specs.InOrder.{AreBelow, AreByWorkerZero, IsNext};
ghost use Rattle.cv_observe.specs.StandsFor.{StandsFor};

use crate::book::Book;
use crate::newest::{Newest, Unwatched};
use cv_base::{Mode, NoMemory, Plan};
use cv_exec::{Arena, Record, mode_of};
use cv_job::runs_in;
use cv_laws::{
    below_is_whole, learn_entry_is_learn, next_may_follow, runs_are_counted, worker_zero_is_serial,
};
use std::alloc::Global;

/// Takes all runs of a plan in order, as worker 0, each live run under the newest version at all its
/// block entries (docs/REPAIR.md, "The serial history").
pub fn run_in_order(alloc: Global, plan: Plan) -> Result<Book, NoMemory>
    ensures plan { IfOk result (λ b. b.plan ≡ plan) }
    ensures serial { IfOk result (λ b. b.past ≡ serial plan) }
    ensures whole { IfOk result (λ b. IsWhole b.plan b.past) }
{
    let mut arena = Arena::make(alloc, &plan)?;
    let mut book = Book::make(alloc, plan)?;
    for run in 0..runs_of(book.plan()) {
        take(alloc, &mut book, &mut arena, run)?;
    }
    below_is_whole();
    worker_zero_is_serial();
    let _legal = book.manager();
    Ok(book)
}

/// The number of runs of a plan, whose limits are known where a field of it is read.
fn runs_of(plan: &Plan) -> u32
    ensures count { result ≡ length (runs plan.now) }
    ensures limits { IsPlan plan.now }
{
    runs_are_counted();
    runs_in(plan.rounds.as_slice())
}

/// Takes the next run, and posts its entry.
#[tactic(auto, using(crate::proofs::NextEntry::one_more))]
fn take(alloc: Global, book: &mut Book, arena: &mut Arena, run: u32) -> Result<(), NoMemory>
    requires plan { arena.old.plan ≡ book.old.plan }
    requires limits { IsPlan book.old.plan }
    requires within { run < length (runs book.old.plan) }
    requires below { AreBelow run book.old.past }
    requires worker { AreByWorkerZero book.old.past }
    ensures below { OnOk result (AreBelow (run + 1) book.new.past) }
    ensures worker { OnOk result (AreByWorkerZero book.new.past) }
    ensures plan { arena.new.plan ≡ arena.old.plan }
    ensures same { book.new.plan ≡ book.old.plan }
{
    next_may_follow();
    let record = next_record(alloc, book, arena, run)?;
    match book.post(alloc, record, arena.summary()) {
        Ok(_) => Ok(()),
        Err(_) => Err(NoMemory),
    }
}

/// The record of the next run. Where it is learned from, the arena's summary is of it.
fn next_record(alloc: Global, book: &Book, arena: &mut Arena, run: u32) -> Result<Record, NoMemory>
    requires plan { arena.old.plan ≡ book.now.plan }
    requires worker { 0 < book.now.plan.workers }
    requires within { run < length (runs book.now.plan) }
    ensures next { IfOk result (λ r. IsNext book.now.plan book.now.past run r.entry) }
    ensures seen { IfOk result (λ r. is_observed r.entry ≡ true → StandsFor arena.new.summary (observed_of book.now.plan (run_at book.now.plan r.entry.run))) }
    ensures plan { arena.new.plan ≡ arena.old.plan }
{
    match mode_of(book.plan(), run) {
        Some(Mode::Learn) => learn(alloc, book, arena, run),
        Some(Mode::Live) => live(alloc, book, arena, run),
        None => unreachable!(),
    }
}

/// A learn run of a book's plan.
#[tactic(auto, using(crate::proofs::NextEntry::learn_is_seen))]
fn learn(alloc: Global, book: &Book, arena: &mut Arena, run: u32) -> Result<Record, NoMemory>
    requires plan { arena.old.plan ≡ book.now.plan }
    requires worker { 0 < book.now.plan.workers }
    requires learns { IsLearnRun book.now.plan run }
    ensures next { IfOk result (λ r. IsNext book.now.plan book.now.past run r.entry) }
    ensures seen { OnOk result (StandsFor arena.new.summary (observed_of book.now.plan (run_at book.now.plan run))) }
    ensures plan { arena.new.plan ≡ arena.old.plan }
{
    learn_entry_is_learn();
    arena.learn(alloc, book.plan(), run, 0)
}

/// A live run of a book's plan under the newest version.
fn live(alloc: Global, book: &Book, arena: &mut Arena, run: u32) -> Result<Record, NoMemory>
    requires plan { arena.old.plan ≡ book.now.plan }
    requires worker { 0 < book.now.plan.workers }
    requires lives { IsLiveRun book.now.plan run }
    ensures next { IfOk result (λ r. IsNext book.now.plan book.now.past run r.entry) }
    ensures seen { IfOk result (λ r. is_observed r.entry ≡ true → StandsFor arena.new.summary (observed_of book.now.plan (run_at book.now.plan r.entry.run))) }
    ensures plan { arena.new.plan ≡ arena.old.plan }
{
    let manager = book.manager();
    let mut adopter = Newest::make(manager.version_count() - 1, manager.versions());
    let record = arena.live(alloc, manager.plan(), run, 0, &mut adopter, &mut Unwatched)?;
    Ok(record)
}
