ghost use Rattle.std.specs.Prelude.{◌≡◌, [], None, true, IfOk, IfSome, MatchOption, OnOk, length};
ghost use Rattle.cv_audit.specs.Clauses.{Breaks};
ghost use Rattle.cv_audit.specs.Floors.{AreFloors, PassesFirst};
ghost use Rattle.cv_audit.specs.Judged.{IsBookOf, IsLeast, IsRebuilt, IsVerdict, IsVerdictOf, IsWrong};
ghost use Rattle.cv_audit.specs.Rerun.{IsAgain, IsNotHonest};
ghost use Rattle.cv_base.specs.PlanOf.{IsPlan};
ghost use Rattle.cv_blocks.specs.TextMap.{text_only};
ghost use Rattle.cv_histories.specs.Legal.{IsLegal, IsWhole, MayFollow};
ghost use Rattle.cv_histories.specs.Runs.{run_at, runs};
ghost use Rattle.cv_histories.specs.Seen.{is_observed, observed_of};
ghost use Rattle.cv_histories.specs.Versions.{newest};
ghost use Rattle.cv_manager.specs.ManagerOf.{ledger_in, with_entry};
ghost use Rattle.cv_observe.specs.StandsFor.{StandsFor};

use crate::broken::first_broken;
use crate::following::has_run;
use crate::rerun::run_again;
use cv_base::{Entry, NoMemory, Plan};
use cv_core::Book;
use cv_exec::{Arena, Record};
use cv_job::runs_in;
use cv_laws::{legal_is_few, runs_are_counted};
use cv_observe::Summary;
use std::alloc::Global;

/// What a list of entries comes to, each of them run again.
#[derive(Drop)]
pub enum Rebuilt {
    /// The entries are a legal history of the plan, which the book has.
    Legal(Book),
    /// The entries before place `at`, counted from 0, are legal; the one at that place breaks this
    /// clause first, in the order of docs/REPAIR.md, "Audit".
    Wrong { at: u32, clause: u32 },
}

/// The verdict on a list of entries.
#[derive(Drop)]
pub enum Verdict {
    /// The entries are a legal history of the plan, which the book has, with each run of the plan.
    Sound(Book),
    /// The entries before place `at`, counted from 0, are legal; the one at that place breaks this
    /// clause first, in the order of docs/REPAIR.md, "Audit".
    Wrong { at: u32, clause: u32 },
    /// The entries are a legal history of the plan, in which this run has no entry; it is the least.
    Missing { run: u32 },
}

/// Judges entries, the oldest first, as a history of a plan: each is tested, run again under the
/// versions that it says, and posted. Nothing that an entry says is trusted.
#[tactic(auto, using(crate::proofs::Judging::book_from_empty, crate::proofs::Judging::wrong_from_empty))]
pub fn rebuild(alloc: Global, plan: Plan, entries: &[Entry]) -> Result<Rebuilt, NoMemory>
    ensures { IfOk result (IsRebuilt plan entries.now) }
{
    let mut arena = Arena::make(alloc, &plan)?;
    let mut book = Book::make(alloc, plan)?;
    match take_each(alloc, &mut book, &mut arena, entries)? {
        Some(clause) => {
            let at = entries_of(&book);
            Ok(Rebuilt::Wrong { at, clause })
        }
        None => Ok(Rebuilt::Legal(book)),
    }
}

/// Judges entries one after the other, from an empty history on: the clause that one breaks first,
/// whose place is the number of entries that the book then has; None where all of them were posted.
fn take_each(
    alloc: Global,
    book: &mut Book,
    arena: &mut Arena,
    entries: &[Entry],
) -> Result<Option<u32>, NoMemory>
    requires plan { arena.old.plan ≡ book.old.plan }
    requires none { book.old.past ≡ [] }
    ensures wrong { IfOk result (λ found. IfSome found (IsWrong book.old.plan entries.now (length book.new.past))) }
    ensures all { IfOk result (λ found. found ≡ None → IsBookOf book.old.plan entries.now book.new) }
{
    let mut floors = Vec::new(alloc);
    for entry in entries {
        if let Some(clause) = take(alloc, book, arena, &mut floors, entry)? {
            let _legal = book.manager();
            return Ok(Some(clause));
        }
    }
    let _legal = book.manager();
    Ok(None)
}

/// The number of entries of a book, of which there are no more than the plan has runs.
fn entries_of(book: &Book) -> u32
    ensures count { result ≡ length book.now.past }
    ensures legal { IsLegal book.now.plan book.now.past }
{
    legal_is_few();
    let _runs = runs_of(book.plan());
    book.manager().history().len() as u32
}

/// Judges one more entry: the clause that it breaks first; None where it may follow, and then it is
/// posted. `floors` has the newest version after each entry of the history.
fn take(
    alloc: Global,
    book: &mut Book,
    arena: &mut Arena,
    floors: &mut Vec<u32>,
    entry: &Entry,
) -> Result<Option<u32>, NoMemory>
    requires plan { arena.old.plan ≡ book.old.plan }
    requires floors { AreFloors book.old.plan book.old.past floors.old.items }
    ensures broken { IfOk result (λ found. IfSome found (Breaks book.old.plan book.old.past entry.now)) }
    ensures left { IfOk result (λ found. IfSome found (λ clause. book.new ≡ book.old)) }
    ensures posted { IfOk result (λ found. found ≡ None → book.new ≡ with_entry book.old entry.now) }
    ensures floors { IfOk result (λ found. found ≡ None → AreFloors book.new.plan book.new.past floors.new.items) }
    ensures plan { arena.new.plan ≡ arena.old.plan }
{
    if let Some(clause) = broken_at_first(book, floors.as_slice(), entry) {
        return Ok(Some(clause));
    }
    let Some(ran) = again(alloc, book, arena, entry)? else {
        return Ok(Some(4));
    };
    keep(alloc, book, floors, ran, arena.summary())?;
    Ok(None)
}

/// Posts the entry of a record, and keeps the newest version after it.
#[tactic(auto, using(crate::proofs::Judging::floors_post))]
fn keep(
    alloc: Global,
    book: &mut Book,
    floors: &mut Vec<u32>,
    ran: Record,
    summary: &Summary,
) -> Result<(), NoMemory>
    requires floors { AreFloors book.old.plan book.old.past floors.old.items }
    requires follows { MayFollow book.old.plan book.old.past ran.entry }
    requires text { summary.now.text ≡ text_only book.old.plan.image }
    requires seen { is_observed ran.entry ≡ true → StandsFor summary.now (observed_of book.old.plan (run_at book.old.plan ran.entry.run)) }
    ensures posted { OnOk result (book.new ≡ with_entry book.old ran.entry) }
    ensures floors { OnOk result (AreFloors book.new.plan book.new.past floors.new.items) }
{
    match book.post(alloc, ran, summary) {
        Ok(_) => {
            floors.push(top_of(book))?;
            Ok(())
        }
        Err(_) => Err(NoMemory),
    }
}

/// The newest version of a book's history.
fn top_of(book: &Book) -> u32
    ensures { result ≡ newest book.now.plan book.now.past }
{
    book.manager().version_count() - 1
}

/// The clause that an entry breaks first, as far as that can be told without its run; None where it
/// passes all tests that come before the run is run again.
fn broken_at_first(book: &Book, floors: &[u32], entry: &Entry) -> Option<u32>
    requires { AreFloors book.now.plan book.now.past floors.now }
    ensures broken { IfSome result (Breaks book.now.plan book.now.past entry.now) }
    ensures none { result ≡ None → PassesFirst book.now.plan book.now.past entry.now }
{
    let history = book.manager().history();
    first_broken(book.plan(), history, floors, top_of(book), entry)
}

/// The record of the entry's run, run again under the versions that the entry says, where the entry is
/// that of this run; None exactly where it is not honest.
fn again(
    alloc: Global,
    book: &Book,
    arena: &mut Arena,
    entry: &Entry,
) -> Result<Option<Record>, NoMemory>
    requires plan { arena.old.plan ≡ book.now.plan }
    requires first { PassesFirst book.now.plan book.now.past entry.now }
    ensures again { IfOk result (λ found. IfSome found (λ r. IsAgain book.now.plan (ledger_in book.now).versions entry.now r)) }
    ensures not { IfOk result (λ found. found ≡ None → IsNotHonest book.now.plan (ledger_in book.now).versions entry.now) }
    ensures seen { IfOk result (λ found. IfSome found (λ r. is_observed r.entry ≡ true → StandsFor arena.new.summary (observed_of book.now.plan (run_at book.now.plan r.entry.run)))) }
    ensures plan { arena.new.plan ≡ arena.old.plan }
{
    let versions = book.manager().versions();
    let _count = book.manager().version_count();
    run_again(alloc, book.plan(), versions, arena, entry)
}

/// Judges entries, the oldest first, as the whole history of a plan.
pub fn audit(alloc: Global, plan: Plan, entries: &[Entry]) -> Result<Verdict, NoMemory>
    ensures { IfOk result (IsVerdict plan entries.now) }
{
    match rebuild(alloc, plan, entries)? {
        Rebuilt::Wrong { at, clause } => Ok(Verdict::Wrong { at, clause }),
        Rebuilt::Legal(book) => Ok(whole(book)),
    }
}

/// The verdict on a legal history.
fn whole(book: Book) -> Verdict
    ensures { IsVerdictOf book result }
{
    match missing(&book) {
        Some(run) => Verdict::Missing { run },
        None => Verdict::Sound(book),
    }
}

/// The least run of the plan that has no entry.
pub fn missing(book: &Book) -> Option<u32>
    ensures { MatchOption result (IsWhole book.now.plan book.now.past) (IsLeast book.now.plan book.now.past) }
{
    let history = book.manager().history();
    for run in 0..runs_of(book.plan()) {
        if !has_run(history, run) {
            return Some(run);
        }
    }
    None
}

/// The number of runs of a plan, whose limits are known where a field of it is read.
fn runs_of(plan: &Plan) -> u32
    ensures count { result ≡ length (runs plan.now) }
    ensures limits { IsPlan plan.now }
{
    runs_are_counted();
    runs_in(plan.rounds.as_slice())
}
