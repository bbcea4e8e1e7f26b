ghost use Rattle.std.specs.Prelude.{◌≡◌, ◌≤◌, Some, None, false, map, string_bytes, IfErr, IfOk, IfSome, IsErrOf};
ghost use Rattle.cv_base.specs.PlanOf.{IsPlan};
ghost use Rattle.cv_edge.specs.Edge.{FetchesUpTo, HasCause};
ghost use Rattle.clearview.specs.Causes.{status_of};
ghost use Rattle.clearview.specs.Gives.{Gives, GivesText, IsEarly, past_made, plan_made, text_made};
ghost use Rattle.clearview.specs.Headline.{Comes, IsPosted, outside};
ghost use Rattle.clearview.specs.Rounds.{Keeps};
ghost use Rattle.clearview.specs.Verdict.{book_text, drilled, files_for, plan_asked, verdict_by};
ghost use Rattle.clearview.specs.Views.{order_view};
ghost use Rattle.clearview.specs.Words.{command_of, files_named, keeps_rounds, reads_of, IsShort};

use crate::audit::audit;
use crate::cause::{Cause, Finish};
use crate::files::plan_of;
use crate::kept::kept;
use crate::replay::replay;
use crate::tool::{tool, written};
use crate::words::{Order, charge_in, kept_in, order_in, visit_in};
use cv_base::{NoMemory, Plan};
use cv_core::Book;
use cv_edge::{Disk, Gate, Sink, Store};
use cv_gen::drill_plan;
use cv_laws::{legal_is_plain, one_worker_is_serial};
use cv_manager::Manager;
use cv_report::{drill_text, report};
use cv_worker::community;
use std::alloc::Global;
use std::sync::Wait;
use std::thread::Threads;

/// Does the command that words are: fetches the files that it names, runs what it asks for, and writes
/// its text whole (docs/FORMATS.md, "Causes and statuses"). The runs of a job are taken by as many
/// instances as it has workers, side by side in threads, which pass the gate. The disk keeps the rounds
/// of `kept`; no other command makes a call on it.
///
/// Where a job is run, or a drill, the text is that of the posted history in the book, which has each
/// run of the plan once, and is legal, however the instances interleave: README, "The headline". Where
/// a report is judged, the text says what is found of it.
pub fn clearview<R: Threads + Wait + Sync, S: Store, K: Sink, G: Gate, D: Disk>(
    rt: &R,
    alloc: Global,
    words: &[String],
    store: &mut S,
    sink: &mut K,
    gate: &G,
    disk: &mut D,
) -> Finish
    ensures status { result.status ≡ status_of result.cause }
    ensures comes { Comes (command_of (map string_bytes words.now)) (outside (S.told store.old) (S.faults store.old) (K.written sink.old) (K.faults sink.old)) (outside (S.told store.new) (S.faults store.new) (K.written sink.new) (K.faults sink.new)) result.cause result.book result.found }
    ensures keeps { Keeps D.means (command_of (map string_bytes words.now)) (files_for (command_of (map string_bytes words.now)) (S.told store.old)) disk.old disk.new result.cause result.book }
{
    if let Some(job) = kept_in(words) {
        return kept(rt, alloc, job, store, sink, gate, disk);
    }
    untouched(rt, alloc, words, store, sink, gate)
}

/// Does a command that keeps no rounds.
fn untouched<R: Threads + Wait + Sync, S: Store, K: Sink, G: Gate>(
    rt: &R,
    alloc: Global,
    words: &[String],
    store: &mut S,
    sink: &mut K,
    gate: &G,
) -> Finish
    requires { keeps_rounds (command_of (map string_bytes words.now)) ≡ false }
    ensures status { result.status ≡ status_of result.cause }
    ensures comes { Comes (command_of (map string_bytes words.now)) (outside (S.told store.old) (S.faults store.old) (K.written sink.old) (K.faults sink.old)) (outside (S.told store.new) (S.faults store.new) (K.written sink.new) (K.faults sink.new)) result.cause result.book result.found }
{
    if let Some(order) = order_in(words) {
        return run(rt, alloc, &order, store, sink, gate);
    }
    if let Some(visit) = visit_in(words) {
        return replay(alloc, &visit, store, sink);
    }
    match charge_in(words) {
        Some(charge) => audit(alloc, &charge, store, sink),
        None => tool(alloc, words, store, sink),
    }
}

/// Runs what an order asks for, and writes its text.
fn run<R: Threads + Wait + Sync, S: Store, K: Sink, G: Gate>(
    rt: &R,
    alloc: Global,
    order: &Order<'_>,
    store: &mut S,
    sink: &mut K,
    gate: &G,
) -> Finish
    requires { IsShort (order_view order.now) }
    ensures status { result.status ≡ status_of result.cause }
    ensures comes { Comes (Some (order_view order.now)) (outside (S.told store.old) (S.faults store.old) (K.written sink.old) (K.faults sink.old)) (outside (S.told store.new) (S.faults store.new) (K.written sink.new) (K.faults sink.new)) result.cause result.book result.found }
{
    match run_with(rt, alloc, order, store, gate) {
        Ok((book, text)) => {
            let cause = written(sink, text.as_bytes());
            Finish {
                status: cause.status(),
                cause,
                book: Some(book),
                found: None,
            }
        }
        Err(cause) => Finish {
            status: cause.status(),
            cause,
            book: None,
            found: None,
        },
    }
}

/// The book of an order's runs and its text, or the cause against them.
#[tactic(auto, using(crate::proofs::Orders::order_ran, crate::proofs::Orders::order_against))]
fn run_with<R: Threads + Wait + Sync, S: Store, G: Gate>(
    rt: &R,
    alloc: Global,
    order: &Order<'_>,
    store: &mut S,
    gate: &G,
) -> Result<(Book, String), Cause>
    requires { IsShort (order_view order.now) }
    ensures gives { IfSome (files_for (Some (order_view order.now)) (S.told store.old)) (λ file. GivesText (verdict_by (Some (order_view order.now)) file (past_made result) None) (text_made result)) }
    ensures plan { IfSome (files_for (Some (order_view order.now)) (S.told store.old)) (λ file. Gives (plan_asked (Some (order_view order.now)) file) (plan_made result)) }
    ensures posted { IfOk result (λ made. IsPosted made.0) }
    ensures report { IfOk result (λ made. string_bytes made.1 ≡ book_text (Some (order_view order.now)) made.0.plan made.0.past) }
    ensures early { IfErr result (λ c. IsEarly (reads_of (Some (order_view order.now))) c) }
    ensures fault { HasCause (S.faults store.old) (S.faults store.new) (IsErrOf result Cause.StoreFault) }
    ensures fetches { FetchesUpTo (files_named (Some (order_view order.now))) (S.told store.old) (S.told store.new) }
{
    let plan = plan_asked(alloc, order, store)?;
    Ok(book_of(rt, alloc, order, plan, gate)?)
}

/// The book of all runs of an order's plan, and its text.
fn book_of<R: Threads + Wait + Sync, G: Gate>(
    rt: &R,
    alloc: Global,
    order: &Order<'_>,
    plan: Plan,
    gate: &G,
) -> Result<(Book, String), NoMemory>
    ensures plan { IfOk result (λ made. made.0.plan ≡ plan) }
    ensures posted { IfOk result (λ made. IsPosted made.0) }
    ensures text { IfOk result (λ made. string_bytes made.1 ≡ book_text (Some (order_view order.now)) made.0.plan made.0.past) }
{
    let book = posted_book(rt, alloc, plan, gate)?;
    let text = book_text(alloc, order, book.manager())?;
    Ok((book, text))
}

/// The book of all runs of a plan, posted by its community.
fn posted_book<R: Threads + Wait + Sync, G: Gate>(
    rt: &R,
    alloc: Global,
    plan: Plan,
    gate: &G,
) -> Result<Book, NoMemory>
    ensures plan { IfOk result (λ b. b.plan ≡ plan) }
    ensures posted { IfOk result IsPosted }
{
    limits(&plan);
    let book = community(rt, alloc, plan, gate)?;
    legal_is_plain();
    one_worker_is_serial();
    Ok(book)
}

/// A plan's limits are known where a field of it is read.
fn limits(plan: &Plan)
    ensures { IsPlan plan.now }
{
    let _workers = plan.workers;
}

/// The plan that an order asks for, or the cause against it.
#[tactic(auto, using(crate::proofs::Commands::fetches_none, crate::proofs::Orders::plan_told))]
fn plan_asked<S: Store>(alloc: Global, order: &Order<'_>, store: &mut S) -> Result<Plan, Cause>
    requires { IsShort (order_view order.now) }
    ensures gives { IfSome (files_for (Some (order_view order.now)) (S.told store.old)) (λ file. Gives (plan_asked (Some (order_view order.now)) file) result) }
    ensures early { IfErr result (λ c. IsEarly (reads_of (Some (order_view order.now))) c) }
    ensures fault { HasCause (S.faults store.old) (S.faults store.new) (IsErrOf result Cause.StoreFault) }
    ensures fetches { FetchesUpTo (files_named (Some (order_view order.now))) (S.told store.old) (S.told store.new) }
{
    match order {
        Order::Run { job } => plan_of(alloc, store, job),
        Order::Drill { number, runs } => Ok(drilled(alloc, *number, *runs)?),
    }
}

/// The plan of a drill with 1 to 1,022 live runs.
#[tactic(auto, unfolding(crate::specs::Verdict::drilled))]
fn drilled(alloc: Global, number: u64, runs: u32) -> Result<Plan, NoMemory>
    requires some { 1 ≤ runs }
    requires few { runs ≤ 1022 }
    ensures { IfOk result (λ plan. plan ≡ drilled number runs) }
{
    drill_plan(alloc, number, runs)
}

/// What an order writes of its plan's history.
fn book_text(alloc: Global, order: &Order<'_>, manager: &Manager) -> Result<String, NoMemory>
    ensures { IfOk result (λ s. string_bytes s ≡ book_text (Some (order_view order.now)) manager.now.plan manager.now.past) }
{
    match order {
        Order::Run { .. } => report(alloc, manager),
        Order::Drill { .. } => drill_text(alloc, manager),
    }
}
