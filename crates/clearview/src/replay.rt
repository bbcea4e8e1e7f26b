ghost use Rattle.std.specs.Prelude.{◌≡◌, [], map, reverse, string_bytes, IfErr, IfOk, IfSome, IsErrOf, Some};
ghost use Rattle.std.specs.Option.{option_copied};
ghost use Rattle.cv_edge.specs.Edge.{FetchesUpTo, HasCause};
ghost use Rattle.cv_laws.specs.Statements.{IsHonestIn};
ghost use Rattle.cv_machine.specs.Held.{state_of};
ghost use Rattle.cv_runs.specs.State.{x};
ghost use Rattle.clearview.specs.Causes.{status_of};
ghost use Rattle.clearview.specs.Gives.{Gives, IsEarly, found_told, text_told};
ghost use Rattle.clearview.specs.Headline.{Comes, outside};
ghost use Rattle.clearview.specs.Judged.{IsJudged};
ghost use Rattle.clearview.specs.Replayed.{entry_for, lines_of, numbers, place_text, regs_line, run_text, said_text, since_line, stood, turn_line, turn_text};
ghost use Rattle.clearview.specs.Verdict.{IsFound, files_for, verdict_by};
ghost use Rattle.clearview.specs.Views.{visit_view};
ghost use Rattle.clearview.specs.Words.{a_report};

use crate::audit::{told, wrong_text};
use crate::cause::{Cause, Finish};
use crate::files::{journal_of, plan_of};
use crate::judgement::{Judgement, Told};
use crate::tool::written;
use crate::words::Visit;
use cv_audit::{Verdict, audit as judge};
use cv_base::{Address, Addresses, Entry, NoMemory, PatchTable, Plan};
use cv_core::Book;
use cv_edge::{Sink, Store};
use cv_laws::legal_is_honest;
use cv_machine::Machine;
use cv_manager::Manager;
use cv_replay::{Replay, Sought};
use cv_report::list_text;
use std::alloc::Global;
use std::sync::Arc;

/// Shows the machine before a turn of a run that a report tells of, where the report is sound; else
/// writes what is wrong with it (docs/REPAIR.md, "Replay").
pub fn replay<S: Store, K: Sink>(
    alloc: Global,
    visit: &Visit<'_>,
    store: &mut S,
    sink: &mut K,
) -> Finish
    ensures status { result.status ≡ status_of result.cause }
    ensures comes { Comes (Some (visit_view visit.now)) (outside (S.told store.old) (S.faults store.old) (K.written sink.old) (K.faults sink.old)) (outside (S.told store.new) (S.faults store.new) (K.written sink.new) (K.faults sink.new)) result.cause result.book result.found }
{
    match shown(alloc, visit, store) {
        Ok(told) => {
            let cause = written(sink, told.text.as_slice());
            Finish {
                status: cause.status(),
                cause,
                book: None,
                found: Some(told.found),
            }
        }
        Err(cause) => Finish {
            status: cause.status(),
            cause,
            book: None,
            found: None,
        },
    }
}

/// What is found of a report, with the text of a turn of one of its runs, or the cause against it. It
/// fetches the job, the image and the report.
#[tactic(auto, using(crate::proofs::Auditing::visit_judged, crate::proofs::Auditing::visit_found, crate::proofs::Auditing::visit_no_plan, crate::proofs::Auditing::visit_no_report, crate::proofs::Auditing::fetches_thrice, crate::proofs::Auditing::fetches_fewer, crate::proofs::Early::plan_of_report))]
fn shown<S: Store>(alloc: Global, visit: &Visit<'_>, store: &mut S) -> Result<Told, Cause>
    ensures gives { IfSome (files_for (Some (visit_view visit.now)) (S.told store.old)) (λ file. Gives (verdict_by (Some (visit_view visit.now)) file [] (found_told result)) (text_told result)) }
    ensures found { IfSome (files_for (Some (visit_view visit.now)) (S.told store.old)) (λ file. IfSome (found_told result) (IsFound (Some (visit_view visit.now)) file)) }
    ensures early { IfErr result (λ c. IsEarly a_report c) }
    ensures fault { HasCause (S.faults store.old) (S.faults store.new) (IsErrOf result Cause.StoreFault) }
    ensures fetches { FetchesUpTo 3 (S.told store.old) (S.told store.new) }
{
    let plan = plan_of(alloc, store, visit.job)?;
    let journal = journal_of(alloc, store, visit.report)?;
    Ok(turn_of(
        alloc,
        plan,
        journal.entries.as_slice(),
        visit.run,
        visit.turn,
    )?)
}

/// What is found of the entries of a report, with the text of a turn of one of their runs.
fn turn_of(
    alloc: Global,
    plan: Plan,
    entries: &[Entry],
    run: u32,
    turn: u32,
) -> Result<Told, NoMemory>
    ensures found { IfOk result (λ told. IsJudged plan entries.now told.found) }
    ensures text { IfOk result (λ told. told.text ≡ said_text plan entries.now run turn told.found) }
{
    match judge(alloc, plan, entries)? {
        Verdict::Sound(book) => {
            let text = run_text(alloc, &book, entries, run, turn)?;
            Ok(told(Judgement::Sound, text))
        }
        Verdict::Wrong { at, clause } => {
            let text = wrong_text(alloc, at, clause)?;
            Ok(told(Judgement::Wrong { at, clause }, text))
        }
        Verdict::Missing { run } => {
            let text = format!(in alloc; "missing run {run}\n")?;
            Ok(told(Judgement::Missing { run }, text))
        }
    }
}

/// The text of a turn of a run, from sound entries and their book.
#[tactic(auto, unfolding(crate::specs::Replayed::run_text))]
fn run_text(
    alloc: Global,
    book: &Book,
    entries: &[Entry],
    run: u32,
    turn: u32,
) -> Result<String, NoMemory>
    requires { book.now.past ≡ reverse entries.now }
    ensures { IfOk result (λ s. string_bytes s ≡ run_text book.now.plan entries.now run turn) }
{
    legal_is_honest();
    let manager = book.manager();
    match entry_of(entries, run) {
        Some(entry) => entry_text(alloc, manager, entry, turn),
        None => Ok(String::from_str(alloc, "no such run\n")?),
    }
}

/// The entry of a run.
fn entry_of(entries: &[Entry], run: u32) -> Option<&Entry>
    ensures { option_copied result ≡ entry_for entries.now run }
{
    entries.iter().find(|entry| entry.run == run)
}

/// The text of a turn of the run of an entry of a book's history.
fn entry_text(
    alloc: Global,
    manager: &Manager,
    entry: &Entry,
    turn: u32,
) -> Result<String, NoMemory>
    requires { IsHonestIn manager.now.plan manager.now.past entry.now }
    ensures { IfOk result (λ s. string_bytes s ≡ lines_of (stood manager.now.plan manager.now.past entry.now turn)) }
{
    let mut replay = replay_of(alloc, manager, entry)?;
    lines_before(alloc, &mut replay, entry.run, turn)
}

/// The run of an entry of a book's history, before its first turn.
fn replay_of(alloc: Global, manager: &Manager, entry: &Entry) -> Result<Replay, NoMemory>
    requires { IsHonestIn manager.now.plan manager.now.past entry.now }
    ensures { IfOk result (λ r. r ≡ stood manager.now.plan manager.now.past entry.now 0) }
{
    let tables = copied(alloc, manager.versions())?;
    Replay::make(alloc, manager.plan(), entry, tables)
}

/// The text of a turn of the run of this number that is replayed.
#[tactic(auto, using(crate::proofs::Visits::no_turn))]
fn lines_before(alloc: Global, replay: &mut Replay, run: u32, turn: u32) -> Result<String, NoMemory>
    requires { run ≡ replay.old.entry.run }
    ensures { IfOk result (λ s. string_bytes s ≡ lines_of (record replay.old { turn = turn })) }
{
    match replay.seek(alloc, turn)? {
        Sought::There => state_text(alloc, run, replay),
        Sought::Past => Ok(String::from_str(alloc, "no such turn\n")?),
    }
}

/// The same tables.
fn copied(
    alloc: Global,
    tables: &[Arc<PatchTable, Global>],
) -> Result<Vec<Arc<PatchTable, Global>>, NoMemory>
    ensures { IfOk result (λ copy. map (λ t. t.value) copy.items ≡ map (λ t. t.value) tables.now) }
{
    let mut copy = Vec::new(alloc);
    for table in tables {
        copy.push(Arc::try_clone(table)?)?;
    }
    Ok(copy)
}

/// The three lines of the turn before which a replay stands, of the run of this number.
#[tactic(auto, unfolding(crate::specs::Replayed::lines_of))]
fn state_text(alloc: Global, run: u32, replay: &Replay) -> Result<String, NoMemory>
    requires { run ≡ replay.now.entry.run }
    ensures { IfOk result (λ s. string_bytes s ≡ lines_of replay.now) }
{
    let turn = turn_line(alloc, run, replay.turn(), replay.machine())?;
    let regs = regs_line(alloc, replay.machine())?;
    let since = since_line(alloc, replay)?;
    Ok(format!(in alloc; "{turn}{regs}{since}")?)
}

/// The run, the turn, and where the machine stands.
fn turn_line(alloc: Global, run: u32, turn: u32, machine: &Machine) -> Result<String, NoMemory>
    ensures { IfOk result (λ s. string_bytes s ≡ turn_line run turn (state_of machine.now)) }
{
    let turn = turn_text(alloc, run, turn)?;
    let place = place_text(alloc, machine)?;
    Ok(format!(in alloc; "{turn} {place}\n")?)
}

fn turn_text(alloc: Global, run: u32, turn: u32) -> Result<String, NoMemory>
    ensures { IfOk result (λ s. string_bytes s ≡ turn_text run turn) }
{
    Ok(format!(in alloc; "run {run} turn {turn}")?)
}

fn place_text(alloc: Global, machine: &Machine) -> Result<String, NoMemory>
    ensures { IfOk result (λ s. string_bytes s ≡ place_text (state_of machine.now)) }
{
    let core = machine.core();
    let pc = Address(core.pc);
    let frames = core.frames.len();
    let sp = Address(core.frames.sp());
    Ok(format!(in alloc; "pc {pc} frames {frames} frame-sp {sp}")?)
}

/// The values of the registers x1 to x31.
fn regs_line(alloc: Global, machine: &Machine) -> Result<String, NoMemory>
    ensures { IfOk result (λ s. string_bytes s ≡ regs_line (state_of machine.now)) }
{
    let values = values_of(alloc, machine)?;
    let values = Addresses(values.as_slice());
    Ok(format!(in alloc; "regs {values}\n")?)
}

fn values_of(alloc: Global, machine: &Machine) -> Result<Vec<u32>, NoMemory>
    ensures { IfOk result (λ values. values.items ≡ map (x (state_of machine.now)) numbers) }
{
    let mut values = Vec::new(alloc);
    for number in 1..32u8 {
        values.push(machine.core().regs.get(number))?;
    }
    Ok(values)
}

/// Since which turn each of them has its value.
fn since_line(alloc: Global, replay: &Replay) -> Result<String, NoMemory>
    ensures { IfOk result (λ s. string_bytes s ≡ since_line replay.now) }
{
    let turns = replay.regs_changed();
    let turns = list_text(alloc, &turns[1..])?;
    Ok(format!(in alloc; "since {turns}\n")?)
}
