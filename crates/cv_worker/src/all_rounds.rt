//! All rounds of a plan, one after another.
ghost use Rattle.std.specs.List.{AllByRecursion, filter_map};
ghost use Rattle.std.specs.Prelude.{◌≡◌, ◌<◌, ◌++◌, length, option_to_list, IfOk, OnOk};
ghost use Rattle.cv_base.specs.PlanOf.{IsPlan};
ghost use Rattle.cv_desk.specs.Openings.{IsUpTo, SettingOf};
ghost use Rattle.cv_desk.specs.Standing.{IsClosed};
ghost use Rattle.cv_histories.specs.Legal.{IsLegal, IsWhole};
ghost use Rattle.cv_worker.specs.Instances.{HasMetEnd, InstanceOf, IsOfSetting, IsReady};
ghost use Rattle.cv_worker.specs.Seats.{AreAllOf, AreOf, IsInstanceOf, IsStart};

use crate::instance::Instance;
use crate::rounds::round as run_round;
use cv_base::{NoMemory, Plan};
use cv_core::Book;
use cv_desk::{Draft, Office, Pass};
use cv_edge::Gate;
use cv_office::Named;
use std::alloc::Global;
use std::marker::Brand;
use std::sync::Wait;
use std::thread;
use std::thread::Threads;

/// Runs all rounds of a plan, each by as many instances as the plan has workers: every run of the plan
/// has its entry in the book, and the history is legal, however the instances interleave
/// (docs/REPAIR.md, "Instances").
#[tactic(auto, using(crate::proofs::Whole::none_up_to, crate::proofs::Whole::one_round_more, crate::proofs::Whole::whole_up_to))]
pub fn community<R: Threads + Wait + Sync, G: Gate>(
    rt: &R,
    alloc: Global,
    plan: Plan,
    gate: &G,
) -> Result<Book, NoMemory>
    ensures plan { IfOk result (λ b. b.plan ≡ plan) }
    ensures legal { IfOk result (λ b. IsLegal b.plan b.past) }
    ensures whole { IfOk result (λ b. IsWhole b.plan b.past) }
{
    let mut book = Book::make(alloc, plan)?;
    for round in 0..rounds_of(book.plan()) {
        book = one_round(rt, alloc, book, round, gate)?;
    }
    let _legal = book.manager();
    Ok(book)
}

/// Runs one round of a book's plan, where the book has the entries of all runs of the earlier rounds
/// and no others: the round's entries stand behind them, and no others.
pub fn one_round<R: Threads + Wait + Sync, G: Gate>(
    rt: &R,
    alloc: Global,
    book: Book,
    round: u32,
    gate: &G,
) -> Result<Book, NoMemory>
    requires within { round < length book.plan.rounds }
    requires up_to { IsUpTo book.plan round book.past }
    ensures { IfOk result (λ b. IsClosed (record { plan = book.plan; past = book.past; round = round }) b) }
{
    let plan = book.plan().copied(alloc)?;
    match Draft::make(alloc, book, round) {
        Ok(draft) => in_office::<Brand, R, G>(rt, alloc, &plan, draft, round, gate),
        Err(_) => Err(NoMemory),
    }
}

/// Runs the round of a draft, at the office that `N` names.
fn in_office<N: Named + Send + Sync, R: Threads + Wait + Sync, G: Gate>(
    rt: &R,
    alloc: Global,
    plan: &Plan,
    draft: Draft,
    round: u32,
    gate: &G,
) -> Result<Book, NoMemory>
    requires named { draft.table ≡ N.table }
    requires plan { draft.setting.plan ≡ plan.now }
    requires round { draft.setting.round ≡ round }
    ensures { IfOk result (λ b. IsClosed draft.setting b) }
{
    match Office::<N>::make(alloc, draft) {
        Ok(made) => close(rt, alloc, plan, made.0, made.1, round, gate),
        Err(_) => Err(NoMemory),
    }
}

/// Seats the passes of an office, runs its round, and closes it.
fn close<N: Named + Send + Sync, R: Threads + Wait + Sync, G: Gate>(
    rt: &R,
    alloc: Global,
    plan: &Plan,
    office: Office<N>,
    passes: Vec<Pass<N>>,
    round: u32,
    gate: &G,
) -> Result<Book, NoMemory>
    requires new { (s : SettingOf) × IsStart s plan.now round passes.items }
    ensures { IfOk result (λ b. (s : SettingOf) → IsStart s plan.now round passes.items → IsClosed s b) }
{
    limits(plan);
    let instances = instances_for(rt, alloc, plan, passes)?;
    let ended = run_each(rt, alloc, plan, round, &office, instances, gate)?;
    let passes = passes_of(alloc, ended)?;
    Ok(office.close(passes))
}

/// Runs a round's instances, and hands them back.
fn run_each<N: Named + Send + Sync, R: Threads + Wait + Sync, G: Gate>(
    rt: &R,
    alloc: Global,
    plan: &Plan,
    round: u32,
    office: &Office<N>,
    mut instances: Vec<Instance<N>>,
    gate: &G,
) -> Result<Vec<Instance<N>>, NoMemory>
    requires ready { AllByRecursion (IsReady plan.now round) instances.items }
    ensures count { IfOk result (λ ended. length ended.items ≡ length instances.items) }
    ensures end { IfOk result (λ ended. (s : SettingOf) → AllByRecursion (IsOfSetting s) instances.items → AllByRecursion (HasMetEnd s) ended.items) }
{
    run_round(
        rt,
        alloc,
        plan,
        round,
        office,
        instances.as_mut_slice(),
        gate,
    )?;
    Ok(instances)
}

/// An instance for each pass, which is seated. They are made side by side, since to clear the memory of
/// an arena takes milliseconds.
fn instances_for<N: Named + Send + Sync, R: Threads + Sync>(
    rt: &R,
    alloc: Global,
    plan: &Plan,
    passes: Vec<Pass<N>>,
) -> Result<Vec<Instance<N>>, NoMemory>
    ensures { IfOk result (λ instances. AreOf plan.now passes.items instances.items) }
{
    let made = thread::map_vec(
        rt,
        passes,
        &|pass: Pass<N>| -> Result<Instance<N>, NoMemory>
            ensures { IfOk result (IsInstanceOf plan.entry.now pass) }
        { instance_for(alloc, plan, pass) },
    )?;
    all_made(alloc, made)
}

/// An instance in which a pass is seated.
fn instance_for<N: Named>(
    alloc: Global,
    plan: &Plan,
    pass: Pass<N>,
) -> Result<Instance<N>, NoMemory>
    ensures { IfOk result (IsInstanceOf plan.now pass) }
{
    let mut instance = Instance::make(alloc, plan)?;
    instance.seat(pass);
    Ok(instance)
}

/// The instances, where each was made.
#[tactic(auto, using(crate::proofs::Seating::one_made, crate::proofs::Seating::none_made))]
fn all_made<N: Named>(
    alloc: Global,
    made: Vec<Result<Instance<N>, NoMemory>>,
) -> Result<Vec<Instance<N>>, NoMemory>
    ensures { IfOk result (λ instances. AreAllOf made.items instances.items) }
{
    let mut instances = Vec::new(alloc);
    for instance in made {
        instances.push(instance?)?;
    }
    Ok(instances)
}

/// The passes that are seated in instances, in order.
fn passes_of<N: Named>(alloc: Global, instances: Vec<Instance<N>>) -> Result<Vec<Pass<N>>, NoMemory>
    ensures { IfOk result (λ passes. passes.items ≡ filter_map (λ (i : InstanceOf). i.pass) instances.items) }
{
    let mut passes = Vec::new(alloc);
    for instance in instances {
        push_pass(&mut passes, instance)?;
    }
    Ok(passes)
}

/// Appends the pass of an instance, if one is seated.
fn push_pass<N: Named>(passes: &mut Vec<Pass<N>>, instance: Instance<N>) -> Result<(), NoMemory>
    ensures { OnOk result (passes.new.items ≡ passes.old.items ++ option_to_list instance.pass) }
{
    if let Some(pass) = instance.into_pass() {
        passes.push(pass)?;
    }
    Ok(())
}

/// A plan's limits are known where a field of it is read.
fn limits(plan: &Plan)
    ensures { IsPlan plan.now }
{
    let _workers = plan.workers;
}

/// The number of rounds of a plan.
fn rounds_of(plan: &Plan) -> u32
    ensures { result ≡ length plan.now.rounds }
{
    plan.rounds.as_slice().len() as u32
}
