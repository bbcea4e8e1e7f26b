ghost use Rattle.std.specs.Prelude.{◌≡◌, None, true, map, IfOk, IfSome};
ghost use Rattle.cv_audit.specs.Rerun.{IsAgain, IsNotHonest, MayRun};
ghost use Rattle.cv_exec.specs.LearnRun.{IsLearnRun};
ghost use Rattle.cv_exec.specs.LiveRun.{IsLiveRun};
ghost use Rattle.cv_exec.specs.RecordOf.{IsHonestUnder};
ghost use Rattle.cv_histories.specs.Runs.{run_at};
ghost use Rattle.cv_histories.specs.Seen.{is_observed, observed_of};
ghost use Rattle.cv_observe.specs.StandsFor.{StandsFor};

use crate::one_honest_entry;
use crate::rows::are_joined;
use crate::same::same;
use crate::scripted::{Scripted, Unwatched};
use cv_base::{Entry, Mode, NoMemory, PatchTable, Plan};
use cv_exec::{Arena, Record, mode_of};
use std::alloc::Global;
use std::sync::Arc;

/// The record of the entry's run, run again under the versions that the entry says, where the entry is
/// that of this run; None exactly where it is not honest. Where the run is learned from, the
/// arena's summary is of it.
pub(crate) fn run_again(
    alloc: Global,
    plan: &Plan,
    versions: &[Arc<PatchTable, Global>],
    arena: &mut Arena,
    entry: &Entry,
) -> Result<Option<Record>, NoMemory>
    requires plan { arena.old.plan ≡ plan.now }
    requires may { MayRun plan.now (map (λ t. t.value) versions.now) entry.now }
    ensures again { IfOk result (λ found. IfSome found (λ r. IsAgain plan.now (map (λ t. t.value) versions.now) entry.now r)) }
    ensures not { IfOk result (λ found. found ≡ None → IsNotHonest plan.now (map (λ t. t.value) versions.now) entry.now) }
    ensures seen { IfOk result (λ found. IfSome found (λ r. is_observed r.entry ≡ true → StandsFor arena.new.summary (observed_of plan.now (run_at plan.now r.entry.run)))) }
    ensures plan { arena.new.plan ≡ arena.old.plan }
{
    match mode_of(plan, entry.run) {
        Some(Mode::Learn) => learn_again(alloc, plan, versions, arena, entry),
        Some(Mode::Live) => live_again(alloc, plan, versions, arena, entry),
        None => unreachable!(),
    }
}

/// The same of a learn run.
fn learn_again(
    alloc: Global,
    plan: &Plan,
    versions: &[Arc<PatchTable, Global>],
    arena: &mut Arena,
    entry: &Entry,
) -> Result<Option<Record>, NoMemory>
    requires plan { arena.old.plan ≡ plan.now }
    requires may { MayRun plan.now (map (λ t. t.value) versions.now) entry.now }
    requires learns { IsLearnRun plan.now entry.now.run }
    ensures again { IfOk result (λ found. IfSome found (λ r. IsAgain plan.now (map (λ t. t.value) versions.now) entry.now r)) }
    ensures not { IfOk result (λ found. found ≡ None → IsNotHonest plan.now (map (λ t. t.value) versions.now) entry.now) }
    ensures seen { IfOk result (λ found. IfSome found (λ r. is_observed r.entry ≡ true → StandsFor arena.new.summary (observed_of plan.now (run_at plan.now r.entry.run)))) }
    ensures plan { arena.new.plan ≡ arena.old.plan }
{
    one_honest_entry();
    let _versions = versions;
    let ran = arena.learn(alloc, plan, entry.run, entry.worker)?;
    Ok(kept_if_same(ran, entry))
}

/// The same of a live run.
fn live_again(
    alloc: Global,
    plan: &Plan,
    versions: &[Arc<PatchTable, Global>],
    arena: &mut Arena,
    entry: &Entry,
) -> Result<Option<Record>, NoMemory>
    requires plan { arena.old.plan ≡ plan.now }
    requires may { MayRun plan.now (map (λ t. t.value) versions.now) entry.now }
    requires lives { IsLiveRun plan.now entry.now.run }
    ensures again { IfOk result (λ found. IfSome found (λ r. IsAgain plan.now (map (λ t. t.value) versions.now) entry.now r)) }
    ensures not { IfOk result (λ found. found ≡ None → IsNotHonest plan.now (map (λ t. t.value) versions.now) entry.now) }
    ensures seen { IfOk result (λ found. IfSome found (λ r. is_observed r.entry ≡ true → StandsFor arena.new.summary (observed_of plan.now (run_at plan.now r.entry.run)))) }
    ensures plan { arena.new.plan ≡ arena.old.plan }
{
    one_honest_entry();
    let rows = entry.adopted.as_slice();
    if !are_joined(rows) {
        return Ok(None);
    }
    let mut adopter = Scripted::make(versions, rows);
    let ran = arena.live(
        alloc,
        plan,
        entry.run,
        entry.worker,
        &mut adopter,
        &mut Unwatched,
    )?;
    Ok(kept_if_same(ran, entry))
}

/// A record, where its entry is this one.
fn kept_if_same(ran: Record, entry: &Entry) -> Option<Record>
    ensures same { IfSome result (λ r. (r ≡ ran) × (r.entry ≡ entry.now)) }
    ensures other { result ≡ None → ran.entry ≡ entry.now → ⊥ }
    ensures honest { IsHonestUnder ran.plan ran.adopted ran.entry }
{
    if same(ran.entry(), entry) {
        Some(ran)
    } else {
        None
    }
}
