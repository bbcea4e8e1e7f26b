ghost use Rattle.std.specs.Prelude.{◌≡◌, ◌<◌, ◌++◌, [], List, Some, length, option_map, string_bytes, IfOk, OnOk};
ghost use Rattle.std.specs.List.{flat_map};
ghost use Rattle.cv_base.specs.declared.entries.Entry.{Entry};
ghost use Rattle.cv_base.specs.declared.entries.Observation.{Observation};
ghost use Rattle.cv_base.specs.InvariantText.{invariant_text};
ghost use Rattle.cv_blocks.specs.TextMap.{text_only};
ghost use Rattle.cv_exec.specs.LearnRun.{IsLearnRun, entry_by, learn_steps};
ghost use Rattle.cv_histories.specs.OtherTexts.{infer_lines, infer_text, inferred, seen_in_learn_run};
ghost use Rattle.cv_histories.specs.Report.{line};
ghost use Rattle.cv_histories.specs.Runs.{Run, run_at, runs};
ghost use Rattle.cv_histories.specs.Seen.{is_exit};
ghost use Rattle.cv_observe.specs.StandsFor.{StandsFor};
ghost use Rattle.cv_runs.specs.Learned.{observations};
ghost use Rattle.clearview.specs.Inferring.{seen_in_run_at};

use cv_base::{End, Invariant, Items, Mode, NoMemory, Plan};
use cv_blocks::TextMap;
use cv_exec::{Arena, mode_of};
use cv_job::runs_in;
use cv_laws::runs_are_counted;
use cv_observe::Summary;
use std::alloc::Global;

/// What `infer` writes of a plan, whose live runs it leaves out (docs/FORMATS.md, "Texts of the
/// commands").
pub fn infer_text(alloc: Global, plan: &Plan) -> Result<String, NoMemory>
    ensures { IfOk result (λ s. string_bytes s ≡ infer_text plan.now) }
{
    let invariants = inferred(alloc, plan)?;
    infer_lines(alloc, invariants.as_slice())
}

/// The invariants that are learned of the learn runs of a plan, in order.
fn inferred(alloc: Global, plan: &Plan) -> Result<Items<Invariant>, NoMemory>
    ensures { IfOk result (λ invariants. invariants ≡ inferred plan.now) }
{
    let map = TextMap::make(alloc, &plan.image)?;
    let mut merged = Summary::make(alloc, &map)?;
    let mut arena = Arena::make(alloc, plan)?;
    learn_runs(alloc, plan, &mut arena, &mut merged)?;
    merged.learned(alloc)
}

/// Adds to an empty summary what is seen in the runs of a plan that are learned from.
#[tactic(auto, using(crate::proofs::Inferring::one_more, crate::proofs::Inferring::all_runs))]
fn learn_runs(
    alloc: Global,
    plan: &Plan,
    arena: &mut Arena,
    merged: &mut Summary,
) -> Result<(), NoMemory>
    requires plan { plan.now ≡ arena.old.plan }
    requires text { merged.old.text ≡ text_only plan.now.image }
    requires empty { StandsFor merged.old [] }
    ensures seen { OnOk result (StandsFor merged.new (flat_map (seen_in_learn_run plan.now) (runs plan.now))) }
    ensures text { merged.new.text ≡ merged.old.text }
{
    for run in 0..runs_of(plan) {
        learn_run(alloc, plan, run, arena, merged)?;
    }
    Ok(())
}

/// Adds to a summary what is seen in the run of a plan, if it is one that is learned from.
fn learn_run(
    alloc: Global,
    plan: &Plan,
    run: u32,
    arena: &mut Arena,
    merged: &mut Summary,
) -> Result<(), NoMemory>
    requires plan { plan.now ≡ arena.old.plan }
    requires worker { 0 < plan.now.workers }
    requires text { merged.old.text ≡ text_only plan.now.image }
    ensures seen { OnOk result ((seen : List Observation) → StandsFor merged.old seen → StandsFor merged.new (seen ++ seen_in_run_at plan.now run)) }
    ensures text { merged.new.text ≡ merged.old.text }
    ensures plan { arena.new.plan ≡ arena.old.plan }
{
    if mode_of(plan, run) != Some(Mode::Learn) {
        return Ok(());
    }
    let end = end_of_run(alloc, plan, run, arena)?;
    if is_exit(end) {
        merged.merge(arena.summary())?;
    }
    Ok(())
}

/// Makes a learn run in the arena: how it ended.
fn end_of_run(alloc: Global, plan: &Plan, run: u32, arena: &mut Arena) -> Result<End, NoMemory>
    requires plan { plan.now ≡ arena.old.plan }
    requires learns { IsLearnRun plan.now run }
    requires worker { 0 < plan.now.workers }
    ensures end { IfOk result (λ end. option_map (λ (e : Entry). e.end) (entry_by plan.now run 0) ≡ Some end) }
    ensures seen { OnOk result (StandsFor arena.new.summary (observations (learn_steps plan.now run))) }
    ensures plan { arena.new.plan ≡ arena.old.plan }
{
    let record = arena.learn(alloc, plan, run, 0)?;
    Ok(record.entry().end)
}

/// The number of runs of a plan, which has a worker for them.
fn runs_of(plan: &Plan) -> u32
    ensures count { result ≡ length (runs plan.now) }
    ensures worker { 0 < plan.now.workers }
{
    runs_are_counted();
    runs_in(plan.rounds.as_slice())
}

fn is_exit(end: End) -> bool
    ensures { result ≡ is_exit end }
{
    matches!(end, End::Exit { .. })
}

/// A line for each invariant, and one with their number.
fn infer_lines(alloc: Global, invariants: &[Invariant]) -> Result<String, NoMemory>
    ensures { IfOk result (λ s. string_bytes s ≡ infer_lines invariants.now) }
{
    let mut text = String::new(alloc);
    for invariant in invariants {
        let line = invariant_line(alloc, invariant)?;
        text.push_str(line.as_str())?;
    }
    let count = invariants.len();
    let last = format!(in alloc; "learned {count}\n")?;
    text.push_str(last.as_str())?;
    Ok(text)
}

fn invariant_line(alloc: Global, invariant: &Invariant) -> Result<String, NoMemory>
    ensures { IfOk result (λ s. string_bytes s ≡ line (invariant_text invariant.now)) }
{
    Ok(format!(in alloc; "{invariant}\n")?)
}
