ghost use Rattle.std.specs.Prelude.{◌≡◌, IfOk, string_bytes};
ghost use Rattle.cv_base.specs.PlanText.{job_line, line_with};

use crate::count::runs_in;
use cv_base::{NoMemory, Plan};
use std::alloc::Global;

/// The line of a report that tells a plan's numbers, without its line feed (docs/FORMATS.md,
/// "Report").
pub fn job_line(alloc: Global, plan: &Plan) -> Result<String, NoMemory>
    ensures { IfOk result (λ s. string_bytes s ≡ job_line plan.now) }
{
    let runs = runs_in(plan.rounds.as_slice());
    line_of(
        alloc,
        plan.workers,
        plan.checks,
        plan.budget,
        plan.rounds.len(),
        runs,
    )
}

fn line_of(
    alloc: Global,
    workers: u32,
    checks: u32,
    budget: u32,
    rounds: usize,
    runs: u32,
) -> Result<String, NoMemory>
    ensures { IfOk result (λ s. string_bytes s ≡ line_with workers checks budget rounds runs) }
{
    let line = format!(in alloc;
        "job workers {workers} checks {checks} budget {budget} rounds {rounds} runs {runs}"
    )?;
    Ok(line)
}
