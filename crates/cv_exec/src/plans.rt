ghost use Rattle.std.specs.Prelude.{◌≡◌, ◌≤◌, ◌<◌, Some, None, length, option_map, IfOk, IfSome, IsSome, MatchOption};
ghost use Rattle.cv_exec.specs.PlannedRun.{IsRunWith};
ghost use Rattle.cv_histories.specs.Runs.{Run, run_at};

use cv_base::{Mode, NoMemory, Plan};
use std::alloc::Global;
use std::marker::Model;
use std::sync::Arc;

/// A plan that an arena and its records share.
#[derive(Drop)]
pub struct SharedPlan {
    plan: Arc<Plan, Global>,
}

impl Model for SharedPlan {
    ghost use Rattle.cv_base.specs.PlanOf.{PlanOf};

    ghost Value = { PlanOf };

    ghost view = { λ s. s.plan.value };
}

impl SharedPlan {
    /// A copy of a plan, to be shared.
    pub fn make(alloc: Global, plan: &Plan) -> Result<SharedPlan, NoMemory>
        ensures { IfOk result (λ s. s ≡ plan.now) }
    {
        let plan = Arc::new(alloc, plan.copied(alloc)?)?;
        Ok(SharedPlan { plan })
    }

    /// The plan.
    pub fn get(&self) -> &Plan
        ensures { result.now ≡ self.now }
    {
        &self.plan
    }

    /// The same plan once more.
    pub fn shared(&self) -> Result<SharedPlan, NoMemory>
        ensures { IfOk result (λ s. s ≡ self.now) }
    {
        let plan = Arc::try_clone(&self.plan)?;
        Ok(SharedPlan { plan })
    }
}

/// The most turns of a run of a plan.
pub(crate) fn budget_of(plan: &Plan) -> u32
    ensures value { result ≡ plan.now.budget }
    ensures some { 1 ≤ result }
    ensures few { result ≤ 10000000 }
{
    plan.budget
}

/// The mode of a run of a plan, numbered from 0 through the rounds; None where there is no such
/// run.
pub fn mode_of(plan: &Plan, run: u32) -> Option<Mode>
    ensures { result ≡ option_map (λ (r : Run). r.mode) (run_at plan.now run) }
{
    match run_of(plan, run) {
        Some((mode, _)) => Some(mode),
        None => None,
    }
}

/// The input of a run of a plan, numbered from 0 through the rounds.
pub(crate) fn input_of(plan: &Plan, run: u32) -> &[u8]
    requires { IsSome (run_at plan.now run) }
    ensures input { option_map (λ (r : Run). r.input) (run_at plan.now run) ≡ Some result.now }
    ensures short { length result.now ≤ 65536 }
{
    match run_of(plan, run) {
        Some((_, input)) => input,
        None => unreachable!(),
    }
}

/// The mode and the input of a run of a plan.
fn run_of(plan: &Plan, run: u32) -> Option<(Mode, &[u8])>
    ensures found { MatchOption result (run_at plan.now run ≡ None) (λ found. IsRunWith found.0 found.1.now (run_at plan.now run)) }
    ensures short { IfSome result (λ found. length found.1.now ≤ 65536) }
{
    let mut left = run as usize;
    for round in plan.rounds.as_slice() {
        let inputs = round.inputs.as_slice();
        if left < inputs.len() {
            return Some((round.mode, inputs[left].as_slice()));
        }
        left -= inputs.len();
    }
    None
}
