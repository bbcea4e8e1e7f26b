//! The numbers of a round's runs.
ghost use Rattle.std.specs.Prelude.{◌≡◌, ◌<◌, ◌≤◌, ◌+◌, length};
ghost use Rattle.std.specs.List.{range_with_len};
ghost use Rattle.cv_histories.specs.World.{numbers_of};

use cv_base::Plan;
use cv_job::runs_in;
use cv_laws::runs_are_counted;

/// The numbers of a round's runs, which lie side by side.
#[derive(Drop)]
pub(crate) struct Numbers {
    pub(crate) first: u32,
    pub(crate) count: u32,
}

pub(crate) fn numbers_of(plan: &Plan, round: u32) -> Numbers
    requires { round < length plan.now.rounds }
    ensures numbers { numbers_of plan.now round ≡ range_with_len result.first result.count }
    ensures few { result.first + result.count ≤ 1024 }
{
    runs_are_counted();
    let rounds = plan.rounds.as_slice();
    let first = runs_in(&rounds[..round as usize]);
    let count = rounds[round as usize].inputs.as_slice().len() as u32;
    Numbers { first, count }
}
