ghost use Rattle.std.specs.Prelude.{◌≡◌, ◌<◌, ◌≤◌, ◌+◌, length, reverse, slice_get};
ghost use Rattle.std.specs.List.{list_all, range_with_len};
ghost use Rattle.cv_histories.specs.Runs.{runs};
ghost use Rattle.cv_histories.specs.World.{current_round, is_posted, numbers_of};

use cv_base::{Entry, Plan};
use cv_job::runs_in;
use cv_laws::runs_are_counted;

/// The first round of a plan with a run that is not posted, after a history.
pub(crate) fn current_round(plan: &Plan, history: &[Entry]) -> Option<u32>
    ensures { result ≡ current_round plan.now (reverse history.now) }
{
    for round in 0..plan.rounds.as_slice().len() as u32 {
        if !is_over(plan, history, round) {
            return Some(round);
        }
    }
    None
}

/// Whether each run of a round is posted.
fn is_over(plan: &Plan, history: &[Entry], round: u32) -> bool
    requires { round < length plan.now.rounds }
    ensures { result ≡ list_all (is_posted (reverse history.now)) (numbers_of plan.now round) }
{
    let numbers = numbers_of(plan, round);
    for number in numbers.first..numbers.first + numbers.count {
        if !is_posted(history, number) {
            return false;
        }
    }
    true
}

/// Whether a run is posted.
fn is_posted(history: &[Entry], number: u32) -> bool
    ensures { result ≡ is_posted (reverse history.now) number }
{
    history.iter().any(|entry| entry.run == number)
}

/// The run of a round with this place among the round's runs, from 0.
pub(crate) fn run_of(plan: &Plan, round: u32, place: u32) -> Option<u32>
    requires { round < length plan.now.rounds }
    ensures { result ≡ slice_get (numbers_of plan.now round) place }
{
    let numbers = numbers_of(plan, round);
    if place < numbers.count {
        Some(numbers.first + place)
    } else {
        None
    }
}

/// The numbers of a round's runs, which lie side by side.
#[derive(Drop)]
struct Numbers {
    first: u32,
    count: u32,
}

fn numbers_of(plan: &Plan, round: u32) -> Numbers
    requires { round < length plan.now.rounds }
    ensures numbers { numbers_of plan.now round ≡ range_with_len result.first result.count }
    ensures within { result.first + result.count ≤ length (runs plan.now) }
    ensures few { length (runs plan.now) ≤ 1024 }
{
    runs_are_counted();
    let rounds = plan.rounds.as_slice();
    let first = runs_in(&rounds[..round as usize]);
    let count = rounds[round as usize].inputs.as_slice().len() as u32;
    Numbers { first, count }
}
