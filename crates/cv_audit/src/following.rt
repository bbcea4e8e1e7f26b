ghost use Rattle.std.specs.List.{AllByRecursion};
ghost use Rattle.std.specs.Prelude.{◌≡◌, ◌≢◌, ◌<◌, ◌↔◌, ℕ, IsFalse, IsSome, IsTrue, length, reverse};
ghost use Rattle.cv_audit.specs.Clauses.{AreAboveFloors, DoRunsRise, HasRun, IsOwnRun, floor_of_rounds, floor_of_worker};
ghost use Rattle.cv_audit.specs.Floors.{AreFloors, IsEarlierMissing};
ghost use Rattle.cv_base.specs.declared.entries.Entry.{Entry};
ghost use Rattle.cv_histories.specs.Legal.{EarlierRoundsDone, round_in, round_of};
ghost use Rattle.cv_histories.specs.Runs.{run_at};

use crate::rows::are_at_least;
use cv_base::{Entry, Plan};
use cv_laws::{earlier_is_below, floor_stays};

/// Whether an entry of the history has this run.
pub(crate) fn has_run(history: &[Entry], run: u32) -> bool
    ensures has { IsTrue result → HasRun (reverse history.now) run }
    ensures none { IsFalse result → AllByRecursion (λ (o : Entry). o.run ≢ run) (reverse history.now) }
{
    for earlier in history {
        if earlier.run == run {
            return true;
        }
    }
    false
}

/// Whether the entry's worker is the plan's, and no entry of the history has its run.
pub(crate) fn is_own_run(plan: &Plan, history: &[Entry], entry: &Entry) -> bool
    ensures { IsTrue result ↔ IsOwnRun plan.now (reverse history.now) entry.now }
{
    if plan.workers <= entry.worker {
        return false;
    }
    !has_run(history, entry.run)
}

/// The round of a run, counted from 0; 0 where the plan has no such run.
pub fn round_of(plan: &Plan, run: u32) -> u32
    ensures { result ≡ round_in (run_at plan.now run) }
{
    let mut left = run as usize;
    for (n, round) in plan.rounds.as_slice().iter().enumerate() {
        let inputs = round.inputs.as_slice();
        if left < inputs.len() {
            return n as u32;
        }
        left -= inputs.len();
    }
    0
}

/// Whether a run is of a round before this one, and has no entry in the history.
fn is_missing(plan: &Plan, history: &[Entry], round: u32, run: u32) -> bool
    ensures missing { IsTrue result → IsEarlierMissing plan.now (reverse history.now) round run }
    ensures there { IsFalse result → round_in (run_at plan.now run) < round → HasRun (reverse history.now) run }
{
    if round <= round_of(plan, run) {
        return false;
    }
    !has_run(history, run)
}

/// Whether every run of an earlier round than the entry's has an entry in the history.
pub(crate) fn are_rounds_done(plan: &Plan, history: &[Entry], entry: &Entry) -> bool
    requires { IsSome (run_at plan.now entry.now.run) }
    ensures { IsTrue result ↔ EarlierRoundsDone plan.now (round_of plan.now entry.now) (reverse history.now) }
{
    earlier_is_below();
    let round = round_of(plan, entry.run);
    for run in 0..entry.run {
        if is_missing(plan, history, round, run) {
            return false;
        }
    }
    true
}

/// Whether an earlier entry lets this one's run rise above its own.
fn lets_rise(plan: &Plan, earlier: &Entry, entry: &Entry) -> bool
    ensures { IsTrue result ↔ (round_of plan.now earlier.now ≡ round_of plan.now entry.now → earlier.now.worker ≡ entry.now.worker → earlier.now.run < entry.now.run) }
{
    if earlier.run < entry.run || earlier.worker != entry.worker {
        return true;
    }
    round_of(plan, earlier.run) != round_of(plan, entry.run)
}

/// Whether the entry's run is above all those of its round that its worker has in the history.
pub(crate) fn do_runs_rise(plan: &Plan, history: &[Entry], entry: &Entry) -> bool
    ensures { IsTrue result ↔ DoRunsRise plan.now (reverse history.now) entry.now }
{
    for earlier in history {
        if !lets_rise(plan, earlier, entry) {
            return false;
        }
    }
    true
}

/// The newest version after the last entry of the entry's worker; 0 where there is none. `floors` has
/// the newest version after each entry.
fn floor_of_worker(plan: &Plan, history: &[Entry], floors: &[u32], entry: &Entry) -> u32
    requires { AreFloors plan.now (reverse history.now) floors.now }
    ensures { result ≡ floor_of_worker plan.now (reverse history.now) entry.now }
{
    floor_stays();
    let _workers = plan.workers;
    let mut floor = 0;
    for k in 0..history.len() {
        if history[k].worker == entry.worker {
            floor = floors[k];
        }
    }
    floor
}

/// The newest version after the last entry of an earlier round; 0 where there is none. `floors` has
/// the newest version after each entry.
fn floor_of_rounds(plan: &Plan, history: &[Entry], floors: &[u32], entry: &Entry) -> u32
    requires { AreFloors plan.now (reverse history.now) floors.now }
    ensures { result ≡ floor_of_rounds plan.now (reverse history.now) entry.now }
{
    floor_stays();
    let round = round_of(plan, entry.run);
    let mut floor = 0;
    for k in 0..history.len() {
        if round_of(plan, history[k].run) < round {
            floor = floors[k];
        }
    }
    floor
}

/// Whether each adopted version is at least the newest one after the worker's last entry, and after
/// all earlier rounds.
pub(crate) fn are_above_floors(
    plan: &Plan,
    history: &[Entry],
    floors: &[u32],
    entry: &Entry,
) -> bool
    requires { AreFloors plan.now (reverse history.now) floors.now }
    ensures { IsTrue result ↔ AreAboveFloors plan.now (reverse history.now) entry.now }
{
    let rows = entry.adopted.as_slice();
    if !are_at_least(floor_of_worker(plan, history, floors, entry), rows) {
        return false;
    }
    are_at_least(floor_of_rounds(plan, history, floors, entry), rows)
}
