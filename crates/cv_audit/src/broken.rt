ghost use Rattle.std.specs.Prelude.{◌≡◌, ◌↔◌, None, IfSome, IsTrue, reverse};
ghost use Rattle.cv_audit.specs.Clauses.{Breaks, IsOfPlan};
ghost use Rattle.cv_audit.specs.Floors.{AreFloors, PassesFirst};
ghost use Rattle.cv_histories.specs.Versions.{newest};

use crate::following::{are_above_floors, are_rounds_done, do_runs_rise, is_own_run};
use crate::rows::{are_at_most, never_fall};
use cv_base::{Entry, Plan};
use cv_exec::mode_of;

/// Whether the entry's run is one of the plan, in that run's mode.
fn is_of_plan(plan: &Plan, entry: &Entry) -> bool
    ensures { IsTrue result ↔ IsOfPlan plan.now entry.now }
{
    mode_of(plan, entry.run) == Some(entry.mode)
}

/// The clause that an entry breaks first after a history, as far as that can be told without its run;
/// None where it passes all tests that come before the run is run again. `floors` has the newest
/// version after each entry, and `top` is that after all.
pub(crate) fn first_broken(
    plan: &Plan,
    history: &[Entry],
    floors: &[u32],
    top: u32,
    entry: &Entry,
) -> Option<u32>
    requires floors { AreFloors plan.now (reverse history.now) floors.now }
    requires newest { top ≡ newest plan.now (reverse history.now) }
    ensures broken { IfSome result (Breaks plan.now (reverse history.now) entry.now) }
    ensures none { result ≡ None → PassesFirst plan.now (reverse history.now) entry.now }
{
    if !is_own_run(plan, history, entry) {
        return Some(1);
    }
    if !is_of_plan(plan, entry) {
        return Some(4);
    }
    if !are_rounds_done(plan, history, entry) {
        return Some(2);
    }
    if !do_runs_rise(plan, history, entry) {
        return Some(3);
    }
    let rows = entry.adopted.as_slice();
    if !are_at_most(top, rows) {
        return Some(7);
    }
    if !never_fall(rows) {
        return Some(5);
    }
    if !are_above_floors(plan, history, floors, entry) {
        return Some(6);
    }
    None
}
