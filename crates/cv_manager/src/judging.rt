ghost use Rattle.std.specs.Prelude.{◌≡◌, ℕ};
ghost use Rattle.std.specs.List.{list_any};
ghost use Rattle.cv_histories.specs.Classes.{is_check_of, is_checked_failure};
ghost use Rattle.cv_histories.specs.Scores.{is_enforce_of};
ghost use Rattle.cv_histories.specs.Seen.{is_failure, live_failure};
ghost use Rattle.cv_manager.specs.Journal.{EnforcesOne};
ghost use Rattle.cv_score.specs.Charged.{HasRepair, is_that};

use cv_base::{Case, End, Entry, FailureId, Mode, Patch, PatchTable};

/// The failure of a live entry that failed.
pub(crate) fn live_failure(entry: &Entry) -> Option<FailureId>
    ensures { result ≡ live_failure entry.now }
{
    match (entry.mode, entry.end) {
        (Mode::Live, End::Failure { id, .. }) => Some(id),
        _ => None,
    }
}

/// Whether a failure is this one: of the same kind, at the same pc.
pub(crate) fn is_failure(id: FailureId, failure: Option<FailureId>) -> bool
    ensures { result ≡ is_failure id failure }
{
    failure == Some(id)
}

/// Whether an entry is a checked failure of a case: a live run that failed as the case, under a last
/// version that has the case's checks.
pub(crate) fn is_checked_failure(number: u32, case: &Case, entry: &Entry, last: &PatchTable) -> bool
    ensures { result ≡ is_checked_failure number case.now (record { entry = entry.now; last = last.now }) }
{
    is_failure(case.id, live_failure(entry)) && has_checks(number, last)
}

/// Whether a table has checks of a case.
fn has_checks(number: u32, table: &PatchTable) -> bool
    ensures { result ≡ list_any (is_check_of number) table.now }
{
    table
        .patches
        .as_slice()
        .iter()
        .any(|patch| is_check_of(number, patch))
}

/// Whether a patch is a check of a case.
fn is_check_of(number: u32, patch: &Patch) -> bool
    ensures { result ≡ is_check_of number patch.now }
{
    match patch {
        Patch::Check { case, .. } => *case == number,
        Patch::Enforce { .. } => false,
    }
}

/// The repair of a case that a table enforces.
pub(crate) fn repair_in(number: u32, table: &PatchTable) -> Option<u32>
    ensures { EnforcesOne table.now → HasRepair number table.now result }
{
    for patch in table.patches.as_slice() {
        if let Some(index) = enforced_by(number, patch) {
            return Some(index);
        }
    }
    None
}

/// The repair that a patch enforces, where it is one of this case.
fn enforced_by(number: u32, patch: &Patch) -> Option<u32>
    ensures { (j : ℕ) → is_enforce_of number j patch.now ≡ is_that result j }
{
    match patch {
        Patch::Enforce { case, index, .. } if *case == number => Some(*index),
        _ => None,
    }
}
