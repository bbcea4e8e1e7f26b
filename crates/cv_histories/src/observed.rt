ghost use Rattle.std.specs.Prelude.{◌≡◌};
ghost use Rattle.cv_histories.specs.Seen.{is_observed};

use cv_base::{End, Entry, Mode};

/// Whether an entry is of a run that is learned from: one that ended by exit and, where it is a live
/// run, in which nothing fired (docs/REPAIR.md, "Learning").
pub fn is_observed(entry: &Entry) -> bool
    ensures { result ≡ is_observed entry.now }
{
    match (entry.end, entry.mode) {
        (End::Exit { .. }, Mode::Learn) => true,
        (End::Exit { .. }, Mode::Live) => entry.fired.as_slice().is_empty(),
        _ => false,
    }
}
