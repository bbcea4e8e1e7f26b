//! The cases, classes, repairs, scores, installations and versions of a history, from scratch at every
//! moment (docs/REPAIR.md, "Histories").
#![tactic(auto)]

mod decided;
mod journal;
mod judging;
mod kept;
mod laws;
mod manager;
mod posting;
mod progress;
mod tables;

pub use laws::sites_are_points;
pub use manager::{Manager, Unkept};

/// The most entries of a history: a plan has no more runs.
pub(crate) const MOST_ENTRIES: u32 = 1024;

/// The most versions: the empty table, and one more for an entry.
pub(crate) const MOST_VERSIONS: u32 = 1025;

/// The most cases of a history.
pub(crate) const MOST_CASES: u32 = cv_histories::MOST_CASES;
