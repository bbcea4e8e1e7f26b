//! What a journal of runs says: cases, classes, repairs, scores, versions, when a history is
//! legal, and its report; as definitions alone (docs/REPAIR.md).
#![tactic(auto)]

mod laws;
mod observed;

pub use laws::{legal_before, versions_with_one_more};
pub use observed::is_observed;

/// The most cases that a history opens.
pub const MOST_CASES: u32 = 64;
/// The most candidates that a case keeps.
pub const MOST_CANDIDATES: u32 = 64;
