//! A judge of a posted history that needs no trust in the run: each entry is tested and run again
//! under the versions that it says (docs/REPAIR.md, "Audit").
#![tactic(auto)]

mod broken;
mod following;
mod laws;
mod rerun;
mod rows;
mod same;
mod scripted;
mod verdict;

pub use following::round_of;
pub use laws::{entries_are_contained, one_honest_entry, one_more_entry, tests_are_following};
pub use verdict::{Rebuilt, Verdict, audit, missing, rebuild};
