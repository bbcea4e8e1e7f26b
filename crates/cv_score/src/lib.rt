//! The scores of a case's repairs, from the entries that were charged (docs/REPAIR.md, "Scores").
#![tactic(auto)]

mod scores;

pub use scores::Scores;

/// The most entries that can be charged: a plan has no more runs.
pub const MOST_CHARGED: u32 = 1024;

#[cfg(test)]
mod tests;
