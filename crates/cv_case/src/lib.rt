//! How a failure opens a case: the invariants that may go with it (docs/REPAIR.md, "Cases").
#![tactic(auto)]

mod nearest;
mod opening;

pub use opening::open_case;

#[cfg(test)]
mod tests;
