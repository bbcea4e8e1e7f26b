//! Instances that take the runs of an office, each in a thread of its own, and the community of all
//! rounds of a plan: its book is legal and whole for every interleaving (docs/REPAIR.md,
//! "Instances").
#![tactic(auto)]

mod all_rounds;
mod instance;
mod rounds;
mod shift;
#[cfg(test)]
mod tests;
mod watching;

pub use all_rounds::{community, one_round};
pub use instance::Instance;
pub use rounds::round;
