//! What is learned of normal runs: a summary of observations, and the invariants that hold in all
//! of them (docs/REPAIR.md, "Learning").
#![tactic(auto)]

mod few;
mod kinds;
mod laws;
mod learning;
mod lessons;
mod numbers;
mod pairs;
mod plain;
mod point;
mod register;
mod summary;
mod table;

pub use laws::{
    distinct_numbers_of_two_lists, learned_are_at_points, learned_are_invariants,
    learned_in_any_order, least_of_two_lists, more_numbers_stay_more, pairs_of_two_lists,
    summary_in_any_order,
};
pub use plain::Plain;
pub use summary::Summary;
