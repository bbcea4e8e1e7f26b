//! The classes of a case's candidates, from the checked failures that were counted
//! (docs/REPAIR.md, "Classes").
#![tactic(auto)]

mod classes;

pub use classes::Classes;

#[cfg(test)]
mod tests;
