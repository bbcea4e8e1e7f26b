//! The plan that `drill` makes of a number: runs of the calling program, with live inputs that a
//! generator chooses (docs/FORMATS.md, "The generator of drill").
#![tactic(auto)]

mod inputs;
mod planning;
mod program;

pub use planning::drill_plan;
pub use program::spelled;

#[cfg(test)]
mod tests;
