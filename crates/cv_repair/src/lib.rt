//! The repairs of a case, in their order (docs/REPAIR.md, "Repairs").
#![tactic(auto)]

mod actions;

pub use actions::repairs;

#[cfg(test)]
mod tests;
