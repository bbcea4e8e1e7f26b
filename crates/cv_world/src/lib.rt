//! The world of a plan: instances that draw, enter, turn and post in any order, one event after
//! another (docs/REPAIR.md, "The world").
#![tactic(auto)]

mod draws;
mod instance;
mod world;

pub use world::{Did, Event, World};

#[cfg(test)]
mod tests;
