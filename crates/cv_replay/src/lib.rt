//! Stepping through a posted run: the machine before any of its turns, and since which turn a register
//! or a byte has its value (docs/REPAIR.md, "Replay").
#![tactic(auto)]

mod bytes;
mod changes;
mod copies;
mod cursor;
mod laws;
mod replay;
mod script;
mod stand;
mod walk;

pub use laws::honest_is_flown;
pub use replay::{Replay, Sought};
