//! Runs of a plan in flight, turn by turn, and runs in an arena: learn runs with what they saw, and
//! live runs under the patches that they adopt, turn by turn or whole, with a record of each
//! (docs/REPAIR.md, "Learning" and "Patched runs").
#![tactic(auto)]

mod arena;
mod ending;
mod flying;
mod in_flight;
mod look;
mod patched;
mod plans;
mod record;
mod sites;
mod turns;

pub use arena::Arena;
pub use in_flight::InFlight;
pub use plans::{SharedPlan, mode_of};
pub use record::Record;
