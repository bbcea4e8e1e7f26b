//! Patches at a point, what they note, and where a run gets its tables from (docs/REPAIR.md,
//! "Patches" and "Entries").
#![tactic(auto)]

mod adopting;
mod applying;
mod fired;
mod indexed;
mod laws;
mod listed;
mod tally;

pub use adopting::{Adopter, Watcher};
pub use applying::{Applied, apply};
pub use fired::Fired;
pub use indexed::{Indexed, apply_indexed};
pub use laws::set_restores;
pub use listed::Listed;
pub use tally::Tally;

#[cfg(test)]
mod tests;
