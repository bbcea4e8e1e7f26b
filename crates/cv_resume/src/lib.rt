//! Going on from kept rounds: what kept pieces hold, the book that they come to, and the rounds
//! behind it, each kept before the next begins (docs/FORMATS.md, "Kept rounds").
#![tactic(auto)]

mod counting;
mod faults;
mod going_on;
mod kept_run;
mod laws;
mod reading;
mod restoring;
#[cfg(test)]
mod tests;
mod writing;

pub use faults::{KeptFail, KeptFault, RestoreFail};
pub use going_on::{Resumed, resume};
pub use kept_run::run_kept;
pub use laws::{answers_are_one, rounds_join};
pub use reading::entries_of;
pub use restoring::{Restored, restore};
