//! Pieces that are kept on a disk: after a crash at any moment those that were kept are there, and
//! nothing else is (docs/FORMATS.md, "The kept file").
#![tactic(auto)]

mod errors;
mod framing;
mod keeping;
mod reading;
mod recovery;
#[cfg(test)]
mod tests;

pub use errors::{KeepEnd, KeepFail};
pub use keeping::Keep;
pub use recovery::recover;
