//! Reads a report back: the entry that a line is the line of, and the journal of a whole text
//! (docs/FORMATS.md, "Reading a report").
#![tactic(auto)]

mod faults;
mod laws;
mod line;
mod lists;
mod names;
mod numbers;
mod pieces;
mod report;
mod rows;
#[cfg(test)]
mod tests;
mod values;

pub use faults::{JournalFail, JournalFault};
pub use laws::{numbers_are_read_back, pieces_are_some, pieces_join_again};
pub use line::{lines_read_exactly, read_line};
pub use report::read_entries;
