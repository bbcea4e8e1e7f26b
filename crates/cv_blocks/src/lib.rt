//! Maps of a text, made once: its instructions, windows and procedures; and where blocks begin in
//! a run (docs/REPAIR.md, "Windows and procedures", "Block entries").
#![tactic(auto)]

mod entries;
mod listing;
mod procedures;
mod text_map;
mod windows;

pub use entries::EntryRule;
pub use text_map::{TextMap, segments_are_not_asked};

#[cfg(test)]
mod tests;
