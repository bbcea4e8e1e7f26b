//! Reads a flat image: a file that holds the words of a text and nothing else
//! (docs/FORMATS.md, "Flat image").
#![tactic(auto)]

mod reading;
mod words;

pub use reading::{FLAT_BASE, flat};
pub use words::words_in;

#[cfg(test)]
mod tests;
