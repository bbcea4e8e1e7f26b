//! The memory of a run: its bytes, and which of them can be read and written
//! (docs/MACHINE.md, "Regions").
#![tactic(auto)]

mod bytes;
mod laws;
mod pages;
mod regions;
mod segments;
mod space;
#[cfg(test)]
mod tests;

pub use laws::each_address_tests_each;
pub use space::{MemFault, Space};
