//! The live blocks of the heap (docs/MACHINE.md, "Services").
#![tactic(auto)]

mod blocks;

pub use blocks::{Block, Blocks};

/// The most blocks that are live at once.
pub const MOST_BLOCKS: u32 = 4096;
