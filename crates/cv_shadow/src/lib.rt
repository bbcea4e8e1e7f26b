//! The shadow stack: a frame for each call that has not returned (docs/MACHINE.md, "Link rules").
#![tactic(auto)]

mod frames;

pub use frames::{Core, Deep, Frame, Frames, PopEnd};

/// The most frames that stand at once.
pub const MOST_FRAMES: u32 = 4096;
