//! What a turn and a run of the machine are, as definitions alone (docs/MACHINE.md).
#![tactic(auto)]

/// The most bytes of output that a run keeps; what comes after is dropped.
pub const MOST_OUTPUT: u32 = 16384;
