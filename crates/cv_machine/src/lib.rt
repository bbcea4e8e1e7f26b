//! The machine: an RV32I hart with its memory, heap blocks, shadow stack, input and output, of
//! which a turn is one instruction (docs/MACHINE.md).
#![tactic(auto)]

mod computing;
mod executing;
mod jumping;
mod machine;
mod moving;
mod quick;
mod quick_effects;
mod quick_jumps;
mod running;
mod serving;
mod turn;

pub use machine::Machine;
pub use running::{Stretch, run};
pub use turn::Turn;
