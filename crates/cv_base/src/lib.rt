//! The plain data of the project: lists and text that contracts see as lists, registers, images,
//! ends of runs and plans. Nothing here runs anything.
#![tactic(auto)]

mod address;
mod cases;
mod ends;
mod entries;
mod image;
mod invariants;
mod items;
mod memory;
mod patches;
mod plan;
mod registers;
mod text;

pub use address::{Address, Addresses};
pub use cases::{Case, Change, Class, Repair};
pub use ends::{CrashCause, End, FailureId, FailureKind};
pub use entries::{Adopted, Entry, FiredRow, Observation, TallyRow};
pub use image::{Image, ImageFail, ImageFault, Region, Segment, TextRange};
pub use invariants::Invariant;
pub use items::Items;
pub use memory::NoMemory;
pub use patches::{Action, Patch, PatchTable};
pub use plan::{Mode, Plan, Round};
pub use registers::Regs;
pub use text::Text;

/// The lowest address that a segment may have (docs/MACHINE.md, "Regions").
pub const SEGMENTS_START: u32 = 0x0000_1000;
/// The first address of the heap, and the end of the range for segments.
pub const HEAP_START: u32 = 0x0040_0000;
/// The first address of the stack, and the end of the heap.
pub const STACK_START: u32 = 0x0070_0000;
/// The end of the stack, and the stack pointer that a run starts with.
pub const STACK_END: u32 = 0x0080_0000;
