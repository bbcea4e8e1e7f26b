//! RV32I instructions: what a word means, the word of an instruction, and what an instruction uses.
//!
//! The source is the RISC-V Unprivileged ISA manual, "RV32I Base Integer Instruction Set", and its
//! instruction listing "RV32I Base Instruction Set". Nothing here takes memory.
#![tactic(auto)]

mod decoder;
mod encoder;
mod instruction;
mod names;
mod operation;
mod registers;
mod table;
mod uses;
mod words;

pub use decoder::decode;
pub use encoder::encode;
pub use instruction::Inst;
pub use names::{name, named, names_are_read_back, words_of_instructions};
pub use operation::{Format, Op};
pub use registers::RegSet;
pub use table::{no_meaning_without_row, one_row_at_most, worked_examples};
pub use uses::{LinkKind, is_transfer, link_kind, reads};
