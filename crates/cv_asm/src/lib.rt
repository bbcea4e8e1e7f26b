//! Assembly of RV32I and the listing of words: each is the other's inverse (docs/FORMATS.md,
//! "Assembly").
#![tactic(auto)]

mod assembler;
mod display;
mod encoder;
mod fault;
mod labels;
mod law;
mod lexer;
mod lister;
mod numbers;
mod operands;
mod shapes;

pub use assembler::assemble;
pub use fault::{AsmFail, AsmFault, LineFault};
pub use law::listings_are_read_back;
pub use lister::listing;

#[cfg(test)]
mod tests;
