//! Reads an ELF image: a statically linked 32-bit RISC-V executable
//! (docs/FORMATS.md, "ELF image").
#![tactic(auto)]

mod fields;
mod file_header;
mod header;
mod loading;
mod reading;
mod segments;
mod table;
mod text;

pub use file_header::is_elf;
pub use reading::elf;

#[cfg(test)]
mod tests;
