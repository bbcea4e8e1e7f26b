ghost use Rattle.std.specs.Prelude.{◌≡◌, ◌+◌, ◌≤◌, length};
ghost use Rattle.cv_elf.specs.Fields.{half_at, word_at};

use byteorder::{ByteOrder, LittleEndian};

/// The size of an ELF header, in bytes.
pub const ELF_HEADER_SIZE: usize = 52;

// The places of the fields in an ELF header.
pub const EI_CLASS: usize = 4;

pub const EI_DATA: usize = 5;

pub const EI_VERSION: usize = 6;

pub const E_TYPE: usize = 16;

pub const E_MACHINE: usize = 18;

pub const E_ENTRY: usize = 24;

pub const E_PHOFF: usize = 28;

pub const E_FLAGS: usize = 36;

pub const E_PHENTSIZE: usize = 42;

pub const E_PHNUM: usize = 44;

/// The number in the two bytes at a place of the file.
#[tactic(auto, using(crate::proofs::Numbers::half_read))]
pub fn half(bytes: &[u8], at: usize) -> u16
    requires { at + 2 ≤ length bytes.now }
    ensures { result ≡ half_at bytes.now at }
{
    LittleEndian::read_u16(&bytes[at..])
}

/// The number in the four bytes at a place of the file.
#[tactic(auto, using(crate::proofs::Numbers::word_read))]
pub fn word(bytes: &[u8], at: usize) -> u32
    requires { at + 4 ≤ length bytes.now }
    ensures { result ≡ word_at bytes.now at }
{
    LittleEndian::read_u32(&bytes[at..])
}
