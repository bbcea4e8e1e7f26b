ghost use Rattle.std.specs.Prelude.{◌≡◌, ◌+◌, ◌*◌, ◌≤◌, length};
ghost use Rattle.cv_elf.specs.Fields.{e_phoff};
ghost use Rattle.cv_elf.specs.Headers.{header_at, is_dynamic, is_executable, is_loadable, is_outside, is_readable, is_writable, share_a_byte};
ghost use Rattle.cv_elf.specs.Loading.{text_base_of};

use crate::fields::{E_PHOFF, word};
use cv_base::{HEAP_START, SEGMENTS_START};

/// The size of a program header in the file, in bytes.
pub const HEADER_SIZE: u16 = 32;

const PT_LOAD: u32 = 1;

const PT_DYNAMIC: u32 = 2;

const PT_INTERP: u32 = 3;

const PF_X: u32 = 1;

const PF_W: u32 = 2;

const PF_R: u32 = 4;

/// A program header, as the file gives it.
///
/// Source: System V ABI, chapter 5, "Program Header".
#[derive(Clone, Copy, Debug)]
pub struct ProgramHeader {
    /// The header's place among the program headers, from 0.
    pub place: u32,
    /// `p_type`.
    pub kind: u32,
    /// `p_offset`: the place of the segment's first byte in the file.
    pub offset: u32,
    /// `p_vaddr`: the address of the segment's first byte.
    pub address: u32,
    /// `p_filesz`: how many bytes the file holds.
    pub file_size: u32,
    /// `p_memsz`: how many bytes the segment has in memory.
    pub memory_size: u32,
    /// `p_flags`.
    pub flags: u32,
}

/// The program header at a place of the table.
#[tactic(auto, unfolding(crate::specs::Headers::header_at))]
pub fn read_header(bytes: &[u8], place: u32) -> ProgramHeader
    requires header { 52 ≤ length bytes.now }
    requires inside { e_phoff bytes.now + 32 * place + 32 ≤ length bytes.now }
    ensures { result ≡ header_at bytes.now place }
{
    let at = word(bytes, E_PHOFF) as usize + usize::from(HEADER_SIZE) * place as usize;
    ProgramHeader {
        place,
        kind: word(bytes, at),
        offset: word(bytes, at + 4),
        address: word(bytes, at + 8),
        file_size: word(bytes, at + 16),
        memory_size: word(bytes, at + 20),
        flags: word(bytes, at + 24),
    }
}

impl ProgramHeader {
    /// Whether it has some memory to load.
    pub fn is_loadable(&self) -> bool
        ensures { result ≡ is_loadable self.now }
    {
        self.kind == PT_LOAD && self.memory_size != 0
    }

    /// Whether it asks for dynamic linking.
    pub fn is_dynamic(&self) -> bool
        ensures { result ≡ is_dynamic self.now }
    {
        self.kind == PT_DYNAMIC || self.kind == PT_INTERP
    }

    pub fn is_executable(&self) -> bool
        ensures { result ≡ is_executable self.now }
    {
        self.flags & PF_X != 0
    }

    pub fn is_writable(&self) -> bool
        ensures { result ≡ is_writable self.now }
    {
        self.flags & PF_W != 0
    }

    pub fn is_readable(&self) -> bool
        ensures { result ≡ is_readable self.now }
    {
        self.flags & PF_R != 0
    }

    /// The end of its bytes in the file; a sum that no file reaches does not wrap.
    pub fn file_end(&self) -> u64
        ensures { result ≡ self.now.offset + self.now.file_size }
    {
        u64::from(self.offset) + u64::from(self.file_size)
    }

    /// The end of its bytes in memory, which may be above 2^32.
    pub fn memory_end(&self) -> u64
        ensures { result ≡ self.now.address + self.now.memory_size }
    {
        u64::from(self.address) + u64::from(self.memory_size)
    }

    /// Whether it reaches past the file, past its own memory or past the range for segments.
    pub fn is_outside(&self, file_length: u64) -> bool
        ensures { result ≡ is_outside file_length self.now }
    {
        self.file_end() > file_length
            || self.file_size > self.memory_size
            || self.address < SEGMENTS_START
            || self.memory_end() > u64::from(HEAP_START)
    }

    /// Whether two segments share a byte of memory.
    pub fn overlaps(&self, other: &ProgramHeader) -> bool
        ensures { result ≡ share_a_byte self.now other.now }
    {
        u64::from(self.address) < other.memory_end() && u64::from(other.address) < self.memory_end()
    }

    /// The first multiple of 4 at or above its address.
    pub fn text_base(&self) -> u32
        requires { self.now.address ≤ 0x400000 }
        ensures { result ≡ text_base_of self.now }
    {
        (self.address + 3) / 4 * 4
    }
}
