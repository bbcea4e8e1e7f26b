ghost use Rattle.std.specs.Prelude.{◌≡◌, ◌+◌, ◌*◌, ◌<◌, ◌≤◌, length, OnOk};
ghost use Rattle.cv_elf.specs.Fields.{e_phoff, e_phnum};
ghost use Rattle.cv_elf.specs.Tests.{header_tests, is_elf, is_rv32_exec, are_headers_outside};
ghost use Rattle.cv_elf.specs.Passes.{Passes};

use crate::fields::{
    E_FLAGS, E_MACHINE, E_PHENTSIZE, E_PHNUM, E_PHOFF, E_TYPE, EI_CLASS, EI_DATA, EI_VERSION,
    ELF_HEADER_SIZE, half, word,
};
use crate::header::HEADER_SIZE;
use cv_base::{ImageFail, ImageFault};

const MAGIC: [u8; 4] = [0x7f, b'E', b'L', b'F'];

const CLASS_32: u8 = 1;

const LITTLE_ENDIAN: u8 = 1;

const CURRENT_VERSION: u8 = 1;

const ET_EXEC: u16 = 2;

const EM_RISCV: u16 = 243;

const EF_RISCV_RVC: u32 = 1;

/// The first five tests, on the file's header.
#[tactic(auto, unfolding(crate::specs::Tests::header_tests))]
pub fn check_header(bytes: &[u8]) -> Result<(), ImageFail>
    ensures passes { Passes (header_tests bytes.now) result }
    ensures header { OnOk result (52 ≤ length bytes.now) }
    ensures table { OnOk result (0 < e_phnum bytes.now → e_phoff bytes.now + 32 * e_phnum bytes.now ≤ length bytes.now) }
{
    if bytes.len() < ELF_HEADER_SIZE {
        return Err(ImageFail::Refused(ImageFault::Short));
    }
    if !is_elf(bytes) {
        return Err(ImageFail::Refused(ImageFault::NotElf));
    }
    if !is_rv32_exec(bytes) {
        return Err(ImageFail::Refused(ImageFault::NotRv32Exec));
    }
    if word(bytes, E_FLAGS) & EF_RISCV_RVC != 0 {
        return Err(ImageFail::Refused(ImageFault::Compressed));
    }
    if are_headers_outside(bytes) {
        return Err(ImageFail::Refused(ImageFault::HeadersOutside));
    }
    Ok(())
}

/// Whether a file begins with the four bytes 7F 45 4C 46, by which an ELF file is told from a flat
/// image.
pub fn is_elf(bytes: &[u8]) -> bool
    ensures { result ≡ is_elf bytes.now }
{
    bytes.starts_with(&MAGIC)
}

/// Whether the header is that of a 32-bit RISC-V executable in little-endian order.
fn is_rv32_exec(bytes: &[u8]) -> bool
    requires { 52 ≤ length bytes.now }
    ensures { result ≡ is_rv32_exec bytes.now }
{
    bytes[EI_CLASS] == CLASS_32
        && bytes[EI_DATA] == LITTLE_ENDIAN
        && bytes[EI_VERSION] == CURRENT_VERSION
        && half(bytes, E_TYPE) == ET_EXEC
        && half(bytes, E_MACHINE) == EM_RISCV
        && (half(bytes, E_PHNUM) == 0 || half(bytes, E_PHENTSIZE) == HEADER_SIZE)
}

/// Whether there are program headers, and they reach past the file's end.
fn are_headers_outside(bytes: &[u8]) -> bool
    requires { 52 ≤ length bytes.now }
    ensures { result ≡ are_headers_outside bytes.now }
{
    let count = half(bytes, E_PHNUM);
    let end = u64::from(word(bytes, E_PHOFF)) + u64::from(HEADER_SIZE) * u64::from(count);
    count != 0 && end > bytes.len() as u64
}
