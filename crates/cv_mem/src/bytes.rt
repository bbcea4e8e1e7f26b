ghost use Rattle.std.specs.Prelude.{◌≡◌, ℕ, ◌+◌, ◌*◌, ◌^◌, ◌<◌, ◌≤◌, length, replicate, IfOk};
ghost use Rattle.cv_mem.specs.Memory.{memory_of, loaded, stored, with_bytes, bytes_at};
ghost use Rattle.cv_mem.specs.SpaceOf.{memory_size, IsSize};

use cv_base::{NoMemory, STACK_END};
use std::alloc::Global;

/// The number of bytes of a memory.
#[tactic(auto, unfolding(crate::specs::SpaceOf::memory_size))]
#[inline]
pub fn size() -> usize
    ensures { result ≡ memory_size }
{
    STACK_END as usize
}

/// Bytes of 0.
pub fn zeros(alloc: Global, len: usize) -> Result<Vec<u8>, NoMemory>
    ensures { IfOk result (λ v. v.items ≡ replicate len 0) }
{
    let bytes = vec![in alloc; 0u8; len]?;
    Ok(bytes)
}

/// The number of 1, 2 or 4 bytes from a place on, the lowest byte first.
#[inline]
pub fn number_at(bytes: &[u8], at: usize, size: u32) -> u32
    requires sized { IsSize size }
    requires within { at + size ≤ length bytes.now }
    ensures value { result ≡ loaded (memory_of bytes.now) at size }
    ensures fits { result < 2 ^ (8 * size) }
{
    match size {
        1 => u32::from(bytes[at]),
        2 => u32::from(u16::from_le_bytes([bytes[at], bytes[at + 1]])),
        _ => u32::from_le_bytes([bytes[at], bytes[at + 1], bytes[at + 2], bytes[at + 3]]),
    }
}

/// Writes the low 1, 2 or 4 bytes of a number from a place on, the lowest byte first.
#[inline]
pub fn put_number(bytes: &mut [u8], at: usize, size: u32, value: u32)
    requires sized { IsSize size }
    requires within { at + size ≤ length bytes.old }
    ensures { memory_of bytes.new ≡ stored (memory_of bytes.old) at size value }
{
    let [first, second, third, fourth] = value.to_le_bytes();
    bytes[at] = first;
    if size == 1 {
        return;
    }
    bytes[at + 1] = second;
    if size == 2 {
        return;
    }
    bytes[at + 2] = third;
    bytes[at + 3] = fourth;
}

/// Writes bytes from a place on.
pub fn write_at(bytes: &mut [u8], at: usize, written: &[u8])
    requires { at + length written.now ≤ length bytes.old }
    ensures { memory_of bytes.new ≡ with_bytes (memory_of bytes.old) at written.now }
{
    bytes[at..at + written.len()].copy_from_slice(written);
}

/// The bytes from a place on.
#[inline]
pub fn part(bytes: &[u8], at: usize, len: usize) -> &[u8]
    requires { at + len ≤ length bytes.now }
    ensures { result.now ≡ bytes_at (memory_of bytes.now) at len }
{
    &bytes[at..at + len]
}
