ghost use Rattle.std.specs.Prelude.{◌≡◌, ℕ, ◌+◌, ◌*◌, ◌/◌, ◌^◌, ◌<◌, ◌≤◌, true, false, length, replicate, IfOk};
ghost use Rattle.cv_mem.specs.Memory.{memory_of};
ghost use Rattle.cv_mem.specs.Pages.{is_written, IsKept};
ghost use Rattle.cv_mem.specs.SpaceOf.{memory_size};

use crate::bytes::{size, write_at};
use cv_base::NoMemory;
use std::alloc::Global;

/// The bytes of a page, by which is kept what a run has written.
const PAGE: usize = 4096;

/// The mark of each page of a memory, none of which was written.
pub fn unwritten(alloc: Global) -> Result<Vec<bool>, NoMemory>
    ensures length { IfOk result (λ v. 4096 * length v.items ≡ memory_size) }
    ensures marks { IfOk result (λ v. (a : ℕ) → is_written v.items a ≡ false) }
{
    let count = size() / PAGE;
    let marks = marks(alloc, count)?;
    Ok(marks)
}

fn marks(alloc: Global, count: usize) -> Result<Vec<bool>, NoMemory>
    ensures { IfOk result (λ v. v.items ≡ replicate count false) }
{
    let marks = vec![in alloc; false; count]?;
    Ok(marks)
}

/// Marks the page of an address as written.
#[inline]
pub fn mark(written: &mut [bool], at: usize)
    requires { at < 4096 * length written.old }
    ensures covers { (a : ℕ) → a / 4096 ≡ at / 4096 → is_written written.new a ≡ true }
    ensures others { (a : ℕ) → is_written written.new a ≡ false → is_written written.old a ≡ false }
{
    written[at / PAGE] = true;
}

/// Marks the pages of a range of addresses as written.
pub fn mark_all(written: &mut [bool], at: usize, len: usize)
    requires pages { at + len ≤ 4096 * length written.old }
    requires fits { at + len < 2 ^ 32 }
    ensures covers { (a : ℕ) → at ≤ a → a < at + len → is_written written.new a ≡ true }
    ensures others { (a : ℕ) → is_written written.new a ≡ false → is_written written.old a ≡ false }
{
    let end = (at + len).div_ceil(PAGE);
    for page in at / PAGE..end {
        written[page] = true;
    }
}

/// Puts back the pages that were written, and takes their marks away.
pub fn put_back(bytes: &mut [u8], start: &[u8], written: &mut [bool])
    requires whole { 4096 * length written.old ≤ length bytes.old }
    requires kept { (a : ℕ) → is_written written.old a ≡ false → memory_of bytes.old a ≡ memory_of start.now a }
    ensures marks { (a : ℕ) → is_written written.new a ≡ false }
    ensures bytes { (a : ℕ) → memory_of bytes.new a ≡ memory_of start.now a }
{
    for page in 0..written.len() {
        if written[page] {
            put_back_page(bytes, start, page * PAGE);
            written[page] = false;
        }
    }
}

/// A page as it was at the start of a run: 0 past the start's bytes.
fn put_back_page(bytes: &mut [u8], start: &[u8], at: usize)
    requires { at + 4096 ≤ length bytes.old }
    ensures inside { (a : ℕ) → at ≤ a → a < at + 4096 → memory_of bytes.new a ≡ memory_of start.now a }
    ensures below { (a : ℕ) → a < at → memory_of bytes.new a ≡ memory_of bytes.old a }
    ensures above { (a : ℕ) → at + 4096 ≤ a → memory_of bytes.new a ≡ memory_of bytes.old a }
{
    clear_page(bytes, at);
    if at < start.len() {
        let end = start.len().min(at + PAGE);
        write_at(bytes, at, &start[at..end]);
    }
}

/// A page of 0.
fn clear_page(bytes: &mut [u8], at: usize)
    requires { at + 4096 ≤ length bytes.old }
    ensures inside { (a : ℕ) → at ≤ a → a < at + 4096 → memory_of bytes.new a ≡ 0 }
    ensures below { (a : ℕ) → a < at → memory_of bytes.new a ≡ memory_of bytes.old a }
    ensures above { (a : ℕ) → at + 4096 ≤ a → memory_of bytes.new a ≡ memory_of bytes.old a }
{
    for place in at..at + PAGE {
        bytes[place] = 0;
    }
}
