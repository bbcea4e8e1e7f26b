ghost use Rattle.std.specs.Prelude.{◌≡◌, ◌==◌, ◌+◌, ◌*◌, ◌%◌, ◌^◌, ◌<◌, ◌≤◌, Bool, true, None, IfOk, OnOk, OnErr, List, length, ℕ};
ghost use Rattle.std.specs.List.{list_all};
ghost use Rattle.std.specs.Result.{result_err};
ghost use Rattle.cv_base.specs.Regions.{regions_of, is_readable, is_writable, each_address};
ghost use Rattle.cv_mem.specs.Memory.{memory_of, start_memory, with_bytes, bytes_at, stored, load_fault, store_fault};
ghost use Rattle.cv_mem.specs.SpaceOf.{IsSize, load_of};

use crate::bytes::{number_at, part, put_number, size, write_at, zeros};
use crate::pages::{mark, mark_all, put_back, unwritten};
use crate::regions::{Access, each_is_open, lies_high, some_is_code};
use crate::segments::{regions_in, start_bytes, write_segments};
use cv_base::{Image, Items, NoMemory, Region};
use std::alloc::Global;
use std::marker::Model;

/// Why an access is refused.
#[derive(Clone, Copy, Debug, PartialEq, Eq)]
pub enum MemFault {
    /// The address is no multiple of the size.
    Misaligned,
    /// A byte of a load is not readable.
    Unreadable,
    /// A byte of a store lies in the executable segment.
    Code,
    /// A byte of a store is not writable.
    Unwritable,
}

/// The memory of a run: the 8 MiB from address 0 up to 00800000, and the regions of the
/// segments. The heap and the stack can be read and written throughout, a region as its flags
/// say, and nothing else (docs/MACHINE.md, "Regions").
///
/// Contracts see it as its bytes, of which `memory_of` makes a function from address to byte, its
/// regions, and the bytes that it had at the start of the run.
#[derive(Drop)]
pub struct Space {
    bytes: Vec<u8>,
    regions: Items<Region>,
    /// The bytes at the start of the run, up to the end of the last segment.
    start: Vec<u8>,
    /// Whether each page was written since the start of the run.
    written: Vec<bool>,
}

impl Model for Space {
    ghost use Rattle.cv_mem.specs.Pages.{IsKept};
    ghost use Rattle.cv_mem.specs.SpaceOf.{SpaceOf, IsSpace};

    ghost Value = { SpaceOf };

    ghost view = { λ s. record { bytes = s.bytes.items; regions = s.regions; start = s.start.items } };

    ghost invariant = { λ s. IsSpace (record { bytes = s.bytes.items; regions = s.regions; start = s.start.items }) × IsKept s.bytes.items s.start.items s.written.items };
}

impl Space {
    /// The memory at the start of a run of an image: the bytes of its segments, and 0 elsewhere.
    pub fn make(alloc: Global, image: &Image) -> Result<Space, NoMemory>
        ensures memory { IfOk result (λ s. memory_of s.bytes ≡ start_memory image.now.segments) }
        ensures regions { IfOk result (λ s. s.regions ≡ regions_of image.now) }
        ensures start { IfOk result (λ s. memory_of s.start ≡ start_memory image.now.segments) }
    {
        let segments = image.segments.as_slice();
        let regions = regions_in(alloc, segments)?;
        let mut bytes = zeros(alloc, size())?;
        write_segments(&mut bytes, segments);
        let start = start_bytes(alloc, &bytes, segments)?;
        let written = unwritten(alloc)?;
        Ok(Space {
            bytes,
            regions,
            start,
            written,
        })
    }

    /// The number of 1, 2 or 4 bytes from an address on, the lowest byte first.
    ///
    /// Misaligned where the address is no multiple of the size; else Unreadable where a byte is
    /// not readable.
    ///
    /// Source: RISC-V Unprivileged ISA, 2.6 "Load and Store Instructions".
    #[inline]
    pub fn load(&self, addr: u32, size: u32) -> Result<u32, MemFault>
        requires { IsSize size }
        ensures value { result ≡ load_of self.now addr size }
        ensures fits { IfOk result (λ v. v < 2 ^ (8 * size)) }
    {
        match self.load_fault(addr, size) {
            Some(fault) => Err(fault),
            None => Ok(number_at(self.bytes.as_slice(), addr as usize, size)),
        }
    }

    #[inline]
    fn load_fault(&self, addr: u32, size: u32) -> Option<MemFault>
        requires { IsSize size }
        ensures { result ≡ load_fault self.now.regions addr size }
    {
        if !is_aligned(addr, size) {
            return Some(MemFault::Misaligned);
        }
        if self.readable(addr, size) {
            None
        } else {
            Some(MemFault::Unreadable)
        }
    }

    /// Why a store of 1, 2 or 4 bytes at an address is refused, if it is.
    ///
    /// Misaligned where the address is no multiple of the size; else Code where a byte lies in the
    /// executable segment; else Unwritable where a byte is not writable.
    ///
    /// Source: RISC-V Unprivileged ISA, 2.6 "Load and Store Instructions".
    #[inline]
    pub fn store_fault(&self, addr: u32, size: u32) -> Option<MemFault>
        requires { IsSize size }
        ensures { result ≡ store_fault self.now.regions addr size }
    {
        let regions = self.regions.as_slice();
        if !is_aligned(addr, size) {
            return Some(MemFault::Misaligned);
        }
        if lies_high(addr, size) {
            return None;
        }
        if some_is_code(regions, addr, size) {
            return Some(MemFault::Code);
        }
        if each_is_open(Access::Write, regions, addr, size) {
            None
        } else {
            Some(MemFault::Unwritable)
        }
    }

    /// Stores the low 1, 2 or 4 bytes of a value, the lowest byte first, where that is not
    /// refused.
    #[inline]
    pub fn put(&mut self, addr: u32, size: u32, value: u32)
        requires sized { IsSize size }
        requires allowed { store_fault self.old.regions addr size ≡ None }
        ensures memory { memory_of self.new.bytes
            ≡ stored (memory_of self.old.bytes) addr size value }
        ensures regions { self.new.regions ≡ self.old.regions }
        ensures start { self.new.start ≡ self.old.start }
    {
        mark(self.written.as_mut_slice(), addr as usize);
        put_number(self.bytes.as_mut_slice(), addr as usize, size, value);
    }

    /// Stores the low 1, 2 or 4 bytes of a value, the lowest byte first. After an error, which is
    /// that of `store_fault`, nothing has changed.
    ///
    /// Source: RISC-V Unprivileged ISA, 2.6 "Load and Store Instructions".
    #[inline]
    pub fn store(&mut self, addr: u32, size: u32, value: u32) -> Result<(), MemFault>
        requires { IsSize size }
        ensures fault { result_err result ≡ store_fault self.old.regions addr size }
        ensures ok { OnOk result (memory_of self.new.bytes
            ≡ stored (memory_of self.old.bytes) addr size value) }
        ensures err { OnErr result (self.new ≡ self.old) }
        ensures regions { self.new.regions ≡ self.old.regions }
        ensures start { self.new.start ≡ self.old.start }
    {
        match self.store_fault(addr, size) {
            Some(fault) => Err(fault),
            None => {
                self.put(addr, size, value);
                Ok(())
            }
        }
    }

    /// Whether each of `len` bytes from an address on can be read; so it is of no byte.
    #[inline]
    pub fn readable(&self, addr: u32, len: u32) -> bool
        ensures { result ≡ each_address (is_readable self.now.regions) addr len }
    {
        each_is_open(Access::Read, self.regions.as_slice(), addr, len)
    }

    /// Whether each of `len` bytes from an address on can be written; so it is of no byte.
    #[inline]
    pub fn writable(&self, addr: u32, len: u32) -> bool
        ensures { result ≡ each_address (is_writable self.now.regions) addr len }
    {
        each_is_open(Access::Write, self.regions.as_slice(), addr, len)
    }

    /// The `len` bytes from an address on, which can be read.
    pub fn slice(&self, addr: u32, len: u32) -> &[u8]
        requires { each_address (is_readable self.now.regions) addr len ≡ true }
        ensures { result.now ≡ bytes_at (memory_of self.now.bytes) addr len }
    {
        let bytes = self.bytes.as_slice();
        if len == 0 {
            return &bytes[..0];
        }
        part(bytes, addr as usize, len as usize)
    }

    /// Writes bytes from an address on, where each can be written.
    pub fn fill(&mut self, addr: u32, bytes: &[u8])
        requires { each_address (is_writable self.old.regions) addr (length bytes.now) ≡ true }
        ensures memory { memory_of self.new.bytes
            ≡ with_bytes (memory_of self.old.bytes) addr bytes.now }
        ensures regions { self.new.regions ≡ self.old.regions }
        ensures start { self.new.start ≡ self.old.start }
    {
        if !bytes.is_empty() {
            mark_all(self.written.as_mut_slice(), addr as usize, bytes.len());
            write_at(self.bytes.as_mut_slice(), addr as usize, bytes);
        }
    }

    /// The byte at an address, readable or not; 0 from 00800000 on.
    pub fn byte(&self, addr: u32) -> u8
        ensures { result ≡ memory_of self.now.bytes addr }
    {
        self.bytes.get(addr as usize).copied().unwrap_or(0)
    }

    /// The memory as `make` of the same image gives it. It takes no memory, and the time that the
    /// pages of 4,096 bytes want which were written since `make` or the last `reset`.
    pub fn reset(&mut self)
        ensures memory { memory_of self.new.bytes ≡ memory_of self.old.start }
        ensures regions { self.new.regions ≡ self.old.regions }
        ensures start { self.new.start ≡ self.old.start }
    {
        put_back(
            self.bytes.as_mut_slice(),
            self.start.as_slice(),
            self.written.as_mut_slice(),
        );
    }

    /// An equal memory.
    pub fn copied(&self, alloc: Global) -> Result<Space, NoMemory>
        ensures { IfOk result (λ s. s ≡ self.now) }
    {
        let bytes = Vec::from_slice(alloc, self.bytes.as_slice())?;
        let regions = Items::from_slice(alloc, self.regions.as_slice())?;
        let start = Vec::from_slice(alloc, self.start.as_slice())?;
        let written = Vec::from_slice(alloc, self.written.as_slice())?;
        Ok(Space {
            bytes,
            regions,
            start,
            written,
        })
    }
}

/// Whether an address is a multiple of a size.
#[inline]
fn is_aligned(addr: u32, size: u32) -> bool
    requires { IsSize size }
    ensures { result ≡ (addr % size == 0) }
{
    match size {
        1 => true,
        2 => addr % 2 == 0,
        _ => addr % 4 == 0,
    }
}
