ghost use Rattle.std.specs.Prelude.{◌≡◌, ◌↔◌, ℕ, Bool, true, false, ◌+◌, ◌<◌, ◌≤◌, IsTrue, IfSome, IfNone};
ghost use Rattle.cv_base.specs.Regions.{each_address, some_address, is_code};
ghost use Rattle.cv_mem.specs.Access.{permits, is_open, OpensUpTo, meets};

use cv_base::{HEAP_START, Region, STACK_END};

/// What is done to the bytes of a range.
#[derive(Clone, Copy)]
pub enum Access {
    Read,
    Write,
}

impl Access {
    fn is_permitted(self, region: &Region) -> bool
        ensures { result ≡ permits self region.now }
    {
        match self {
            Access::Read => region.read,
            Access::Write => region.write,
        }
    }
}

/// Whether a range lies in the heap and the stack.
#[inline]
pub fn lies_high(addr: u32, len: u32) -> bool
    ensures { IsTrue result ↔ ((HEAP_START ≤ addr) × (addr + len ≤ STACK_END)) }
{
    addr >= HEAP_START && u64::from(addr) + u64::from(len) <= u64::from(STACK_END)
}

/// Whether each address of a range is open to an access. The heap and the stack come first, since
/// most accesses are there.
#[inline]
pub fn each_is_open(access: Access, regions: &[Region], addr: u32, len: u32) -> bool
    ensures { result ≡ each_address (is_open access regions.now) addr len }
{
    lies_high(addr, len) || parts_are_open(access, regions, addr, len)
}

/// The same, from one open part on to the next.
fn parts_are_open(access: Access, regions: &[Region], addr: u32, len: u32) -> bool
    ensures { result ≡ each_address (is_open access regions.now) addr len }
{
    let end = u64::from(addr) + u64::from(len);
    let mut at = addr;
    'parts: while u64::from(at) < end {
        match open_end(access, regions, at) {
            Some(next) => at = next,
            None => return false,
        }
    }
    true
}

/// The end of a part that is open to an access and holds an address.
fn open_end(access: Access, regions: &[Region], addr: u32) -> Option<u32>
    ensures some { IfSome result (OpensUpTo access regions.now addr) }
    ensures none { IfNone result (is_open access regions.now addr ≡ false) }
{
    if HEAP_START <= addr && addr < STACK_END {
        return Some(STACK_END);
    }
    for region in regions {
        if access.is_permitted(region) && region.start <= addr && addr < region.end {
            return Some(region.end);
        }
    }
    None
}

/// Whether an address of a range lies in the executable segment.
pub fn some_is_code(regions: &[Region], addr: u32, len: u32) -> bool
    ensures { result ≡ some_address (is_code regions.now) addr len }
{
    for region in regions {
        if region.code && has_some_of(region, addr, len) {
            return true;
        }
    }
    false
}

/// Whether a region has an address of a range.
fn has_some_of(region: &Region, addr: u32, len: u32) -> bool
    ensures { result ≡ meets addr len region.now }
{
    let end = u64::from(addr) + u64::from(len);
    u64::from(region.start.max(addr)) < u64::from(region.end).min(end)
}
