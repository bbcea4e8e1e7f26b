ghost use Rattle.std.specs.Prelude.{◌≡◌, ◌==◌, ◌&&◌, nat_le, ◌≤◌, ◌+◌, ◌<◌, if◌then◌else◌, false, Some, None, IfOk, length, MatchOption};
ghost use Rattle.cv_heap.specs.Heap.{empty_heap, has_room, with_block, begins_block, without_block, covers};
ghost use Rattle.cv_heap.specs.Kept.{AreApart, IsHeap};
ghost use Rattle.cv_heap.specs.Found.{NoneBegins, BeginsAt, NoneBegun, IsLastBegun};

use crate::MOST_BLOCKS;
use cv_base::{HEAP_START, NoMemory, STACK_START};
use std::alloc::Global;
use std::marker::Model;

/// A block: its first address and its size in bytes.
#[derive(Clone, Copy, Debug, PartialEq, Eq)]
pub struct Block {
    pub place: u32,
    pub size: u32,
}

impl Block {
    /// Whether the `len` bytes from an address on lie inside the block.
    pub fn holds(&self, addr: u32, len: u32) -> bool
        ensures { result ≡ (nat_le self.now.place addr && nat_le (addr + len) (self.now.place + self.now.size)) }
    {
        let end = u64::from(addr) + u64::from(len);
        self.place <= addr && end <= u64::from(self.place) + u64::from(self.size)
    }
}

/// The live blocks of the heap, at most 4,096, and the place of the next one (docs/MACHINE.md,
/// "Services"). A place is used once.
///
/// The room for all blocks is taken when it is made: only `make` and `copied` take memory.
#[derive(Debug, Drop)]
pub struct Blocks {
    /// In the order of their places, with at least one byte between each and the next.
    blocks: Vec<Block>,
    next: u32,
}

impl Model for Blocks {
    ghost use Rattle.std.specs.Prelude.{◌≤◌, vec_capacity};
    ghost use Rattle.cv_heap.specs.declared.TheConstants.{MOST_BLOCKS};
    ghost use Rattle.cv_heap.specs.Heap.{Heap};

    ghost Value = { Heap };

    ghost use Rattle.cv_heap.specs.Kept.{IsHeap};

    ghost view = { λ b. record { blocks = b.blocks.items; next = b.next } };

    ghost invariant = { λ b. IsHeap (record { blocks = b.blocks.items; next = b.next }) × (MOST_BLOCKS ≤ vec_capacity b.blocks) };
}

impl Blocks {
    /// No block, and room for 4,096. The first place is the first address of the heap.
    pub fn make(alloc: Global) -> Result<Blocks, NoMemory>
        ensures { IfOk result (λ b. b ≡ empty_heap) }
    {
        let blocks = Vec::with_capacity(alloc, MOST_BLOCKS as usize)?;
        Ok(Blocks {
            blocks,
            next: HEAP_START,
        })
    }

    /// Makes a block of `size` bytes at the next place, and gives its first address. The next
    /// place then grows by the size, rounded up to a multiple of 16, and by 16 more.
    ///
    /// `None` comes exactly where 4,096 blocks are live or the block would reach past the heap;
    /// nothing changes then.
    pub fn alloc(&mut self, size: u32) -> Option<u32>
        ensures place { result ≡ (if has_room self.old size then Some self.old.next else None) }
        ensures blocks { self.new ≡ (if has_room self.old size then with_block self.old size else self.old) }
        ensures kept { IsHeap self.new }
    {
        let end = u64::from(self.next) + u64::from(size);
        if self.blocks.len() >= MOST_BLOCKS as usize || end > u64::from(STACK_START) {
            return None;
        }
        let place = self.next;
        self.blocks.push(Block { place, size }).unwrap();
        self.next = place + size.next_multiple_of(16) + 16;
        Some(place)
    }

    /// Frees the block that begins at an address, if one does: it is live no more, and its place
    /// is not used again. Says whether there was one; nothing changes if there was none.
    pub fn free(&mut self, addr: u32) -> bool
        ensures found { result ≡ begins_block self.old addr }
        ensures left { self.new ≡ without_block self.old addr }
        ensures none { result ≡ false → self.new ≡ self.old }
    {
        match beginning(self.blocks.as_slice(), addr) {
            Some(at) => {
                let _block = self.blocks.remove(at);
                true
            }
            None => false,
        }
    }

    /// Whether the `len` bytes from an address on lie inside one live block.
    pub fn covers(&self, addr: u32, len: u32) -> bool
        ensures { result ≡ covers self.now addr len }
    {
        match last_begun(self.blocks.as_slice(), addr) {
            Some(at) => self.blocks[at].holds(addr, len),
            None => false,
        }
    }

    /// Takes all blocks, and starts again at the first address of the heap. The room stays.
    pub fn clear(&mut self)
        ensures { self.new ≡ empty_heap }
    {
        self.blocks.clear();
        self.next = HEAP_START;
    }

    /// Equal blocks, with room for 4,096.
    pub fn copied(&self, alloc: Global) -> Result<Blocks, NoMemory>
        ensures { IfOk result (λ b. b ≡ self.now) }
    {
        let mut blocks = Vec::with_capacity(alloc, MOST_BLOCKS as usize)?;
        blocks.extend_from_slice(self.blocks.as_slice())?;
        Ok(Blocks {
            blocks,
            next: self.next,
        })
    }
}

// the number of the block that begins at an address
fn beginning(blocks: &[Block], addr: u32) -> Option<usize>
    requires { AreApart blocks.now }
    ensures { MatchOption result (NoneBegins blocks.now addr) (BeginsAt blocks.now addr) }
{
    blocks.binary_search_by_key(&addr, |b| b.place).ok()
}

// the number of the last block that begins at or below an address
fn last_begun(blocks: &[Block], addr: u32) -> Option<usize>
    requires { AreApart blocks.now }
    ensures { MatchOption result (NoneBegun blocks.now addr) (IsLastBegun blocks.now addr) }
{
    blocks.partition_point(|b| b.place <= addr).checked_sub(1)
}
