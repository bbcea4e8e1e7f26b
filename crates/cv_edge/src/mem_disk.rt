ghost use Rattle.std.specs.Prelude.{◌≡◌, ℕ, List, [], ◌∷◌, ◌++◌, ◌+◌, ◌^◌, ◌<◌, ◌≤◌, true, false, length, take, drop, IfOk, OnOk, OnErr, IsErrOf};
ghost use Rattle.cv_edge.specs.Edge.{counted};
ghost use Rattle.cv_edge.specs.Disk.{written};
ghost use Rattle.cv_edge.specs.DiskMemory.{Recorded, content_of, IsImage, recorded, Noted};
ghost use Rattle.cv_edge.specs.Memory.{fails_next};
ghost use Rattle.cv_edge.specs.DiskLaws.{content_is_image, image_counts, only_this};
ghost use Rattle.cv_edge.specs.declared.mem_disk.Row.TheVariants as row;

use crate::counts::{fails_next, one_more};
use crate::disk::MOST;
use crate::{Disk, DiskFail};
use cv_base::{Items, NoMemory};
use std::alloc::Global;
use std::marker::Model;

/// One call in the record of a disk in memory.
#[derive(Debug, Drop)]
pub enum Row {
    /// `len` or `read`, done or not.
    Looked,
    /// `write_at`: the place, the piece, and whether it was done.
    Wrote(u64, Items<u8>, bool),
    /// `sync`, and whether it was done.
    Synced(bool),
}

/// A disk in memory, which tells. It keeps a record of all its calls, from which its images since
/// any moment follow; its moment is the number of its calls. Chosen calls fail.
#[derive(Debug, Drop)]
pub struct MemDisk {
    alloc: Global,
    bytes: Vec<u8>,
    rows: Vec<Row>,
    failing: Vec<u32>,
    faults: u64,
}

impl Model for MemDisk {
    ghost use Rattle.std.specs.Prelude.{◌≡◌, ◌^◌, ◌≤◌, reverse, vec_len};
    ghost use Rattle.cv_edge.specs.DiskMemory.{Recorded, content_of};

    ghost Value = { Recorded };

    ghost view = { λ d. record { rows = reverse d.rows.items; failing = d.failing.items; faults = d.faults } };

    ghost invariant = { λ d. (d.bytes.items ≡ content_of (reverse d.rows.items)) × (vec_len d.bytes ≤ 2 ^ 62) };
}

impl MemDisk {
    /// An empty disk, whose content is its only image. It takes no memory.
    pub fn make(alloc: Global) -> MemDisk
        ensures { result ≡ record { rows = []; failing = []; faults = 0 } }
    {
        MemDisk {
            alloc,
            bytes: Vec::new(alloc),
            rows: Vec::new(alloc),
            failing: Vec::new(alloc),
            faults: 0,
        }
    }

    /// Makes the call of a number fail, too. Calls have numbers from 1. Where memory is refused,
    /// the disk is as before.
    pub fn fail_on(&mut self, call: u32) -> Result<(), NoMemory>
        ensures added { OnOk result (self.new ≡ record self.old { failing = self.old.failing ++ call ∷ [] }) }
        ensures refused { OnErr result (self.new ≡ self.old) }
    {
        self.failing.push(call)?;
        Ok(())
    }

    /// Adds a call that leaves the bytes as they are to the record, and counts its fault.
    fn note(&mut self, row: Row, fails: bool) -> Result<(), DiskFail>
        requires { content_of (row ∷ self.old.rows) ≡ content_of self.old.rows }
        ensures done { OnOk result ((fails ≡ false) × (self.new ≡ record self.old { rows = row ∷ self.old.rows })) }
        ensures failed { IsErrOf result DiskFail.Failed → (fails ≡ true) × (self.new ≡ record self.old { rows = row ∷ self.old.rows; faults = counted self.old.faults }) }
        ensures refused { IsErrOf result DiskFail.NoMemory → self.new ≡ self.old }
    {
        self.rows.push(row)?;
        if fails {
            self.faults = one_more(self.faults);
            return Err(DiskFail::Failed);
        }
        Ok(())
    }

    /// Whether the next call is one of those that are to fail.
    fn fails(&self) -> bool
        ensures { result ≡ fails_next self.now.failing (length self.now.rows) }
    {
        fails_next(self.failing.as_slice(), self.rows.len() as u64)
    }
}

/// The bytes with a piece written at a place.
fn overwritten(alloc: Global, bytes: &[u8], at: usize, piece: &[u8]) -> Result<Vec<u8>, NoMemory>
    requires { at ≤ length bytes.now }
    ensures { IfOk result (λ v. v.items ≡ written at piece.now bytes.now) }
{
    let mut all = Vec::from_slice(alloc, &bytes[..at])?;
    all.extend_from_slice(piece)?;
    if piece.len() < bytes.len() - at {
        all.extend_from_slice(&bytes[at + piece.len()..])?;
    }
    Ok(all)
}

impl Disk for MemDisk {
    ghost means = { recorded };

    ghost among = { λ d tells. content_is_image d.rows };

    ghost counts_now = { λ d t c late now. image_counts d.rows t c now };

    ghost only_now = { λ d c left. only_this d.rows c left };

    fn len(&mut self) -> Result<u64, DiskFail>
        ensures exact { IfOk result (λ n. n ≡ length (content_of self.old.rows)) }
        ensures most { IfOk result (λ n. n ≤ 2 ^ 62) }
        ensures noted { Noted (λ _. row.Looked) result self.old self.new }
    {
        let len = self.bytes.len() as u64;
        let fails = self.fails();
        self.note(Row::Looked, fails)?;
        Ok(len)
    }

    fn read(&mut self, at: u64, piece: &mut [u8]) -> Result<(), DiskFail>
        requires { at + length piece.old ≤ length (content_of self.old.rows) }
        ensures bytes { OnOk result (piece.new ≡ take (length piece.old) (drop at (content_of self.old.rows))) }
        ensures noted { Noted (λ _. row.Looked) result self.old self.new }
    {
        let start = at as usize;
        piece.copy_from_slice(&self.bytes[start..start + piece.len()]);
        let fails = self.fails();
        self.note(Row::Looked, fails)?;
        Ok(())
    }

    /// A write that would end past 2^62 bytes answers NoMemory.
    fn write_at(&mut self, at: u64, piece: &[u8]) -> Result<(), DiskFail>
        requires { at ≤ length (content_of self.old.rows) }
        ensures most { OnOk result (at + length piece.now ≤ 2 ^ 62) }
        ensures too_far { 2 ^ 62 < at + length piece.now → result ≡ Err DiskFail.NoMemory }
        ensures noted { Noted (row.Wrote at piece.now) result self.old self.new }
    {
        let bytes = self.bytes.as_slice();
        if piece.len() as u64 > MOST - at {
            return Err(DiskFail::NoMemory);
        }
        let kept = Items::from_slice(self.alloc, piece)?;
        let bytes = overwritten(self.alloc, bytes, at as usize, piece)?;
        if self.fails() {
            self.note(Row::Wrote(at, kept, false), true)?;
            return Err(DiskFail::Failed);
        }
        self.rows.push(Row::Wrote(at, kept, true))?;
        self.bytes = bytes;
        Ok(())
    }

    #[tactic(auto, using(crate::specs::DiskLaws::sync_images))]
    fn sync(&mut self) -> Result<(), DiskFail>
        ensures noted { Noted row.Synced result self.old self.new }
        ensures images { (c : List ℕ) → IsImage self.new.rows c → IsImage self.old.rows c }
    {
        let fails = self.fails();
        self.note(Row::Synced(!fails), fails)?;
        Ok(())
    }
}
