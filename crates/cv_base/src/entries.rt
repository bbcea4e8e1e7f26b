ghost use Rattle.std.specs.Prelude.{◌≡◌, IfOk};

use crate::{End, Items, Mode, NoMemory, Regs};
use std::alloc::Global;

/// The registers and the frame's sp before the instruction at a point.
#[derive(Clone, Copy, Debug)]
pub struct Observation {
    pub point: u32,
    pub regs: Regs,
    pub frame_sp: u32,
}

/// A version that a run adopted at this many block entries in a row.
#[derive(Clone, Copy, Debug, PartialEq, Eq)]
pub struct Adopted {
    pub version: u32,
    pub entries: u32,
}

/// How often a candidate was checked in a run, how often it did not hold, and whether it held
/// the last time.
#[derive(Clone, Copy, Debug, PartialEq, Eq)]
pub struct TallyRow {
    pub case: u32,
    pub index: u32,
    pub checks: u32,
    pub violations: u32,
    pub last_held: bool,
}

/// How often a repair fired in a run.
#[derive(Clone, Copy, Debug, PartialEq, Eq)]
pub struct FiredRow {
    pub case: u32,
    pub index: u32,
    pub count: u32,
}

/// What the journal keeps of a run (docs/REPAIR.md, "Entries").
#[derive(Debug, Drop)]
pub struct Entry {
    /// The run's number, from 0 through the rounds.
    pub run: u32,
    pub worker: u32,
    pub mode: Mode,
    /// The versions of the block entries, equal neighbours joined; empty for a learn run.
    pub adopted: Items<Adopted>,
    pub end: End,
    pub turns: u32,
    /// Where the run failed, and the calls around it: the pc and up to three call addresses from
    /// the top frame on. Empty where it did not fail.
    pub sites: Items<u32>,
    pub output: Items<u8>,
    /// A row for each candidate that was checked, ordered by case and index.
    pub tally: Items<TallyRow>,
    /// A row for each repair that fired, ordered by case and index.
    pub fired: Items<FiredRow>,
}

impl Entry {
    /// An equal entry.
    pub fn copied(&self, alloc: Global) -> Result<Entry, NoMemory>
        ensures { IfOk result (λ e. e ≡ self.now) }
    {
        let adopted = Items::from_slice(alloc, self.adopted.as_slice())?;
        let sites = Items::from_slice(alloc, self.sites.as_slice())?;
        let output = Items::from_slice(alloc, self.output.as_slice())?;
        let tally = Items::from_slice(alloc, self.tally.as_slice())?;
        let fired = Items::from_slice(alloc, self.fired.as_slice())?;
        Ok(Entry {
            run: self.run,
            worker: self.worker,
            mode: self.mode,
            adopted,
            end: self.end,
            turns: self.turns,
            sites,
            output,
            tally,
            fired,
        })
    }
}
