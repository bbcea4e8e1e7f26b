ghost use Rattle.std.specs.Prelude.{◌≡◌, ℕ, List, [], ◌∷◌, ◌++◌, Some, IfOk, OnOk, OnErr, IsErrOf, IsTrue, ◌↔◌, if◌then◌else◌, reverse};
ghost use Rattle.std.specs.Option.{option_map, option_copied};
ghost use Rattle.cv_edge.specs.declared.mem_store.MemFile.{MemFile};
ghost use Rattle.std.specs.Str.{bytes_eq};
ghost use Rattle.cv_edge.specs.Edge.{fetched_of};
ghost use Rattle.cv_edge.specs.Memory.{file_in, held_of, fails_next, after_fetch};

use crate::counts::{fails_next, one_more};
use crate::{FetchFail, Fetched, Store};
use cv_base::{Items, NoMemory, Text};
use std::alloc::Global;
use std::marker::Model;

/// A file in memory.
#[derive(Debug, Drop)]
struct MemFile {
    name: Text,
    bytes: Items<u8>,
}

/// A store in memory, which tells what it holds. Chosen fetches fail.
#[derive(Debug, Drop)]
pub struct MemStore {
    alloc: Global,
    /// The newest last; of equal names the newest counts.
    files: Vec<MemFile>,
    fetches: u64,
    failing: Vec<u32>,
    faults: u64,
}

impl Model for MemStore {
    ghost use Rattle.std.specs.Prelude.{reverse};
    ghost use Rattle.cv_edge.specs.Memory.{Shelf};

    ghost Value = { Shelf };

    ghost view = { λ s. record { files = reverse s.files.items; fetches = s.fetches; failing = s.failing.items; faults = s.faults } };
}

impl MemStore {
    /// A store without a file. It takes no memory.
    pub fn make(alloc: Global) -> MemStore
        ensures { result ≡ record { files = []; fetches = 0; failing = []; faults = 0 } }
    {
        MemStore {
            alloc,
            files: Vec::new(alloc),
            fetches: 0,
            failing: Vec::new(alloc),
            faults: 0,
        }
    }

    /// Puts a file under a name, in place of one that is there. Where memory is refused, the store
    /// is as before.
    pub fn put(&mut self, name: &str, bytes: &[u8]) -> Result<(), NoMemory>
        ensures added { OnOk result ((other : List ℕ) → file_in self.new.files other ≡ (if bytes_eq name.now other then Some bytes.now else file_in self.old.files other)) }
        ensures rest { OnOk result (self.new ≡ record self.old { files = self.new.files }) }
        ensures refused { OnErr result (self.new ≡ self.old) }
    {
        let name = Text::from_str(self.alloc, name)?;
        let bytes = Items::from_slice(self.alloc, bytes)?;
        self.files.push(MemFile { name, bytes })?;
        Ok(())
    }

    /// Makes the fetch of a number fail, too. Fetches have numbers from 1. Where memory is refused,
    /// the store is as before.
    pub fn fail_on(&mut self, call: u32) -> Result<(), NoMemory>
        ensures added { OnOk result (self.new ≡ record self.old { failing = self.old.failing ++ call ∷ [] }) }
        ensures refused { OnErr result (self.new ≡ self.old) }
    {
        self.failing.push(call)?;
        Ok(())
    }
}

/// The newest file of a name, of files with the newest last.
fn newest<'a>(files: &'a [MemFile], name: &str) -> Option<&'a MemFile>
    ensures { option_map (λ (f : MemFile). f.bytes) (option_copied result) ≡ file_in (reverse files.now) name.now }
{
    files.iter().rev().find(|file| file.name.as_str() == name)
}

/// What a fetch answers of these bytes.
fn limited(alloc: Global, bytes: &[u8], limit: u32) -> Result<Fetched, NoMemory>
    ensures { IfOk result (λ f. f ≡ fetched_of (Some bytes.now) limit) }
{
    let limit = limit as usize;
    if bytes.len() <= limit {
        Ok(Fetched::Whole(Items::from_slice(alloc, bytes)?))
    } else {
        let first = Items::from_slice(alloc, &bytes[..limit + 1])?;
        Ok(Fetched::Longer(first))
    }
}

/// What a fetch answers of these files, where it does not fail.
fn found(alloc: Global, files: &[MemFile], name: &str, limit: u32) -> Result<Fetched, NoMemory>
    ensures { IfOk result (λ f. f ≡ fetched_of (file_in (reverse files.now) name.now) limit) }
{
    match newest(files, name) {
        None => Ok(Fetched::Missing),
        Some(file) => limited(alloc, file.bytes.as_slice(), limit),
    }
}

impl Store for MemStore {
    ghost told = { λ s. Some (held_of s) };

    ghost faults = { λ s. s.faults };

    /// Answers Failed exactly where the call is one of those that are to fail.
    fn fetch(&mut self, alloc: Global, name: &str, limit: u32) -> Result<Fetched, FetchFail>
        ensures file { IfOk result (λ f. f ≡ fetched_of (file_in self.old.files name.now) limit) }
        ensures failed { IsErrOf result FetchFail.Failed ↔ IsTrue (fails_next self.old.failing self.old.fetches) }
        ensures after { self.new ≡ after_fetch self.old }
    {
        let fails = fails_next(self.failing.as_slice(), self.fetches);
        self.fetches = one_more(self.fetches);
        if fails {
            self.faults = one_more(self.faults);
            return Err(FetchFail::Failed);
        }
        Ok(found(alloc, self.files.as_slice(), name, limit)?)
    }
}
