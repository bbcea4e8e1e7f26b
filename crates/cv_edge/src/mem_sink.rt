ghost use Rattle.std.specs.Prelude.{◌≡◌, [], ◌∷◌, ◌++◌, Some, ◌^◌, ◌<◌, ◌≤◌, length, IfOk, OnOk, OnErr, IsErr, IsTrue, ◌↔◌};
ghost use Rattle.cv_edge.specs.Memory.{refuses, takes, after_write};

use crate::counts::{fails_next, one_more};
use crate::{Failed, Sink};
use cv_base::NoMemory;
use std::alloc::Global;
use std::marker::Model;

/// A sink in memory, which tells the bytes written. Its memory is taken when it is made, and chosen
/// writes fail.
#[derive(Debug, Drop)]
pub struct MemSink {
    bytes: Vec<u8>,
    room: u32,
    piece: u32,
    writes: u64,
    failing: Vec<u32>,
    faults: u64,
}

impl Model for MemSink {
    ghost use Rattle.std.specs.Prelude.{◌<◌, ◌≤◌, vec_len, vec_capacity};
    ghost use Rattle.cv_edge.specs.Memory.{Buffer};

    ghost Value = { Buffer };

    ghost view = { λ s. record { bytes = s.bytes.items; room = s.room; piece = s.piece; writes = s.writes; failing = s.failing.items; faults = s.faults } };

    ghost invariant = { λ s. (0 < s.piece) × (vec_len s.bytes ≤ s.room) × (s.room ≤ vec_capacity s.bytes) };
}

impl MemSink {
    /// A sink with room for `room` bytes, whose writes take at most `piece` bytes each.
    pub fn make(alloc: Global, room: u32, piece: u32) -> Result<MemSink, NoMemory>
        requires { 1 ≤ piece }
        ensures { IfOk result (λ s. s ≡ record { bytes = []; room = room; piece = piece; writes = 0; failing = []; faults = 0 }) }
    {
        let bytes = Vec::with_capacity(alloc, room as usize)?;
        Ok(MemSink {
            bytes,
            room,
            piece,
            writes: 0,
            failing: Vec::new(alloc),
            faults: 0,
        })
    }

    /// The bytes written.
    pub fn bytes(&self) -> &[u8]
        ensures { result.now ≡ self.now.bytes }
    {
        self.bytes.as_slice()
    }

    /// Makes the write of a number fail, too. Writes have numbers from 1. Where memory is refused,
    /// the sink is as before.
    pub fn fail_on(&mut self, call: u32) -> Result<(), NoMemory>
        ensures added { OnOk result (self.new ≡ record self.old { failing = self.old.failing ++ call ∷ [] }) }
        ensures refused { OnErr result (self.new ≡ self.old) }
    {
        self.failing.push(call)?;
        Ok(())
    }
}

impl Sink for MemSink {
    ghost written = { λ s. Some s.bytes };

    ghost faults = { λ s. s.faults };

    /// Takes no memory. Answers Failed exactly where the call is one of those that are to fail, or
    /// the room is full; else it takes as many bytes as the room and the size of a piece let it.
    fn write(&mut self, piece: &[u8]) -> Result<u32, Failed>
        requires some { 0 < length piece.now }
        requires short { length piece.now < 2 ^ 32 }
        ensures within { IfOk result (λ n. (1 ≤ n) × (n ≤ length piece.now)) }
        ensures count { IfOk result (λ n. n ≡ takes self.old (length piece.now)) }
        ensures failed { IsErr result ↔ IsTrue (refuses self.old) }
        ensures after { self.new ≡ after_write self.old piece.now }
    {
        let fails = fails_next(self.failing.as_slice(), self.writes);
        self.writes = one_more(self.writes);
        let left = self.room as usize - self.bytes.len();
        if fails || left == 0 {
            self.faults = one_more(self.faults);
            return Err(Failed);
        }
        let count = piece.len().min((self.piece as usize).min(left));
        // The room was made with the sink.
        self.bytes.extend_from_slice(&piece[..count]).unwrap();
        Ok(count as u32)
    }
}
