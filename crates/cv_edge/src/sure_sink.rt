ghost use Rattle.std.specs.Prelude.{◌≡◌, [], ◌++◌, ◌^◌, ◌<◌, ◌≤◌, length, take, None, Ok, IfOk, OnErr, IsErr};
ghost use Rattle.cv_edge.specs.Edge.{Appends, Keeps, HasCause};
ghost use Rattle.cv_edge.specs.Memory.{after_sure_write};

use crate::{Failed, Sink};
use std::marker::Model;

/// A sink that never fails, over a buffer that its caller made. It counts no fault, and tells
/// nothing of what was written; the buffer has the first bytes, as far as it reaches.
#[derive(Drop)]
pub struct SureSink<'a> {
    buffer: &'a mut [u8],
    filled: usize,
}

impl<'a> Model for SureSink<'a> {
    ghost use Rattle.std.specs.Prelude.{◌≤◌, length, take};
    ghost use Rattle.cv_edge.specs.Memory.{Sheet};

    ghost Value = { Sheet };

    ghost view = { λ s. record { bytes = take s.filled s.buffer.now; room = length s.buffer.now } };

    ghost invariant = { λ s. s.filled ≤ length s.buffer.now };
}

impl<'a> SureSink<'a> {
    /// A sink over a buffer, of which nothing is filled. It takes no memory.
    pub fn over(buffer: &'a mut [u8]) -> SureSink<'a>
        ensures { result ≡ record { bytes = []; room = length buffer.old } }
    {
        SureSink { buffer, filled: 0 }
    }
}

impl<'a> Sink for SureSink<'a> {
    ghost written = { λ _. None };

    ghost faults = { λ _. 0 };

    /// Takes every piece whole, and no memory: the bytes go behind those that are in the buffer, as
    /// far as it reaches, and the rest is dropped.
    fn write(&mut self, piece: &[u8]) -> Result<u32, Failed>
        requires some { 0 < length piece.now }
        requires short { length piece.now < 2 ^ 32 }
        ensures within { IfOk result (λ n. (1 ≤ n) × (n ≤ length piece.now)) }
        ensures taken { IfOk result (λ n. Appends None None (take n piece.now)) }
        ensures kept { OnErr result (Keeps None None) }
        ensures cause { HasCause 0 0 (IsErr result) }
        ensures whole { result ≡ Ok (length piece.now) }
        ensures after { self.new ≡ after_sure_write self.old piece.now }
    {
        self.filled = fill(self.buffer, self.filled, piece);
        Ok(piece.len() as u32)
    }
}

/// Puts a piece behind the first bytes of a buffer, as far as it reaches, and answers how many
/// bytes are filled then.
#[tactic(auto, using(crate::proofs::Filling::filled_by))]
fn fill(buffer: &mut [u8], filled: usize, piece: &[u8]) -> usize
    requires { filled ≤ length buffer.old }
    ensures bytes { take result buffer.new ≡ take (length buffer.old) (take filled buffer.old ++ piece.now) }
    ensures within { result ≤ length buffer.old }
    ensures room { length buffer.new ≡ length buffer.old }
{
    let count = piece.len().min(buffer.len() - filled);
    let end = filled + count;
    buffer[filled..end].copy_from_slice(&piece[..count]);
    end
}
