ghost use Rattle.std.specs.Prelude.{◌≡◌, None, ◌^◌, ◌<◌, ◌≤◌, length, take, IfOk, IfSome, IfNone, OnOk, OnErr};
ghost use Rattle.std.specs.Io.KnownBytes.{Appends, Keeps};
ghost use Rattle.cv_edge.specs.Edge.{counted};

use crate::counts::one_more;
use crate::{Failed, Sink};
use std::io::{ErrorKind, Write};
use std::marker::Model;

/// A writer of the operating system, such as standard output. It does not tell what was written,
/// and counts its faults. The writer should not hold bytes back, since a fault at its flush would
/// not be counted.
#[derive(Drop)]
pub struct StdSink<W> {
    to: W,
    faults: u64,
}

impl<W> Model for StdSink<W> {
    ghost use Rattle.std.specs.Prelude.{ℕ};

    ghost Value = { ℕ };

    ghost view = { λ s. s.faults };
}

impl<W: Write> StdSink<W> {
    /// A sink over a writer, with no fault counted.
    pub fn over(to: W) -> StdSink<W>
        ensures { result ≡ 0 }
    {
        StdSink { to, faults: 0 }
    }
}

impl<W: Write> Sink for StdSink<W> {
    ghost written = { λ _. None };

    ghost faults = { λ faults. faults };

    /// A writer that takes nothing is a fault.
    fn write(&mut self, piece: &[u8]) -> Result<u32, Failed>
        requires some { 0 < length piece.now }
        requires short { length piece.now < 2 ^ 32 }
        ensures within { IfOk result (λ n. (1 ≤ n) × (n ≤ length piece.now)) }
        ensures failed { OnErr result (self.new ≡ counted self.old) }
        ensures other { OnOk result (self.new ≡ self.old) }
    {
        match write_some(&mut self.to, piece) {
            Some(count) => Ok(count),
            None => {
                self.faults = one_more(self.faults);
                Err(Failed)
            }
        }
    }
}

/// How many first bytes of a piece the writer took, at least one; None where it failed.
fn write_some<W: Write>(to: &mut W, piece: &[u8]) -> Option<u32>
    requires { length piece.now < 2 ^ 32 }
    ensures within { IfSome result (λ n. (1 ≤ n) × (n ≤ length piece.now)) }
    ensures taken { IfSome result (λ n. Appends (W.contents to.old) (W.contents to.new) (take n piece.now)) }
    ensures kept { IfNone result (Keeps (W.contents to.old) (W.contents to.new)) }
{
    // A write that was interrupted is tried again.
    for _ in 0..u64::MAX {
        match to.write(piece) {
            Ok(0) => return None,
            Ok(count) => return Some(count as u32),
            Err(error) if error.kind() == ErrorKind::Interrupted => {}
            Err(_) => return None,
        }
    }
    None
}
