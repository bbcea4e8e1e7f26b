ghost use Rattle.std.specs.Prelude.{◌≡◌, ℕ, List, Option, ◌^◌, ◌<◌, ◌≤◌, length, take, IfOk, OnOk, OnErr, IsErr};
ghost use Rattle.cv_edge.specs.Edge.{Appends, AppendsPrefix, Keeps, HasCause};

/// A fault of the outside, which whoever answers it has counted.
#[derive(Clone, Copy, Debug, PartialEq, Eq)]
pub struct Failed;

/// Where text goes. A sink may tell the bytes written; it goes on telling, and one that does not
/// tell never begins to. Its count of faults never falls.
pub trait Sink {
    ghost written: { Self → Option (List ℕ) };

    ghost faults: { Self → ℕ };

    /// Takes the first bytes of a piece, and answers how many: at least one. The piece has at least
    /// one byte and fewer than 2^32.
    ///
    /// Answers Failed only where the count of faults rose in this call, or stands at its end,
    /// 2^64 - 1; then no byte was taken.
    fn write(&mut self, piece: &[u8]) -> Result<u32, Failed>
        requires some { 0 < length piece.now }
        requires short { length piece.now < 2 ^ 32 }
        ensures within { IfOk result (λ n. (1 ≤ n) × (n ≤ length piece.now)) }
        ensures taken { IfOk result (λ n. Appends (written self.old) (written self.new) (take n piece.now)) }
        ensures kept { OnErr result (Keeps (written self.old) (written self.new)) }
        ensures cause { HasCause (faults self.old) (faults self.new) (IsErr result) };
}

/// Writes a text whole, piece by piece, and takes no memory.
///
/// Answers Failed where a write did, and then some first bytes of the text were written.
pub fn write_all<K: Sink>(sink: &mut K, text: &[u8]) -> Result<(), Failed>
    ensures whole { OnOk result (Appends (K.written sink.old) (K.written sink.new) text.now) }
    ensures part { OnErr result (AppendsPrefix (K.written sink.old) (K.written sink.new) text.now) }
    ensures cause { HasCause (K.faults sink.old) (K.faults sink.new) (IsErr result) }
{
    let mut done = 0;
    while done < text.len() {
        let count = (text.len() - done).min(u32::MAX as usize);
        let taken = sink.write(&text[done..done + count])?;
        done += taken as usize;
    }
    Ok(())
}
