ghost use Rattle.std.specs.Prelude.{◌≡◌, ◌↔◌, ◌+◌, ◌^◌, ◌<◌, ◌≤◌, [], ◌∷◌, ◌++◌, length, Ok, OnOk, IsErrOf};
ghost use Rattle.cv_edge.specs.Edge.{HasCause};
ghost use Rattle.cv_edge.specs.Disk.{LeavesOnly};
ghost use Rattle.cv_keep.specs.Pieces.{pieces};
ghost use Rattle.cv_keep.specs.Keeping.{IsSettled, IsBeforeOrAfter};

use crate::framing::write_frame;
use crate::reading::LONGEST;
use crate::{KeepEnd, KeepFail};
use cv_edge::Disk;
use std::marker::Model;

/// The end place of a disk's pieces, which the last Ok of `recover` or `keep` left.
#[derive(Debug, Drop)]
pub struct Keep {
    pub(crate) end: u64,
}

impl Model for Keep {
    ghost use Rattle.std.specs.Prelude.{ℕ, ◌+◌, ◌^◌, ◌≤◌};

    ghost Value = { ℕ };

    ghost view = { λ k. k.end };

    ghost invariant = { λ k. k.end + 1 ≤ 2 ^ 62 };
}

impl Keep {
    /// Adds a piece to those on the disk. With Kept it is there: from then on every crash leaves it.
    /// A crash at any moment of the call, whatever it answers, leaves the pieces from before it,
    /// with this one or without. TooLong comes exactly where the piece is longer than 268,435,456
    /// bytes. After a failure the disk has to be recovered again.
    ///
    /// The disk has to be as the last `recover` or `keep` left it, which was Ok. Takes no memory of
    /// its own.
    pub fn keep<D: Disk>(&mut self, disk: &mut D, piece: &[u8]) -> Result<KeepEnd, KeepFail>
        requires { IsSettled D.means disk.old self.old }
        ensures kept { result ≡ Ok KeepEnd.Kept → IsSettled D.means disk.new self.new }
        ensures pieces { result ≡ Ok KeepEnd.Kept → D.means.tells → pieces (D.means.content disk.new) ≡ pieces (D.means.content disk.old) ++ piece.now ∷ [] }
        ensures too_long { (result ≡ Ok KeepEnd.TooLong) ↔ (2 ^ 28 < length piece.now) }
        ensures unwritten { 2 ^ 28 < length piece.now → (disk.new ≡ disk.old) × (self.new ≡ self.old) }
        ensures images { D.means.tells → LeavesOnly D.means disk.old disk.new (IsBeforeOrAfter (pieces (D.means.content disk.old)) piece.now) }
        ensures cause { HasCause (D.means.faults disk.old) (D.means.faults disk.new) (IsErrOf result KeepFail.DiskFault) }
    {
        if piece.len() > LONGEST {
            return Ok(KeepEnd::TooLong);
        }
        let end = self.end;
        write_frame(disk, end + 1, piece)?;
        disk.sync()?;
        disk.write_at(end, &[1])?;
        disk.sync()?;
        self.end = end + (5 + piece.len() as u64);
        Ok(KeepEnd::Kept)
    }
}
