ghost use Rattle.std.specs.Prelude.{◌≡◌, ℕ, List, ◌+◌, ◌^◌, ◌≤◌, length, OnOk, IsErrOf};
ghost use Rattle.cv_edge.specs.Edge.{HasCause};
ghost use Rattle.cv_edge.specs.Disk.{written};
ghost use Rattle.cv_keep.specs.Pieces.{frame};
ghost use Rattle.cv_keep.specs.Keeping.{Fronts, KeepsFront};

use cv_edge::{Disk, DiskFail};

/// Writes the length of a piece, the piece, and a byte 0.
pub(crate) fn write_frame<D: Disk>(disk: &mut D, at: u64, piece: &[u8]) -> Result<(), DiskFail>
    requires place { D.means.tells → at ≤ length (D.means.content disk.old) }
    requires most { at ≤ 2 ^ 62 }
    requires short { length piece.now ≤ 2 ^ 28 }
    ensures content { OnOk result (D.means.tells → D.means.content disk.new ≡ written at (frame piece.now) (D.means.content disk.old)) }
    ensures most { OnOk result (at + length piece.now + 5 ≤ 2 ^ 62) }
    ensures images { (front : List ℕ) → length front ≤ at → Fronts D.means disk.old front → KeepsFront D.means disk.old disk.new front }
    ensures cause { HasCause (D.means.faults disk.old) (D.means.faults disk.new) (IsErrOf result DiskFail.Failed) }
{
    let size = (piece.len() as u32).to_le_bytes();
    disk.write_at(at, &size)?;
    disk.write_at(at + 4, piece)?;
    disk.write_at(at + 4 + piece.len() as u64, &[0])?;
    Ok(())
}
