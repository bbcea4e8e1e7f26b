ghost use Rattle.std.specs.Prelude.{◌≡◌, ◌⊎◌, ◌+◌, ◌^◌, ◌<◌, ◌≤◌, length, slice_index, IfOk, OnOk, IsErrOf};
ghost use Rattle.cv_edge.specs.Edge.{HasCause};
ghost use Rattle.cv_edge.specs.Disk.{Only, LeavesOnly};
ghost use Rattle.cv_keep.specs.Pieces.{pieces, end_of};
ghost use Rattle.cv_keep.specs.Keeping.{IsSettled, Quiet};

use crate::reading::pieces_in;
use crate::{Keep, KeepFail};
use cv_base::Items;
use cv_edge::{Disk, DiskFail};
use std::alloc::Global;

/// The pieces on a disk, in their order, and what more pieces are kept by. It begins with a sync,
/// and makes good the end of a file that a crash left: a byte 0 at the end place.
///
/// After Ok the disk has the pieces of the content at the start, and this content is what every
/// crash leaves. Where it was so at the start, a crash at any moment of the call, whatever it
/// answers, leaves these pieces. After a failure the disk has to be recovered again.
pub fn recover<D: Disk>(alloc: Global, disk: &mut D) -> Result<(Keep, Vec<Items<u8>>), KeepFail>
    ensures found { IfOk result (λ r. D.means.tells → r.1.items ≡ pieces (D.means.content disk.old)) }
    ensures settled { IfOk result (λ r. IsSettled D.means disk.new r.0) }
    ensures pieces { OnOk result (D.means.tells → pieces (D.means.content disk.new) ≡ pieces (D.means.content disk.old)) }
    ensures images { D.means.tells → Only (D.means.content disk.old) (D.means.image disk.old) → LeavesOnly D.means disk.old disk.new (λ c. pieces c ≡ pieces (D.means.content disk.old)) }
    ensures cause { HasCause (D.means.faults disk.old) (D.means.faults disk.new) (IsErrOf result KeepFail.DiskFault) }
{
    disk.sync()?;
    let bytes = read_all(alloc, disk)?;
    let (pieces, end) = pieces_in(alloc, bytes.as_slice())?;
    settle(disk, bytes.as_slice(), end)?;
    Ok((Keep { end: end as u64 }, pieces))
}

/// The content of a disk.
fn read_all<D: Disk>(alloc: Global, disk: &mut D) -> Result<Vec<u8>, DiskFail>
    ensures bytes { IfOk result (λ bytes. D.means.tells → bytes.items ≡ D.means.content disk.old) }
    ensures most { IfOk result (λ bytes. length bytes.items ≤ 2 ^ 62) }
    ensures quiet { Quiet D.means disk.old disk.new }
    ensures cause { HasCause (D.means.faults disk.old) (D.means.faults disk.new) (IsErrOf result DiskFail.Failed) }
{
    let len = disk.len()?;
    let mut bytes = vec![in alloc; 0u8; len as usize]?;
    disk.read(0, bytes.as_mut_slice())?;
    Ok(bytes)
}

/// Leaves the byte 0 at the end place: writes it, where it is not there.
fn settle<D: Disk>(disk: &mut D, bytes: &[u8], end: usize) -> Result<(), DiskFail>
    requires content { D.means.tells → (bytes.now ≡ D.means.content disk.old) × Only (D.means.content disk.old) (D.means.image disk.old) }
    requires place { end ≡ end_of (pieces bytes.now) }
    requires most { length bytes.now ≤ 2 ^ 62 }
    ensures settled { OnOk result (IsSettled D.means disk.new end) }
    ensures room { OnOk result (end + 1 ≤ 2 ^ 62) }
    ensures pieces { OnOk result (D.means.tells → pieces (D.means.content disk.new) ≡ pieces (D.means.content disk.old)) }
    ensures images { D.means.tells → LeavesOnly D.means disk.old disk.new (λ c. pieces c ≡ pieces (D.means.content disk.old)) }
    ensures cause { HasCause (D.means.faults disk.old) (D.means.faults disk.new) (IsErrOf result DiskFail.Failed) }
{
    if end < bytes.len() && bytes[end] == 0 {
        return Ok(());
    }
    shut(disk, end as u64)?;
    Ok(())
}

/// Writes the byte 0 at the end place, where it is missing or not 0.
fn shut<D: Disk>(disk: &mut D, end: u64) -> Result<(), DiskFail>
    requires only { D.means.tells → Only (D.means.content disk.old) (D.means.image disk.old) }
    requires place { D.means.tells → end ≡ end_of (pieces (D.means.content disk.old)) }
    requires broken { D.means.tells → (length (D.means.content disk.old) ≡ end) ⊎ (0 < slice_index (D.means.content disk.old) end) }
    ensures settled { OnOk result (IsSettled D.means disk.new end) }
    ensures room { OnOk result (end + 1 ≤ 2 ^ 62) }
    ensures pieces { OnOk result (D.means.tells → pieces (D.means.content disk.new) ≡ pieces (D.means.content disk.old)) }
    ensures images { D.means.tells → LeavesOnly D.means disk.old disk.new (λ c. pieces c ≡ pieces (D.means.content disk.old)) }
    ensures cause { HasCause (D.means.faults disk.old) (D.means.faults disk.new) (IsErrOf result DiskFail.Failed) }
{
    disk.write_at(end, &[0])?;
    disk.sync()?;
    Ok(())
}
