ghost use Rattle.std.specs.Prelude.{◌≡◌, ◌+◌, ◌≤◌, ◌^◌, ℕ, List, length, take, drop, IfOk, OnOk, OnErr, IsErrOf};
ghost use Rattle.cv_edge.specs.Edge.{HasCause};
ghost use Rattle.cv_edge.specs.Disk.{Meaning, written, Torn, Follows, Only, Elapses, Still};

use cv_base::NoMemory;
use std::alloc::{AllocError, AllocFailed};

/// How many bytes a disk holds at most.
pub(crate) const MOST: u64 = 1 << 62;

/// Why a call of a disk gave no answer.
#[derive(Clone, Copy, Debug, PartialEq, Eq)]
pub enum DiskFail {
    /// The disk failed, and has counted the fault.
    Failed,
    /// Memory was refused. Neither the content nor what a crash may leave has changed.
    NoMemory,
}

impl From<NoMemory> for DiskFail {
    ghost use Rattle.std.specs.Prelude.{◌≡◌};
    ghost use Rattle.cv_edge.specs.declared.disk.DiskFail.TheVariants as fail;

    ghost from_gives = { λ _ r. r ≡ fail.NoMemory };

    fn from(_error: NoMemory) -> DiskFail {
        DiskFail::NoMemory
    }
}

impl From<AllocError> for DiskFail {
    ghost use Rattle.std.specs.Prelude.{◌≡◌};
    ghost use Rattle.cv_edge.specs.declared.disk.DiskFail.TheVariants as fail;

    ghost from_gives = { λ _ r. r ≡ fail.NoMemory };

    fn from(_error: AllocError) -> DiskFail {
        DiskFail::NoMemory
    }
}

impl<T: Drop> From<AllocFailed<T>> for DiskFail {
    ghost use Rattle.std.specs.Prelude.{◌≡◌};
    ghost use Rattle.cv_edge.specs.declared.disk.DiskFail.TheVariants as fail;

    ghost from_gives = { λ _ r. r ≡ fail.NoMemory };

    fn from(_error: AllocFailed<T>) -> DiskFail {
        DiskFail::NoMemory
    }
}

/// One file of bytes that outlives a crash (docs/FORMATS.md, "The disk model"). A disk has a count
/// of faults and a moment, which never fall. One that tells also means its content, the images that
/// a crash now may leave, and the images that a crash since a moment might have left.
///
/// Each call answers Failed only where the count of faults rose in it, or stands at its end,
/// 2^64 - 1; and NoMemory only for want of memory, which is no fault and changes neither the
/// content nor an image.
pub trait Disk {
    ghost means: { Meaning Self };

    /// The length of the content in bytes, at most 2^62. Changes nothing.
    fn len(&mut self) -> Result<u64, DiskFail>
        ensures exact { IfOk result (λ n. means.tells → n ≡ length (means.content self.old)) }
        ensures most { IfOk result (λ n. n ≤ 2 ^ 62) }
        ensures still { Still means self.old self.new }
        ensures time { Elapses means self.old self.new }
        ensures cause { HasCause (means.faults self.old) (means.faults self.new) (IsErrOf result DiskFail.Failed) }
        ensures no_fault { IsErrOf result DiskFail.NoMemory → means.faults self.new ≡ means.faults self.old };

    /// Fills `piece` with the bytes from the place `at` on. Changes nothing.
    fn read(&mut self, at: u64, piece: &mut [u8]) -> Result<(), DiskFail>
        requires { means.tells → at + length piece.old ≤ length (means.content self.old) }
        ensures bytes { OnOk result (means.tells → piece.new ≡ take (length piece.old) (drop at (means.content self.old))) }
        ensures still { Still means self.old self.new }
        ensures time { Elapses means self.old self.new }
        ensures cause { HasCause (means.faults self.old) (means.faults self.new) (IsErrOf result DiskFail.Failed) }
        ensures no_fault { IsErrOf result DiskFail.NoMemory → means.faults self.new ≡ means.faults self.old };

    /// Writes `piece` at the place `at`, over what is there and past the end. Until a sync, a crash
    /// may leave any part of the write, also of one that failed. Answers Ok only where the write
    /// ends at 2^62 bytes at most.
    fn write_at(&mut self, at: u64, piece: &[u8]) -> Result<(), DiskFail>
        requires { means.tells → at ≤ length (means.content self.old) }
        ensures content { OnOk result (means.tells → means.content self.new ≡ written at piece.now (means.content self.old)) }
        ensures most { OnOk result (at + length piece.now ≤ 2 ^ 62) }
        ensures torn { Follows (Torn at (length piece.now)) (means.image self.old) (means.image self.new) }
        ensures no_memory { IsErrOf result DiskFail.NoMemory → Still means self.old self.new }
        ensures time { Elapses means self.old self.new }
        ensures cause { HasCause (means.faults self.old) (means.faults self.new) (IsErrOf result DiskFail.Failed) }
        ensures no_fault { IsErrOf result DiskFail.NoMemory → means.faults self.new ≡ means.faults self.old };

    /// Brings all that was written to the disk: after Ok, a crash leaves the content. It never
    /// changes the content; a sync that failed changes no image.
    fn sync(&mut self) -> Result<(), DiskFail>
        ensures content { means.tells → means.content self.new ≡ means.content self.old }
        ensures only { OnOk result (means.tells → Only (means.content self.old) (means.image self.new)) }
        ensures images { (c : List ℕ) → means.image self.new c → means.image self.old c }
        ensures failed { OnErr result (Still means self.old self.new) }
        ensures time { Elapses means self.old self.new }
        ensures cause { HasCause (means.faults self.old) (means.faults self.new) (IsErrOf result DiskFail.Failed) }
        ensures no_fault { IsErrOf result DiskFail.NoMemory → means.faults self.new ≡ means.faults self.old };

    /// The content is one of the images.
    ghost among: { (disk : Self) → means.tells → means.image disk (means.content disk) };

    /// An image now is one of those since any earlier moment.
    ghost counts_now: { (disk : Self) (t : ℕ) (c : List ℕ) → t ≤ means.moment disk → means.image disk c → means.image_since disk t c };

    /// Since this moment there is no other image than those now.
    ghost only_now: { (disk : Self) (c : List ℕ) → means.image_since disk (means.moment disk) c → means.image disk c };
}
