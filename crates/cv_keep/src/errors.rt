use cv_base::NoMemory;
use cv_edge::DiskFail;

/// Why nothing was kept or recovered. The disk then has to be recovered again.
#[derive(Clone, Copy, Debug, PartialEq, Eq)]
pub enum KeepFail {
    /// The disk failed, and has counted the fault.
    DiskFault,
    /// Memory was refused.
    NoMemory,
}

impl From<DiskFail> for KeepFail {
    ghost use Rattle.std.specs.Prelude.{◌≡◌};
    ghost use Rattle.cv_keep.specs.Failing.{told_of};

    ghost from_gives = { λ e r. r ≡ told_of e };

    fn from(error: DiskFail) -> KeepFail {
        match error {
            DiskFail::Failed => KeepFail::DiskFault,
            DiskFail::NoMemory => KeepFail::NoMemory,
        }
    }
}

impl From<NoMemory> for KeepFail {
    ghost use Rattle.std.specs.Prelude.{◌≡◌};
    ghost use Rattle.cv_keep.specs.declared.errors.KeepFail.TheVariants as fail;

    ghost from_gives = { λ _ r. r ≡ fail.NoMemory };

    fn from(_error: NoMemory) -> KeepFail {
        KeepFail::NoMemory
    }
}

/// What `keep` did with a piece.
#[derive(Clone, Copy, Debug, PartialEq, Eq)]
pub enum KeepEnd {
    /// It is on the disk.
    Kept,
    /// It is longer than 268,435,456 bytes. Nothing was written.
    TooLong,
}
