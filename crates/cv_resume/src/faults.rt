use cv_base::NoMemory;
use cv_keep::KeepFail;
use std::fmt;

/// Why kept rounds are refused (docs/FORMATS.md, "Kept rounds"), in the order in which they are
/// judged. `restore` tells the first three, `resume` the last.
#[derive(Clone, Copy, Debug, PartialEq, Eq)]
pub enum KeptFault {
    /// The number, from 0, of the first piece that is bad: it is empty, is no list of whole entry
    /// lines whose numbers go on, or has the number 1,024.
    BadPiece(u32),
    /// The entries before this place, from 0, are a legal history of the plan; the one there breaks
    /// this clause first (docs/REPAIR.md, "Audit").
    Wrong(u32, u32),
    /// The entries are a legal history of the plan. This round, from 0, is the first of which some
    /// runs have an entry and some have none.
    Partial(u32),
    /// The entry lines of this round, from 0, are longer than 268,435,456 bytes.
    TooLong(u32),
}

/// Why no book was restored.
#[derive(Clone, Copy, Debug, PartialEq, Eq)]
pub enum RestoreFail {
    /// The pieces are refused.
    Refused(KeptFault),
    /// Memory was refused.
    NoMemory,
}

impl From<NoMemory> for RestoreFail {
    ghost use Rattle.std.specs.Prelude.{◌≡◌};
    ghost use Rattle.cv_resume.specs.declared.faults.RestoreFail.TheVariants as fail;

    ghost from_gives = { λ _ r. r ≡ fail.NoMemory };

    fn from(_error: NoMemory) -> RestoreFail {
        RestoreFail::NoMemory
    }
}

/// Why the rounds of a plan were not run to their end.
#[derive(Clone, Copy, Debug, PartialEq, Eq)]
pub enum KeptFail {
    /// The pieces on the disk are refused.
    Refused(KeptFault),
    /// The disk failed, and has counted the fault. It has to be recovered again.
    DiskFault,
    /// Memory was refused. The disk has to be recovered again.
    NoMemory,
}

impl From<KeepFail> for KeptFail {
    ghost use Rattle.std.specs.Prelude.{◌≡◌};
    ghost use Rattle.cv_resume.specs.Failing.{from_keep};

    ghost from_gives = { λ e r. r ≡ from_keep e };

    fn from(error: KeepFail) -> KeptFail {
        match error {
            KeepFail::DiskFault => KeptFail::DiskFault,
            KeepFail::NoMemory => KeptFail::NoMemory,
        }
    }
}

impl From<RestoreFail> for KeptFail {
    ghost use Rattle.std.specs.Prelude.{◌≡◌};
    ghost use Rattle.cv_resume.specs.Failing.{from_restore};

    ghost from_gives = { λ e r. r ≡ from_restore e };

    fn from(error: RestoreFail) -> KeptFail {
        match error {
            RestoreFail::Refused(fault) => KeptFail::Refused(fault),
            RestoreFail::NoMemory => KeptFail::NoMemory,
        }
    }
}

impl fmt::Display for KeptFault {
    ghost use Rattle.std.specs.Prelude.{Some};
    ghost use Rattle.cv_resume.specs.KeptFaultText.{fault_text};

    ghost output = { λ f. Some (fault_text f) };

    fn fmt<W: fmt::Write>(&self, f: &mut fmt::Formatter<W>) -> fmt::Result {
        match self {
            KeptFault::BadPiece(number) => write!(f, "bad-piece {number}"),
            KeptFault::Wrong(at, clause) => write!(f, "wrong {at} {clause}"),
            KeptFault::Partial(round) => write!(f, "partial {round}"),
            KeptFault::TooLong(round) => write!(f, "too-long {round}"),
        }
    }
}
