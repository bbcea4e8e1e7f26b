ghost use Rattle.std.specs.Prelude.{◌≡◌};
ghost use Rattle.clearview.specs.Causes.{status_of};

use crate::judgement::Judgement;
use cv_asm::{AsmFail, AsmFault};
use cv_base::{ImageFail, ImageFault, NoMemory};
use cv_core::Book;
use cv_edge::FetchFail;
use cv_job::{JobFail, JobFault};
use cv_journal::{JournalFail, JournalFault};
use cv_resume::KeptFault;
use std::fmt;

/// How a call ended. Each has its status (docs/FORMATS.md, "Causes and statuses").
#[derive(Clone, Copy, Debug, PartialEq, Eq)]
pub enum Cause {
    /// The whole text was written.
    Done,
    /// The words are no command.
    Usage,
    /// There is no file of a name that the command names.
    FileMissing,
    /// The job's file has more than 16,777,216 bytes.
    JobLong,
    /// The job's file is no job: the first fault.
    JobRefused(JobFault),
    /// The image's file has more than 4,194,304 bytes.
    ImageLong,
    /// The image's file is no image: the first fault.
    ImageRefused(ImageFault),
    /// The source's file has more than 4,194,304 bytes.
    AsmLong,
    /// The source is refused: the fault of its first faulty line.
    AsmRefused(AsmFault),
    /// The report's file has more than 268,435,456 bytes.
    ReportLong,
    /// The report's file has no journal: the first fault.
    ReportRefused(JournalFault),
    /// Memory was refused.
    NoMemory,
    /// The store failed.
    StoreFault,
    /// The sink failed; a beginning of the text may be written.
    SinkFault,
    /// The disk that keeps rounds failed.
    DiskFault,
    /// The rounds on the disk are refused, or a round is too long to be kept.
    KeptRefused(KeptFault),
}

impl Cause {
    /// The exit status of the program.
    pub fn status(self) -> u8
        ensures { result ≡ status_of self }
    {
        match self {
            Cause::Done => 0,
            Cause::Usage => 2,
            Cause::FileMissing => 12,
            Cause::JobLong | Cause::JobRefused(_) => 3,
            Cause::ImageLong | Cause::ImageRefused(_) => 4,
            Cause::AsmLong | Cause::AsmRefused(_) => 8,
            Cause::ReportLong | Cause::ReportRefused(_) => 9,
            Cause::NoMemory => 5,
            Cause::StoreFault => 6,
            Cause::SinkFault => 7,
            Cause::DiskFault => 10,
            Cause::KeptRefused(_) => 11,
        }
    }
}

/// How a call ended, with the exit status of the program; where a job was run and its report made,
/// the book of its runs; and where a report was judged, what was found of it.
#[derive(Drop)]
pub struct Finish {
    pub status: u8,
    pub cause: Cause,
    pub book: Option<Book>,
    pub found: Option<Judgement>,
}

impl fmt::Display for Cause {
    ghost use Rattle.std.specs.Prelude.{Some};
    ghost use Rattle.clearview.specs.CauseText.{cause_text};

    ghost output = { λ c. Some (cause_text c) };

    fn fmt<W: fmt::Write>(&self, f: &mut fmt::Formatter<W>) -> fmt::Result {
        match self {
            Cause::Done => write!(f, "clearview: done"),
            Cause::Usage => write!(f, "clearview: usage"),
            Cause::FileMissing => write!(f, "clearview: no such file"),
            Cause::JobLong => write!(f, "clearview: job too long"),
            Cause::JobRefused(fault) => write!(f, "clearview: job refused: {fault}"),
            Cause::ImageLong => write!(f, "clearview: image too long"),
            Cause::ImageRefused(fault) => write!(f, "clearview: image refused: {fault}"),
            Cause::AsmLong => write!(f, "clearview: source too long"),
            Cause::AsmRefused(fault) => write!(f, "clearview: source refused: {fault}"),
            Cause::ReportLong => write!(f, "clearview: report too long"),
            Cause::ReportRefused(fault) => write!(f, "clearview: report refused: {fault}"),
            Cause::NoMemory => write!(f, "clearview: out of memory"),
            Cause::StoreFault => write!(f, "clearview: cannot read"),
            Cause::SinkFault => write!(f, "clearview: cannot write"),
            Cause::DiskFault => write!(f, "clearview: disk failed"),
            Cause::KeptRefused(fault) => write!(f, "clearview: kept history refused: {fault}"),
        }
    }
}

impl From<NoMemory> for Cause {
    ghost use Rattle.std.specs.Prelude.{◌≡◌};
    ghost use Rattle.clearview.specs.declared.cause.Cause.TheVariants as cause;

    ghost from_gives = { λ _ r. r ≡ cause.NoMemory };

    fn from(_error: NoMemory) -> Cause {
        Cause::NoMemory
    }
}

impl From<FetchFail> for Cause {
    ghost use Rattle.std.specs.Prelude.{◌≡◌};
    ghost use Rattle.clearview.specs.Froms.{from_fetch};

    ghost from_gives = { λ e r. r ≡ from_fetch e };

    fn from(error: FetchFail) -> Cause {
        match error {
            FetchFail::Failed => Cause::StoreFault,
            FetchFail::NoMemory => Cause::NoMemory,
        }
    }
}

impl From<ImageFail> for Cause {
    ghost use Rattle.std.specs.Prelude.{◌≡◌};
    ghost use Rattle.clearview.specs.Froms.{from_image};

    ghost from_gives = { λ e r. r ≡ from_image e };

    fn from(error: ImageFail) -> Cause {
        match error {
            ImageFail::Refused(fault) => Cause::ImageRefused(fault),
            ImageFail::NoMemory => Cause::NoMemory,
        }
    }
}

impl From<JobFail> for Cause {
    ghost use Rattle.std.specs.Prelude.{◌≡◌};
    ghost use Rattle.clearview.specs.Froms.{from_job};

    ghost from_gives = { λ e r. r ≡ from_job e };

    fn from(error: JobFail) -> Cause {
        match error {
            JobFail::Refused(fault) => Cause::JobRefused(fault),
            JobFail::NoMemory => Cause::NoMemory,
        }
    }
}

impl From<AsmFail> for Cause {
    ghost use Rattle.std.specs.Prelude.{◌≡◌};
    ghost use Rattle.clearview.specs.Froms.{from_asm};

    ghost from_gives = { λ e r. r ≡ from_asm e };

    fn from(error: AsmFail) -> Cause {
        match error {
            AsmFail::Refused(fault) => Cause::AsmRefused(fault),
            AsmFail::NoMemory => Cause::NoMemory,
        }
    }
}

impl From<JournalFail> for Cause {
    ghost use Rattle.std.specs.Prelude.{◌≡◌};
    ghost use Rattle.clearview.specs.Froms.{from_journal};

    ghost from_gives = { λ e r. r ≡ from_journal e };

    fn from(error: JournalFail) -> Cause {
        match error {
            JournalFail::Refused(fault) => Cause::ReportRefused(fault),
            JournalFail::NoMemory => Cause::NoMemory,
        }
    }
}
