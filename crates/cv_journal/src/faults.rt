use cv_base::NoMemory;
use std::fmt;

/// Why a text is no report with a journal (docs/FORMATS.md, "Reading a report").
#[derive(Clone, Copy, Debug, PartialEq, Eq)]
pub enum JournalFault {
    /// The text is empty, or its first line is of no form of the report.
    NotReport,
    /// The first line is that of the first form, whose cases were learned otherwise.
    OldReport,
    /// The first line among the entries' lines that is the line of no entry with its number, from 0.
    BadEntry(u32),
}

/// Why no journal was read.
#[derive(Clone, Copy, Debug, PartialEq, Eq)]
pub enum JournalFail {
    /// The text has no journal: the first fault.
    Refused(JournalFault),
    /// Memory was refused.
    NoMemory,
}

impl From<NoMemory> for JournalFail {
    ghost use Rattle.std.specs.Prelude.{◌≡◌};
    ghost use Rattle.cv_journal.specs.declared.faults.JournalFail.TheVariants as fail;

    ghost from_gives = { λ _ r. r ≡ fail.NoMemory };

    fn from(_error: NoMemory) -> JournalFail {
        JournalFail::NoMemory
    }
}

impl fmt::Display for JournalFault {
    ghost use Rattle.std.specs.Prelude.{Some};
    ghost use Rattle.cv_journal.specs.JournalFaultText.{fault_text};

    ghost output = { λ f. Some (fault_text f) };

    fn fmt<W: fmt::Write>(&self, f: &mut fmt::Formatter<W>) -> fmt::Result {
        match self {
            JournalFault::NotReport => write!(f, "not-report"),
            JournalFault::OldReport => write!(f, "old-report"),
            JournalFault::BadEntry(number) => write!(f, "bad-entry {number}"),
        }
    }
}
