use crate::Address;
use std::fmt;

/// Why a run crashed (docs/MACHINE.md, "The nine tests").
#[derive(Clone, Copy, Debug, PartialEq, Eq)]
pub enum CrashCause {
    /// The word does not decode.
    IllegalInstruction,
    /// An EBREAK.
    Break,
    /// A call where 4,096 frames stand.
    Deep,
    /// An access whose address is no multiple of its size.
    Misaligned,
    /// A load of a byte that is not readable.
    Unreadable,
    /// A store into the executable segment.
    Code,
    /// A store of a byte that is not writable.
    Unwritable,
}

/// What stopped a run: one of the three monitors, or a crash.
#[derive(Clone, Copy, Debug, PartialEq, Eq)]
pub enum FailureKind {
    /// The next pc would be no instruction of the text.
    IllegalTransfer,
    /// An access to the heap outside one live block.
    HeapGuard,
    /// A return to another address than the call's.
    ShadowStack,
    /// Anything that the machine itself refuses.
    Crash(CrashCause),
}

/// By which failures are the same: the kind and the pc at which it came.
#[derive(Clone, Copy, Debug, PartialEq, Eq)]
pub struct FailureId {
    pub kind: FailureKind,
    pub pc: u32,
}

/// How a run ended.
#[derive(Clone, Copy, Debug, PartialEq, Eq)]
pub enum End {
    /// The program called exit.
    Exit { code: u32 },
    /// A test of a turn stopped it; the detail is a word, a target or an address.
    Failure { id: FailureId, detail: u32 },
    /// The budget of turns passed with no end.
    Budget,
}

impl fmt::Display for FailureKind {
    ghost use Rattle.std.specs.Prelude.{Some};
    ghost use Rattle.cv_base.specs.EndText.{kind_text};

    ghost output = { λ k. Some (kind_text k) };

    fn fmt<W: fmt::Write>(&self, f: &mut fmt::Formatter<W>) -> fmt::Result {
        f.write_str(match self {
            FailureKind::IllegalTransfer => "illegal-transfer",
            FailureKind::HeapGuard => "heap-guard",
            FailureKind::ShadowStack => "shadow-stack",
            FailureKind::Crash(CrashCause::IllegalInstruction) => "crash-illegal",
            FailureKind::Crash(CrashCause::Break) => "crash-break",
            FailureKind::Crash(CrashCause::Deep) => "crash-deep",
            FailureKind::Crash(CrashCause::Misaligned) => "crash-misaligned",
            FailureKind::Crash(CrashCause::Unreadable) => "crash-unreadable",
            FailureKind::Crash(CrashCause::Code) => "crash-code",
            FailureKind::Crash(CrashCause::Unwritable) => "crash-unwritable",
        })
    }
}

impl fmt::Display for End {
    ghost use Rattle.std.specs.Prelude.{Some};
    ghost use Rattle.cv_base.specs.EndText.{end_text};

    ghost output = { λ e. Some (end_text e) };

    fn fmt<W: fmt::Write>(&self, f: &mut fmt::Formatter<W>) -> fmt::Result {
        match self {
            End::Exit { code } => write!(f, "exit:{code}"),
            End::Failure { id, detail } => {
                let kind = id.kind;
                let pc = Address(id.pc);
                let detail = Address(*detail);
                write!(f, "failure:{kind}:{pc}:{detail}")
            }
            End::Budget => write!(f, "budget"),
        }
    }
}
