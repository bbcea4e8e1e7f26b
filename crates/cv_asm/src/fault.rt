ghost use Rattle.std.specs.Prelude.{◌≡◌};

use cv_base::NoMemory;
use std::alloc::{AllocError, AllocFailed};
use std::fmt;

/// Why a line of a source is refused (docs/FORMATS.md, "Assembly"). Operands are counted from 1.
#[derive(Clone, Copy, Debug, PartialEq, Eq)]
pub enum LineFault {
    /// The piece before `:` has not the form of a label.
    BadLabel,
    /// An earlier line defines the label.
    DoubleLabel,
    /// No instruction has this name.
    UnknownName,
    /// There are more operands, or fewer, than the name takes.
    OperandCount,
    /// The operand has not the form that the name takes there.
    BadOperand(u32),
    /// The number or the offset is outside its range, or the offset is odd.
    OutOfRange(u32),
    /// No line defines the label.
    UnknownLabel(u32),
    /// This would be word 65,537.
    TooManyWords,
}

/// The fault of a source: that of its first faulty line. Lines are counted from 1.
#[derive(Clone, Copy, Debug, PartialEq, Eq)]
pub struct AsmFault {
    pub line: u32,
    pub fault: LineFault,
}

/// Why no words were made of a source.
#[derive(Clone, Copy, Debug, PartialEq, Eq)]
pub enum AsmFail {
    /// The source is refused: its fault.
    Refused(AsmFault),
    /// Memory was refused.
    NoMemory,
}

impl From<NoMemory> for AsmFail {
    ghost use Rattle.std.specs.Prelude.{◌≡◌};
    ghost use Rattle.cv_asm.specs.declared.fault.AsmFail.TheVariants as fail;

    ghost from_gives = { λ _ r. r ≡ fail.NoMemory };

    fn from(_error: NoMemory) -> AsmFail {
        AsmFail::NoMemory
    }
}

impl From<AllocError> for AsmFail {
    ghost use Rattle.std.specs.Prelude.{◌≡◌};
    ghost use Rattle.cv_asm.specs.declared.fault.AsmFail.TheVariants as fail;

    ghost from_gives = { λ _ r. r ≡ fail.NoMemory };

    fn from(_error: AllocError) -> AsmFail {
        AsmFail::NoMemory
    }
}

impl<T: Drop> From<AllocFailed<T>> for AsmFail {
    ghost use Rattle.std.specs.Prelude.{◌≡◌};
    ghost use Rattle.cv_asm.specs.declared.fault.AsmFail.TheVariants as fail;

    ghost from_gives = { λ _ r. r ≡ fail.NoMemory };

    fn from(_error: AllocFailed<T>) -> AsmFail {
        AsmFail::NoMemory
    }
}

impl fmt::Display for LineFault {
    ghost use Rattle.std.specs.Prelude.{Some};
    ghost use Rattle.cv_asm.specs.FaultText.{line_fault_text};

    ghost output = { λ f. Some (line_fault_text f) };

    fn fmt<W: fmt::Write>(&self, f: &mut fmt::Formatter<W>) -> fmt::Result {
        match self {
            LineFault::BadLabel => write!(f, "bad-label"),
            LineFault::DoubleLabel => write!(f, "double-label"),
            LineFault::UnknownName => write!(f, "unknown-name"),
            LineFault::OperandCount => write!(f, "operand-count"),
            LineFault::BadOperand(operand) => write!(f, "bad-operand {operand}"),
            LineFault::OutOfRange(operand) => write!(f, "out-of-range {operand}"),
            LineFault::UnknownLabel(operand) => write!(f, "unknown-label {operand}"),
            LineFault::TooManyWords => write!(f, "too-many-words"),
        }
    }
}

impl fmt::Display for AsmFault {
    ghost use Rattle.std.specs.Prelude.{Some};
    ghost use Rattle.cv_asm.specs.FaultText.{asm_fault_text};

    ghost output = { λ f. Some (asm_fault_text f) };

    fn fmt<W: fmt::Write>(&self, f: &mut fmt::Formatter<W>) -> fmt::Result {
        let line = self.line;
        let fault = self.fault;
        write!(f, "line {line} {fault}")
    }
}
