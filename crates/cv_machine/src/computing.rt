ghost use Rattle.std.specs.Prelude.{◌≡◌};
ghost use Rattle.cv_runs.specs.Arithmetic.{computed, is_taken, signed_lt, shifted_right_signed};

use cv_isa::Op;

/// What a computation gives of its two operands; `None` for other operations (RISC-V Unprivileged
/// ISA, 2.4 "Integer Computational Instructions").
#[inline(always)]
pub(crate) fn compute(op: Op, a: u32, b: u32) -> Option<u32>
    ensures { result ≡ computed op a b }
{
    Some(match op {
        Op::Addi | Op::Add => a.wrapping_add(b),
        Op::Sub => a.wrapping_sub(b),
        Op::Slti | Op::Slt => u32::from(signed_lt(a, b)),
        Op::Sltiu | Op::Sltu => u32::from(a < b),
        Op::Xori | Op::Xor => a ^ b,
        Op::Ori | Op::Or => a | b,
        Op::Andi | Op::And => a & b,
        Op::Slli | Op::Sll => a.wrapping_shl(b),
        Op::Srli | Op::Srl => a.wrapping_shr(b),
        Op::Srai | Op::Sra => shifted_right_signed(a, b),
        _ => return None,
    })
}

/// Whether a branch is taken; other operations take none (RISC-V Unprivileged ISA, 2.5
/// "Conditional Branches").
#[inline(always)]
pub(crate) fn takes(op: Op, a: u32, b: u32) -> bool
    ensures { result ≡ is_taken op a b }
{
    match op {
        Op::Beq => a == b,
        Op::Bne => a != b,
        Op::Blt => signed_lt(a, b),
        Op::Bge => !signed_lt(a, b),
        Op::Bltu => a < b,
        Op::Bgeu => a >= b,
        _ => false,
    }
}

/// Less, as two's complement numbers.
#[inline]
fn signed_lt(a: u32, b: u32) -> bool
    ensures { result ≡ signed_lt a b }
{
    a.cast_signed() < b.cast_signed()
}

/// A shift by the low five bits of b that copies the sign bit.
#[inline]
fn shifted_right_signed(a: u32, b: u32) -> u32
    ensures { result ≡ shifted_right_signed a b }
{
    (a.cast_signed() >> (b % 32)).cast_unsigned()
}
