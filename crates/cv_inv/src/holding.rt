ghost use Rattle.std.specs.Prelude.{◌≡◌, true};
ghost use Rattle.cv_base.specs.Invariants.{is_invariant};
ghost use Rattle.cv_runs.specs.Invariants.{holds, names, point_of, signed_le};

use cv_base::{Invariant, Regs};

/// Whether an invariant holds of the registers and the frame's sp before the instruction at its
/// point (docs/REPAIR.md, "Invariants").
pub fn holds(invariant: &Invariant, regs: &Regs, frame_sp: u32) -> bool
    requires { is_invariant invariant.now ≡ true }
    ensures { result ≡ holds invariant.now regs.now frame_sp }
{
    match invariant {
        Invariant::OneOf { reg, values, .. } => values.as_slice().contains(&regs.get(*reg)),
        Invariant::Lower { reg, bound, .. } => is_at_most(*bound, regs.get(*reg)),
        Invariant::LessThan { low, high, .. } => is_at_most(regs.get(*low), regs.get(*high)),
        Invariant::SpOffset { offset, .. } => regs.get(2).wrapping_sub(frame_sp) == *offset,
    }
}

/// Whether `a` is at most `b`, as two's complement numbers.
fn is_at_most(a: u32, b: u32) -> bool
    ensures { result ≡ signed_le a b }
{
    a.cast_signed() <= b.cast_signed()
}

/// The point of an invariant.
pub fn point_of(invariant: &Invariant) -> u32
    ensures { result ≡ point_of invariant.now }
{
    match invariant {
        Invariant::OneOf { point, .. }
        | Invariant::Lower { point, .. }
        | Invariant::LessThan { point, .. }
        | Invariant::SpOffset { point, .. } => *point,
    }
}

/// Whether an invariant names the register. An `SpOffset` names none.
pub fn names(invariant: &Invariant, reg: u8) -> bool
    ensures { result ≡ names invariant.now reg }
{
    match invariant {
        Invariant::OneOf { reg: named, .. } | Invariant::Lower { reg: named, .. } => reg == *named,
        Invariant::LessThan { low, high, .. } => reg == *low || reg == *high,
        Invariant::SpOffset { .. } => false,
    }
}
