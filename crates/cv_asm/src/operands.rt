ghost use Rattle.std.specs.Prelude.{◌≡◌, ◌%◌, ◌&&◌, IsTrue, IfOk};
ghost use Rattle.cv_asm.specs.Fits.{IsFrom, IsKind, IsOfKind, capped_target};
ghost use Rattle.cv_asm.specs.Labels.{place_by};
ghost use Rattle.cv_asm.specs.Operands.{is_even, is_within, offset, operand_in, target_in, value_of, value_where};

use crate::fault::LineFault;
use crate::labels::{Labels, place};
use crate::lexer::is_label;
use crate::numbers::{Number, read_number, register};
use crate::shapes::Kind;

/// Whether a number is from −low to high.
fn is_within(low: u32, high: u32, n: Number) -> bool
    ensures { result ≡ is_within low high n }
{
    if n.negative {
        n.size <= u64::from(low)
    } else {
        n.size <= u64::from(high)
    }
}

/// How far it is from one place to another.
fn offset(from: u32, to: u32) -> Number
    ensures { result ≡ offset from to }
{
    if from <= to {
        Number {
            negative: false,
            size: u64::from(to - from),
        }
    } else {
        Number {
            negative: true,
            size: u64::from(from - to),
        }
    }
}

/// The 32-bit number of one in range.
fn value(low: u32, high: u32, n: Number) -> u32
    requires kind { IsKind (Kind.Number low high) }
    requires within { IsTrue (is_within low high n) }
    ensures value { result ≡ value_of n }
    ensures fits { IsFrom low high result }
    ensures even { IsTrue (is_even n) → result % 2 ≡ 0 }
{
    if n.negative {
        0u32.wrapping_sub(n.size as u32)
    } else {
        n.size as u32
    }
}

/// The offset that a target is, with its size up to the cap.
fn target<'t>(labels: &Labels<'t>, from: u32, k: u32, text: &'t [u8]) -> Result<Number, LineFault>
    ensures { result ≡ capped_target (target_in (place_by labels.now) from k text.now) }
{
    if let Some(n) = read_number(text) {
        return Ok(n);
    }
    if !is_label(text) {
        return Err(LineFault::BadOperand(k));
    }
    match place(labels, text) {
        Some(to) => Ok(offset(from, to)),
        None => Err(LineFault::UnknownLabel(k)),
    }
}

/// The value of a number in range.
fn in_range(low: u32, high: u32, k: u32, n: Number) -> Result<u32, LineFault>
    requires { IsKind (Kind.Number low high) }
    ensures value { result ≡ value_where (is_within low high n) k n }
    ensures fits { IfOk result (IsFrom low high) }
{
    if is_within(low, high, n) {
        Ok(value(low, high, n))
    } else {
        Err(LineFault::OutOfRange(k))
    }
}

/// The value of an even number in range.
fn even_in_range(low: u32, high: u32, k: u32, n: Number) -> Result<u32, LineFault>
    requires { IsKind (Kind.Number low high) }
    ensures value { result ≡ value_where (is_within low high n && is_even n) k n }
    ensures fits { IfOk result (λ v. IsFrom low high v × (v % 2 ≡ 0)) }
{
    if is_within(low, high, n) && n.size % 2 == 0 {
        Ok(value(low, high, n))
    } else {
        Err(LineFault::OutOfRange(k))
    }
}

/// The value of the `k`-th operand of the instruction at `from`.
#[tactic(auto, using(crate::proofs::Capping::target_read, crate::proofs::Capping::target_refused, crate::proofs::Capping::number_read, crate::proofs::Capping::number_refused, crate::proofs::Capping::register_read, crate::proofs::Capping::register_refused))]
pub(crate) fn operand<'t>(
    labels: &Labels<'t>,
    from: u32,
    k: u32,
    kind: Kind,
    text: &'t [u8],
) -> Result<u32, LineFault>
    requires { IsKind kind }
    ensures value { result ≡ operand_in (place_by labels.now) from k kind text.now }
    ensures fits { IfOk result (IsOfKind kind) }
{
    match kind {
        Kind::Register => match register(text) {
            Some(number) => Ok(number),
            None => Err(LineFault::BadOperand(k)),
        },
        Kind::Number(low, high) => match read_number(text) {
            Some(n) => in_range(low, high, k, n),
            None => Err(LineFault::BadOperand(k)),
        },
        Kind::Target(low, high) => match target(labels, from, k, text) {
            Ok(n) => even_in_range(low, high, k, n),
            Err(fault) => Err(fault),
        },
    }
}
