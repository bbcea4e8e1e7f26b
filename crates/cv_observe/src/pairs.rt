ghost use Rattle.std.specs.Prelude.{◌≡◌, ◌++◌, ◌∷◌, [], ℕ, List, ◌&&◌, ◌||◌, ◌<◌, ◌==◌, not, true, false, IfSome, IsNone};
ghost use Rattle.cv_base.specs.Registers.{register};
ghost use Rattle.cv_isa.specs.Uses.{has};
ghost use Rattle.cv_runs.specs.Invariants.{signed_le};
ghost use Rattle.cv_observe.specs.Kept.{least_of};

use crate::numbers::{is_at_most, lesser};
use cv_base::Regs;
use cv_isa::RegSet;

/// Whether all registers of a set hold at least a value, signed, and all of another one at most,
/// where register `own` holds it.
#[inline]
pub(crate) fn are_in_order(above: RegSet, below: RegSet, own: u8, value: u32, regs: &Regs) -> bool
    requires low { own < 32 }
    requires own { value ≡ register regs.now own }
    ensures above { result ≡ true → (b : ℕ) → has above b ≡ (has above b && signed_le value (register regs.now b)) }
    ensures below { result ≡ true → (b : ℕ) → has below b ≡ (has below b && signed_le (register regs.now b) value) }
{
    if is_alone(above, below, own) {
        return true;
    }
    let others = without(either(above, below), own);
    are_at_least(common(above, others), value, regs)
        && are_at_most(common(below, others), value, regs)
}

/// Whether neither of two sets has another register than `own`.
#[inline]
fn is_alone(set: RegSet, other: RegSet, own: u8) -> bool
    requires { own < 32 }
    ensures set { result ≡ true → (b : ℕ) → has set b ≡ true → b ≡ own }
    ensures other { result ≡ true → (b : ℕ) → has other b ≡ true → b ≡ own }
{
    first(without(either(set, other), own)).is_none()
}

/// The registers of one of two sets, or of both.
#[inline]
fn either(set: RegSet, other: RegSet) -> RegSet
    ensures { (r : ℕ) → has result r ≡ (has set r || has other r) }
{
    RegSet {
        bits: set.bits | other.bits,
    }
}

/// Whether all registers of a set hold at least a value, signed.
#[inline]
#[tactic(auto, using(crate::proofs::OneOut::narrowed_none))]
fn are_at_least(set: RegSet, value: u32, regs: &Regs) -> bool
    ensures { result ≡ true → (b : ℕ) → has set b ≡ (has set b && signed_le value (register regs.now b)) }
{
    let mut left = set;
    while let Some(b) = first(left) {
        if !is_at_most(value, regs.get(b)) {
            return false;
        }
        left = without(left, b);
    }
    true
}

/// Whether all registers of a set hold at most a value, signed.
#[inline]
#[tactic(auto, using(crate::proofs::OneOut::narrowed_none))]
fn are_at_most(set: RegSet, value: u32, regs: &Regs) -> bool
    ensures { result ≡ true → (b : ℕ) → has set b ≡ (has set b && signed_le (register regs.now b) value) }
{
    let mut left = set;
    while let Some(b) = first(left) {
        if !is_at_most(regs.get(b), value) {
            return false;
        }
        left = without(left, b);
    }
    true
}

/// The registers of a set that hold at least a value, signed.
#[tactic(auto, using(crate::proofs::OneOut::narrowed_none))]
pub(crate) fn at_least(set: RegSet, value: u32, regs: &Regs) -> RegSet
    ensures { (b : ℕ) → has result b ≡ (has set b && signed_le value (register regs.now b)) }
{
    let mut kept = set;
    let mut left = set;
    while let Some(b) = first(left) {
        left = without(left, b);
        if !is_at_most(value, regs.get(b)) {
            kept = without(kept, b);
        }
    }
    kept
}

/// The registers of a set that hold at most a value, signed.
#[tactic(auto, using(crate::proofs::OneOut::narrowed_none))]
pub(crate) fn at_most(set: RegSet, value: u32, regs: &Regs) -> RegSet
    ensures { (b : ℕ) → has result b ≡ (has set b && signed_le (register regs.now b) value) }
{
    let mut kept = set;
    let mut left = set;
    while let Some(b) = first(left) {
        left = without(left, b);
        if !is_at_most(regs.get(b), value) {
            kept = without(kept, b);
        }
    }
    kept
}

/// The least register of a set.
#[tactic(auto, using(crate::proofs::OneOut::first_there))]
fn first(set: RegSet) -> Option<u8>
    ensures none { IsNone result → (r : ℕ) → has set r ≡ false }
    ensures some { IfSome result (λ r. (r < 32) × (has set r ≡ true)) }
{
    let bits = set.bits;
    if bits == 0 {
        return None;
    }
    Some(bits.trailing_zeros() as u8)
}

/// A set without a register.
#[tactic(auto, using(crate::proofs::OneOut::others, crate::proofs::OneOut::fewer))]
fn without(set: RegSet, reg: u8) -> RegSet
    requires { reg < 32 }
    ensures others { (r : ℕ) → has result r ≡ (has set r && not (r == reg)) }
    ensures fewer { has set reg ≡ true → result.bits < set.bits }
{
    let bits = set.bits;
    RegSet {
        bits: bits & !(1 << reg),
    }
}

/// The registers of both sets.
#[tactic(auto, using(crate::proofs::Narrowing::common_members))]
pub(crate) fn common(set: RegSet, other: RegSet) -> RegSet
    ensures { (r : ℕ) → has result r ≡ (has set r && has other r) }
{
    RegSet {
        bits: set.bits & other.bits,
    }
}

/// Makes the least of some numbers that of one more, of which nothing is written where it is not
/// less.
#[inline]
#[tactic(auto, using(crate::proofs::Narrowing::least_stays, crate::proofs::Narrowing::least_goes, crate::proofs::Narrowing::least_begins))]
pub(crate) fn keep_least(least: &mut Option<u32>, value: u32)
    ensures { (xs : List ℕ) → least.old ≡ least_of xs → least.new ≡ least_of (xs ++ value ∷ []) }
{
    if let Some(known) = *least {
        if is_at_most(known, value) {
            return;
        }
    }
    *least = Some(value);
}

/// The least of the numbers of two lists, by the leasts of both.
#[tactic(auto, using(crate::proofs::Narrowing::least_joined))]
pub(crate) fn least_of_both(least: Option<u32>, other: Option<u32>) -> Option<u32>
    ensures { (xs ys : List ℕ) → least ≡ least_of xs → other ≡ least_of ys → result ≡ least_of (xs ++ ys) }
{
    match (least, other) {
        (Some(least), Some(other)) => Some(lesser(least, other)),
        (Some(least), None) => Some(least),
        (None, other) => other,
    }
}
