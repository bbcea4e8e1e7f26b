ghost use Rattle.std.specs.Prelude.{◌≡◌};
ghost use Rattle.std.specs.Cmp.{IsTotalOrder};
ghost use Rattle.cv_base.specs.declared.invariants.Invariant.{Invariant};
ghost use Rattle.cv_runs.specs.Invariants.{invariant_cmp};

use crate::point_of;
use cv_base::Invariant;
use std::cmp::Ordering;

/// The order of two invariants: by point, then by kind in the order of `Invariant`'s variants, then
/// by registers, then by values, all as unsigned numbers; a list of values comes before a longer one
/// that begins with it (docs/REPAIR.md, "Invariants").
pub fn compare(a: &Invariant, b: &Invariant) -> Ordering
    ensures { result ≡ invariant_cmp a.now b.now }
{
    let by_point = point_of(a).cmp(&point_of(b));
    match (a, b) {
        (
            Invariant::OneOf { reg, values, .. },
            Invariant::OneOf {
                reg: other,
                values: others,
                ..
            },
        ) => by_point
            .then(reg.cmp(other))
            .then(values.as_slice().cmp(&others.as_slice())),
        (
            Invariant::Lower { reg, bound, .. },
            Invariant::Lower {
                reg: other,
                bound: limit,
                ..
            },
        ) => by_point.then(reg.cmp(other)).then(bound.cmp(limit)),
        (
            Invariant::LessThan { low, high, .. },
            Invariant::LessThan {
                low: other_low,
                high: other_high,
                ..
            },
        ) => by_point.then(low.cmp(other_low)).then(high.cmp(other_high)),
        (Invariant::SpOffset { offset, .. }, Invariant::SpOffset { offset: other, .. }) => {
            by_point.then(offset.cmp(other))
        }
        (Invariant::OneOf { .. }, _) => by_point.then(Ordering::Less),
        (_, Invariant::OneOf { .. }) => by_point.then(Ordering::Greater),
        (Invariant::Lower { .. }, _) => by_point.then(Ordering::Less),
        (_, Invariant::Lower { .. }) => by_point.then(Ordering::Greater),
        (Invariant::LessThan { .. }, _) => by_point.then(Ordering::Less),
        (_, Invariant::LessThan { .. }) => by_point.then(Ordering::Greater),
    }
}

/// The order of invariants is total.
pub fn order_is_total()
    ensures { IsTotalOrder invariant_cmp }
{}

/// Invariants that the order does not tell apart are equal.
pub fn equal_order_is_equality()
    ensures { (a b : Invariant) → invariant_cmp a b ≡ Ordering.Equal → a ≡ b }
{}
