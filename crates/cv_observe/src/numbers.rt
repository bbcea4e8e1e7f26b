ghost use Rattle.std.specs.Prelude.{◌≡◌, ◌<◌, IfOk};
ghost use Rattle.std.specs.List.{All};
ghost use Rattle.cv_isa.specs.Uses.{members_of};
ghost use Rattle.cv_runs.specs.Invariants.{signed_le};
ghost use Rattle.cv_runs.specs.Learned.{distinct, lesser, signed_least};

use cv_base::NoMemory;
use cv_isa::RegSet;
use std::alloc::Global;
use std::collections::BTreeSet;

/// The distinct numbers, ascending.
pub(crate) fn distinct(alloc: Global, numbers: &[u32]) -> Result<Vec<u32>, NoMemory>
    ensures { IfOk result (λ v. v.items ≡ distinct numbers.now) }
{
    let mut keys = BTreeSet::new(alloc);
    for n in numbers {
        keys.insert(*n)?;
    }
    Ok(keys.into_iter().collect(alloc)?)
}

/// The registers of a set, ascending, each below 32.
pub(crate) fn members(alloc: Global, set: RegSet) -> Result<Vec<u8>, NoMemory>
    ensures items { IfOk result (λ v. v.items ≡ members_of set) }
    ensures below { IfOk result (λ v. All (λ r. r < 32) v.items) }
{
    let mut list = Vec::new(alloc);
    for r in 1..32 {
        if set.contains(r) {
            list.push(r)?;
        }
    }
    Ok(list)
}

/// Whether `a` is at most `b`, as two's complement numbers.
pub(crate) fn is_at_most(a: u32, b: u32) -> bool
    ensures { result ≡ signed_le a b }
{
    a.cast_signed() <= b.cast_signed()
}

/// The lesser of two numbers, as two's complement numbers.
pub(crate) fn lesser(a: u32, b: u32) -> u32
    ensures { result ≡ lesser a b }
{
    if b.cast_signed() < a.cast_signed() {
        b
    } else {
        a
    }
}

/// The least of some numbers, as two's complement numbers; 0 where there is none.
pub(crate) fn signed_least(numbers: &[u32]) -> u32
    ensures { result ≡ signed_least numbers.now }
{
    numbers
        .iter()
        .copied()
        .reduce(|a, b| lesser(a, b))
        .unwrap_or(0)
}
