ghost use Rattle.std.specs.Prelude.{◌≡◌, ◌++◌, [], ◌∷◌, length, filter, IfOk, OnOk, IsTrue, option_to_list};
ghost use Rattle.std.specs.List.Sorted.{IsNonDecreasing, IsPermutation};
ghost use Rattle.cv_base.specs.Picture.{is_point};
ghost use Rattle.cv_runs.specs.Text.{inst_at, call_target, beginnings};
ghost use Rattle.cv_blocks.specs.Bounds.{IsGreatestUpTo, IsLeastAbove};

use crate::listing::Listing;
use cv_base::NoMemory;
use cv_isa::{Inst, Op};
use std::alloc::Global;

/// Where procedures begin, in ascending order.
pub(crate) fn starts_of(alloc: Global, listing: &Listing) -> Result<Vec<u32>, NoMemory>
    ensures same { IfOk result (λ starts. IsPermutation (beginnings listing.now) starts.items) }
    ensures ascending { IfOk result (λ starts. IsNonDecreasing starts.items) }
{
    let mut starts = unsorted_starts(alloc, listing)?;
    starts.sort()?;
    Ok(starts)
}

/// Where procedures begin: the first point, the entry, and what is called, in the callers' order.
fn unsorted_starts(alloc: Global, listing: &Listing) -> Result<Vec<u32>, NoMemory>
    ensures { IfOk result (λ starts. starts.items ≡ beginnings listing.now) }
{
    let base = listing.base();
    let count = listing.count();
    let mut starts = Vec::new(alloc);
    starts.push(base)?;
    starts.push(listing.entry())?;
    for k in 0..count {
        add_called(&mut starts, listing, base + 4 * k)?;
    }
    Ok(starts)
}

/// Adds what the instruction at a point calls, where that is a point.
fn add_called(starts: &mut Vec<u32>, listing: &Listing, point: u32) -> Result<(), NoMemory>
    requires { IsTrue (is_point listing.now point) }
    ensures { OnOk result (starts.new.items ≡ starts.old.items ++ filter (is_point listing.now) (option_to_list (call_target point (inst_at listing.now point)))) }
{
    match called_by(point, listing.inst(point)) {
        Some(target) if listing.range().is_point(target) => {
            starts.push(target)?;
            Ok(())
        }
        _ => Ok(()),
    }
}

/// The address that a JAL with a link register calls from a point.
fn called_by(point: u32, inst: Option<Inst>) -> Option<u32>
    ensures { result ≡ call_target point inst }
{
    let inst = inst?;
    match inst.op {
        Op::Jal if inst.rd == 1 || inst.rd == 5 => Some(point.wrapping_add(inst.imm)),
        _ => None,
    }
}

/// The last start that is at most the limit, or 0 where none is.
pub(crate) fn last_up_to(starts: &[u32], limit: u32) -> u32
    requires { IsNonDecreasing starts.now }
    ensures { IsGreatestUpTo starts.now limit result }
{
    match starts.partition_point(|start| *start <= limit) {
        0 => 0,
        count => starts[count - 1],
    }
}

/// The first start that is above the limit, or `end` where none is below `end`.
pub(crate) fn first_above(starts: &[u32], limit: u32, end: u32) -> u32
    requires { IsNonDecreasing starts.now }
    ensures { IsLeastAbove starts.now limit end result }
{
    let count = starts.partition_point(|start| *start <= limit);
    match starts.get(count) {
        Some(start) => end.min(*start),
        None => end,
    }
}
