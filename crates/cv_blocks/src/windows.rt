ghost use Rattle.std.specs.Prelude.{◌≡◌, ◌||◌, ℕ, length, map, IfOk, IsTrue};
ghost use Rattle.std.specs.List.{list_any};
ghost use Rattle.cv_base.specs.Picture.{is_point};
ghost use Rattle.cv_isa.specs.Uses.{has};
ghost use Rattle.cv_runs.specs.Text.{inst_at, points_before, reads};
ghost use Rattle.cv_blocks.specs.TextMap.{is_in_window, AreWindows};

use crate::listing::{Listing, is_transfer, read_by};
use cv_base::NoMemory;
use cv_isa::RegSet;
use std::alloc::Global;

/// The most points before a point that are in its window.
const MOST_BEFORE: u32 = 7;

/// The registers of the window of each point.
pub(crate) fn windows_of(alloc: Global, listing: &Listing) -> Result<Vec<RegSet>, NoMemory>
    ensures { IfOk result (λ sets. AreWindows listing.now (length listing.now.words) sets.items) }
{
    let base = listing.base();
    let count = listing.count();
    let mut sets = Vec::with_capacity(alloc, count as usize)?;
    for k in 0..count {
        sets.push(window_of(listing, base + 4 * k))?;
    }
    Ok(sets)
}

/// The registers that are read in the window of a point.
fn window_of(listing: &Listing, point: u32) -> RegSet
    requires { IsTrue (is_point listing.now point) }
    ensures { (r : ℕ) → has result r ≡ is_in_window listing.now point r }
{
    let here = read_by(&listing.inst(point));
    union(here, read_before(listing, point, MOST_BEFORE))
}

/// The registers that are read at the points before a point: at up to `count` of them, stopping
/// before a transfer and at the start of the text.
fn read_before(listing: &Listing, point: u32, count: u32) -> RegSet
    requires { IsTrue (is_point listing.now point) }
    ensures { (r : ℕ) → has result r ≡ list_any (λ i. reads i r) (map (inst_at listing.now) (points_before listing.now point count)) }
{
    if count == 0 || point == listing.base() {
        return RegSet::empty();
    }
    let inst = listing.inst(point - 4);
    if is_transfer(&inst) {
        return RegSet::empty();
    }
    let here = read_by(&inst);
    union(here, read_before(listing, point - 4, count - 1))
}

/// The registers of either set.
fn union(a: RegSet, b: RegSet) -> RegSet
    ensures { (r : ℕ) → has result r ≡ (has a r || has b r) }
{
    RegSet {
        bits: a.bits | b.bits,
    }
}
