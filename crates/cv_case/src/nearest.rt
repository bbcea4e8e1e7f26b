ghost use Rattle.std.specs.Prelude.{◌≡◌, ◌≤◌, true, length, take, IsTrue, IfOk, OnOk};
ghost use Rattle.std.specs.Borrow.{Bor};
ghost use Rattle.std.specs.List.{list_all, position_or_len};
ghost use Rattle.cv_base.specs.declared.invariants.Invariant.{Invariant};
ghost use Rattle.cv_base.specs.Picture.{is_point};
ghost use Rattle.cv_histories.specs.Cases.{comes_before, placed, by_distance, of_procedure};
ghost use Rattle.cv_histories.specs.declared.TheConstants.{MOST_CANDIDATES};
ghost use Rattle.cv_runs.specs.Invariants.{point_of};
ghost use Rattle.cv_runs.specs.Text.{beginnings};
ghost use Rattle.cv_case.specs.Referred.{referred};

use cv_base::{Invariant, NoMemory};
use cv_blocks::TextMap;
use cv_histories::MOST_CANDIDATES;
use cv_inv::point_of;
use std::alloc::Global;

/// Whether an invariant is nearer to the site than another one, or as near and lower.
fn comes_before(site: u32, a: &Invariant, b: &Invariant) -> bool
    ensures { result ≡ comes_before site a.now b.now }
{
    let (a, b) = (point_of(a), point_of(b));
    let (from_a, from_b) = (site.abs_diff(a), site.abs_diff(b));
    from_a < from_b || (from_a == from_b && a < b)
}

/// The place of an invariant among the nearest ones: before the first that it comes before.
fn place_of(nearest: &[&Invariant], site: u32, invariant: &Invariant) -> usize
    ensures place { result ≡ position_or_len (λ (r : Bor Invariant). comes_before site invariant.now r.now) nearest.now }
    ensures within { result ≤ length nearest.now }
{
    nearest
        .iter()
        .position(|other| comes_before(site, invariant, other))
        .unwrap_or(nearest.len())
}

/// Puts an invariant at its place among the nearest ones, and drops the last of more than are kept.
fn place<'a>(
    nearest: &mut Vec<&'a Invariant>,
    site: u32,
    invariant: &'a Invariant,
) -> Result<(), NoMemory>
    ensures { OnOk result (referred nearest.new.items ≡ take MOST_CANDIDATES (placed site (referred nearest.old.items) invariant.now)) }
{
    let at = place_of(nearest.as_slice(), site, invariant);
    nearest.insert(at, invariant)?;
    nearest.truncate(MOST_CANDIDATES as usize);
    Ok(())
}

/// The invariants of the site's procedure that are nearest to it, as many as a case keeps.
pub(crate) fn nearest<'a>(
    alloc: Global,
    site: u32,
    learned: &'a [Invariant],
    map: &TextMap,
) -> Result<Vec<&'a Invariant>, NoMemory>
    requires site { IsTrue (is_point map.now site) }
    requires points { list_all (λ (k : Invariant). is_point map.now (point_of k)) learned.now ≡ true }
    ensures { IfOk result (λ v. referred v.items ≡ take MOST_CANDIDATES (by_distance site (of_procedure (beginnings map.now) site learned.now))) }
{
    let procedure = map.proc_of(site);
    let mut nearest = Vec::with_capacity(alloc, MOST_CANDIDATES as usize + 1)?;
    for invariant in learned {
        if map.proc_of(point_of(invariant)) == procedure {
            place(&mut nearest, site, invariant)?;
        }
    }
    Ok(nearest)
}
