ghost use Rattle.std.specs.Prelude.{◌≡◌, true, Some, IfOk, IsSome};
ghost use Rattle.std.specs.List.{list_all};
ghost use Rattle.cv_base.specs.declared.invariants.Invariant.{Invariant};
ghost use Rattle.cv_base.specs.Invariants.{is_invariant};
ghost use Rattle.cv_base.specs.Picture.{is_point};
ghost use Rattle.cv_case.specs.Referred.{referred};
ghost use Rattle.cv_histories.specs.Cases.{candidates_at};
ghost use Rattle.cv_histories.specs.Seen.{live_failure};
ghost use Rattle.cv_runs.specs.Invariants.{point_of};
ghost use Rattle.cv_runs.specs.Text.{beginnings};

use crate::nearest::nearest;
use cv_base::{Case, End, Entry, FailureId, Invariant, Items, Mode, NoMemory};
use cv_blocks::TextMap;
use std::alloc::Global;

/// The failure of a live entry that failed.
fn failure_of(entry: &Entry) -> FailureId
    requires { IsSome (live_failure entry.now) }
    ensures { live_failure entry.now ≡ Some result }
{
    match (entry.mode, entry.end) {
        (Mode::Live, End::Failure { id, .. }) => id,
        _ => unreachable!(),
    }
}

/// Equal invariants.
fn copies(alloc: Global, invariants: &[&Invariant]) -> Result<Items<Invariant>, NoMemory>
    ensures { IfOk result (λ copies. copies ≡ referred invariants.now) }
{
    let mut copies = Vec::with_capacity(alloc, invariants.len())?;
    for invariant in invariants {
        copies.push(invariant.copied(alloc)?)?;
    }
    Ok(Items::from_vec(copies))
}

/// The candidates of the first site whose procedure has a learned invariant.
fn candidates(
    alloc: Global,
    learned: &[Invariant],
    sites: &[u32],
    map: &TextMap,
) -> Result<Items<Invariant>, NoMemory>
    requires sites { list_all (is_point map.now) sites.now ≡ true }
    requires points { list_all (λ (k : Invariant). is_point map.now (point_of k)) learned.now ≡ true }
    ensures { IfOk result (λ ks. ks ≡ candidates_at (beginnings map.now) learned.now sites.now) }
{
    for site in sites {
        let nearest = nearest(alloc, *site, learned, map)?;
        if !nearest.is_empty() {
            return copies(alloc, nearest.as_slice());
        }
    }
    Ok(Items::make(alloc))
}

/// The case that a live entry opens which failed: `number` is the entry's place in the history, and
/// `learned` what is learned of the history up to this entry.
///
/// Its candidates are those of the first site whose procedure has a learned invariant: the 64 that
/// are nearest to the site, of equally near ones the lower first, and at one point in their order.
pub fn open_case(
    alloc: Global,
    number: u32,
    entry: &Entry,
    learned: &[Invariant],
    map: &TextMap,
) -> Result<Case, NoMemory>
    requires failed { IsSome (live_failure entry.now) }
    requires sites { list_all (is_point map.now) entry.now.sites ≡ true }
    requires points { list_all (λ (k : Invariant). is_point map.now (point_of k)) learned.now ≡ true }
    ensures id { IfOk result (λ c. live_failure entry.now ≡ Some c.id) }
    ensures opened { IfOk result (λ c. c.opened ≡ number) }
    ensures candidates { IfOk result (λ c. c.candidates ≡ candidates_at (beginnings map.now) learned.now entry.now.sites) }
    ensures kinds { list_all is_invariant learned.now ≡ true → IfOk result (λ c. list_all is_invariant c.candidates ≡ true) }
    ensures points { IfOk result (λ c. list_all (λ (k : Invariant). is_point map.now (point_of k)) c.candidates ≡ true) }
{
    let id = failure_of(entry);
    let candidates = candidates(alloc, learned, entry.sites.as_slice(), map)?;
    Ok(Case {
        id,
        opened: number,
        candidates,
    })
}
