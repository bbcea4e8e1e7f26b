ghost use Rattle.std.specs.Prelude.{◌≡◌, ◌++◌, map, IfOk, OnOk, IsTrue};
ghost use Rattle.cv_base.specs.declared.entries.Observation.{Observation};
ghost use Rattle.cv_base.specs.Picture.{is_point};
ghost use Rattle.cv_runs.specs.Learned.{distinct, learned, learned_at, seen_at};
ghost use Rattle.cv_runs.specs.Text.{reads_at, window_registers};
ghost use Rattle.cv_observe.specs.StandsFor.{are_at_points};

use crate::kinds::{learn_at, seen_at};
use crate::numbers::{distinct, members};
use cv_base::{Invariant, Items, NoMemory, Observation};
use cv_blocks::TextMap;
use std::alloc::Global;

/// The points where something was seen, ascending.
fn points_of(alloc: Global, seen: &[Observation]) -> Result<Vec<u32>, NoMemory>
    ensures { IfOk result (λ v. v.items ≡ distinct (map (λ (o : Observation). o.point) seen.now)) }
{
    let points: Vec<u32> = seen.iter().map(|o| o.point).collect(alloc)?;
    distinct(alloc, points.as_slice())
}

/// Adds what is learned at a point.
fn learn_point(
    alloc: Global,
    list: &mut Vec<Invariant>,
    map: &TextMap,
    point: u32,
    seen: &[Observation],
) -> Result<(), NoMemory>
    requires { IsTrue (is_point map.now point) }
    ensures { OnOk result (list.new.items ≡ list.old.items ++ learned_at point (reads_at map.now point) (window_registers map.now point) (seen_at seen.now point)) }
{
    let reads = members(alloc, map.reads(point))?;
    let window = members(alloc, map.window(point))?;
    let here = seen_at(alloc, seen, point)?;
    learn_at(
        alloc,
        list,
        point,
        reads.as_slice(),
        window.as_slice(),
        here.as_slice(),
    )
}

/// What is learned of observations at points of a text.
pub(crate) fn learned_of(
    alloc: Global,
    map: &TextMap,
    seen: &[Observation],
) -> Result<Items<Invariant>, NoMemory>
    requires { IsTrue (are_at_points map.now seen.now) }
    ensures { IfOk result (λ l. l ≡ learned map.now seen.now) }
{
    let points = points_of(alloc, seen)?;
    let mut list = Vec::new(alloc);
    for point in points.as_slice() {
        learn_point(alloc, &mut list, map, *point, seen)?;
    }
    Ok(Items::from_vec(list))
}
