ghost use Rattle.std.specs.Prelude.{◌≡◌, [], ◌++◌, ◌<◌, ℕ, List, false, IfOk, IsTrue, length};
ghost use Rattle.cv_base.specs.declared.entries.Observation.{Observation};
ghost use Rattle.cv_base.specs.Picture.{is_point};
ghost use Rattle.cv_blocks.specs.TextMap.{is_in_window};
ghost use Rattle.cv_observe.specs.AtPoint.{IsPoint, numbers_of};
ghost use Rattle.cv_observe.specs.StandsFor.{IsTable, StandsFor};
ghost use Rattle.cv_runs.specs.Text.{reads_at};

use crate::numbers::members;
use crate::point::Point;
use cv_base::NoMemory;
use cv_blocks::TextMap;
use std::alloc::Global;

/// The points of a text of which nothing was seen.
pub(crate) fn unseen_points(alloc: Global, map: &TextMap) -> Result<Vec<Point>, NoMemory>
    ensures table { IfOk result (λ v. IsTable map.now v.items) }
    ensures empty { IfOk result (λ v. StandsFor (record { text = map.now; points = v.items }) []) }
{
    let mut points = Vec::with_capacity(alloc, map.count())?;
    for x in 0..map.count() {
        let point = unseen_at(alloc, map, map.point(x))?;
        points.push(point)?;
    }
    Ok(points)
}

/// A point of which nothing was seen.
fn unseen_at(alloc: Global, map: &TextMap, point: u32) -> Result<Point, NoMemory>
    requires { IsTrue (is_point map.now point) }
    ensures numbers { IfOk result (λ k. numbers_of k.registers.items ≡ reads_at map.now point) }
    ensures kept { IfOk result (λ k. IsPoint (is_in_window map.now point) k []) }
{
    let reads = members(alloc, map.reads(point))?;
    Point::unseen(alloc, reads.as_slice(), map.window(point))
}

/// Adds what was seen at each point of another table of the same text.
pub(crate) fn join_each(map: &TextMap, points: &mut [Point], others: &[Point])
    requires table { IsTable map.now points.old }
    requires other { IsTable map.now others.now }
    ensures table { IsTable map.now points.new }
    ensures joined { (xs ys : List Observation) → StandsFor (record { text = map.now; points = points.old }) xs → StandsFor (record { text = map.now; points = others.now }) ys → StandsFor (record { text = map.now; points = points.new }) (xs ++ ys) }
{
    for (x, point) in points.iter_mut().enumerate() {
        point.join_seen(&others[x]);
    }
}

/// Forgets what was seen at each point.
pub(crate) fn clear_each(map: &TextMap, points: &mut [Point])
    requires { IsTable map.now points.old }
    ensures table { IsTable map.now points.new }
    ensures empty { StandsFor (record { text = map.now; points = points.new }) [] }
{
    for (x, point) in points.iter_mut().enumerate() {
        clear_at(map, map.point(x), point);
    }
}

/// Forgets what was seen at a point.
fn clear_at(map: &TextMap, place: u32, point: &mut Point)
    requires { IsTrue (is_point map.now place) }
    ensures numbers { numbers_of point.new.registers.items ≡ numbers_of point.old.registers.items }
    ensures kept { (point.old.seen ≡ false → IsPoint (is_in_window map.now place) point.old []) → IsPoint (is_in_window map.now place) point.new [] }
{
    point.clear_seen(map.window(place));
}
