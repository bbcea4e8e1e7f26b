ghost use Rattle.std.specs.Prelude.{◌≡◌, ◌++◌, ◌<◌, OnOk, IfOk, IsTrue, length};
ghost use Rattle.std.specs.List.{All, flat_map, list_any};
ghost use Rattle.cv_base.specs.Picture.{is_point};
ghost use Rattle.cv_observe.specs.Learning.{above_kept, learned_from, learned_if_seen, learned_kept, lower_kept, offset_kept, one_of_kept, pair_kept, tells_pair};

use crate::numbers::members;
use crate::point::Point;
use crate::register::Register;
use cv_base::{Invariant, Items, NoMemory};
use cv_blocks::TextMap;
use std::alloc::Global;

/// Adds, for each register of which at most four values were seen, that it is one of them.
fn add_one_ofs(
    alloc: Global,
    list: &mut Vec<Invariant>,
    point: u32,
    registers: &[Register],
) -> Result<(), NoMemory>
    ensures { OnOk result (list.new.items ≡ list.old.items ++ flat_map (one_of_kept point) registers.now) }
{
    for k in registers {
        if !k.values.more {
            let values = Vec::from_slice(alloc, k.values.numbers.as_slice())?;
            list.push(Invariant::OneOf {
                point,
                reg: k.number,
                values: Items::from_vec(values),
            })?;
        }
    }
    Ok(())
}

/// Adds, for each register of which more values were seen, the least one.
fn add_lowers(list: &mut Vec<Invariant>, point: u32, registers: &[Register]) -> Result<(), NoMemory>
    ensures { OnOk result (list.new.items ≡ list.old.items ++ flat_map (lower_kept point) registers.now) }
{
    for k in registers {
        if k.values.more {
            list.push(Invariant::Lower {
                point,
                reg: k.number,
                bound: k.least.unwrap_or(0),
            })?;
        }
    }
    Ok(())
}

/// Whether a register is one of two, and was never above or below the other one.
fn tells_pair(a: u8, b: u8, k: &Register) -> bool
    requires low { a < 32 }
    requires high { b < 32 }
    ensures { result ≡ tells_pair a b k.now }
{
    (k.number == a && k.above.contains(b)) || (k.number == b && k.below.contains(a))
}

/// Whether two registers differ, one of them is read, and the first was never above the second.
fn pair_kept(registers: &[Register], a: u8, b: u8) -> bool
    requires low { a < 32 }
    requires high { b < 32 }
    ensures { result ≡ pair_kept registers.now a b }
{
    a != b && some_tells(registers, a, b)
}

/// Whether one of the registers is one of two, and was never above or below the other one.
fn some_tells(registers: &[Register], a: u8, b: u8) -> bool
    requires low { a < 32 }
    requires high { b < 32 }
    ensures { result ≡ list_any (tells_pair a b) registers.now }
{
    for k in registers {
        if tells_pair(a, b, k) {
            return true;
        }
    }
    false
}

/// Adds the registers of the window that were never below register `a`.
fn add_above(
    list: &mut Vec<Invariant>,
    point: u32,
    a: u8,
    window: &[u8],
    registers: &[Register],
) -> Result<(), NoMemory>
    requires low { a < 32 }
    requires high { All (λ r. r < 32) window.now }
    ensures { OnOk result (list.new.items ≡ list.old.items ++ above_kept point registers.now window.now a) }
{
    for b in window {
        if pair_kept(registers, a, *b) {
            list.push(Invariant::LessThan {
                point,
                low: a,
                high: *b,
            })?;
        }
    }
    Ok(())
}

/// Adds each pair of registers of the window of which one was never above the other.
fn add_less_thans(
    list: &mut Vec<Invariant>,
    point: u32,
    window: &[u8],
    registers: &[Register],
) -> Result<(), NoMemory>
    requires { All (λ r. r < 32) window.now }
    ensures { OnOk result (list.new.items ≡ list.old.items ++ flat_map (above_kept point registers.now window.now) window.now) }
{
    for a in window {
        add_above(list, point, *a, window, registers)?;
    }
    Ok(())
}

/// Adds the offset of sp from the frame's sp, where it was always the same.
fn add_sp_offset(list: &mut Vec<Invariant>, point: u32, kept: &Point) -> Result<(), NoMemory>
    ensures { OnOk result (list.new.items ≡ list.old.items ++ offset_kept point kept.now) }
{
    if kept.offsets.more {
        return Ok(());
    }
    if let [offset] = kept.offsets.numbers.as_slice() {
        list.push(Invariant::SpOffset {
            point,
            offset: *offset,
        })?;
    }
    Ok(())
}

/// Adds what is learned of what is kept at a point.
pub(crate) fn add_learned(
    alloc: Global,
    list: &mut Vec<Invariant>,
    point: u32,
    window: &[u8],
    kept: &Point,
) -> Result<(), NoMemory>
    requires { All (λ r. r < 32) window.now }
    ensures { OnOk result (list.new.items ≡ list.old.items ++ learned_kept point window.now kept.now) }
{
    let registers = kept.registers.as_slice();
    add_one_ofs(alloc, list, point, registers)?;
    add_lowers(list, point, registers)?;
    add_less_thans(list, point, window, registers)?;
    add_sp_offset(list, point, kept)
}

/// Adds what is learned at a point of a text, if it was seen.
fn learn_point(
    alloc: Global,
    list: &mut Vec<Invariant>,
    map: &TextMap,
    point: u32,
    kept: &Point,
) -> Result<(), NoMemory>
    requires { IsTrue (is_point map.now point) }
    ensures { OnOk result (list.new.items ≡ list.old.items ++ learned_if_seen map.now point kept.now) }
{
    if !kept.seen {
        return Ok(());
    }
    let window = members(alloc, map.window(point))?;
    add_learned(alloc, list, point, window.as_slice(), kept)
}

/// What is learned of what is kept at the points of a text.
pub(crate) fn learned_of_points(
    alloc: Global,
    map: &TextMap,
    points: &[Point],
) -> Result<Items<Invariant>, NoMemory>
    requires { length points.now ≡ length map.now.words }
    ensures { IfOk result (λ l. l ≡ learned_from map.now map.now.text_base points.now) }
{
    let mut list = Vec::new(alloc);
    for (x, kept) in points.iter().enumerate() {
        learn_point(alloc, &mut list, map, map.point(x), kept)?;
    }
    Ok(Items::from_vec(list))
}
