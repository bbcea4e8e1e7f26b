ghost use Rattle.std.specs.Prelude.{◌≡◌, ◌++◌, ◌<◌, IfOk, OnOk};
ghost use Rattle.std.specs.List.{All};
ghost use Rattle.cv_observe.specs.Above.{above};
ghost use Rattle.cv_runs.specs.Learned.{values_of, one_ofs, lowers, is_pair, is_ordered, less_thans, offsets_of, sp_offset, learned_at, seen_at};

use crate::numbers::{distinct, is_at_most, signed_least};
use cv_base::{Invariant, Items, NoMemory, Observation};
use std::alloc::Global;

/// The values of a register, from 0 to 31, in what was seen.
fn values_of(alloc: Global, r: u8, seen: &[Observation]) -> Result<Vec<u32>, NoMemory>
    requires { r < 32 }
    ensures { IfOk result (λ v. v.items ≡ values_of r seen.now) }
{
    Ok(seen.iter().map(|o| o.regs.get(r)).collect(alloc)?)
}

/// What was seen at a point.
pub(crate) fn seen_at(
    alloc: Global,
    seen: &[Observation],
    point: u32,
) -> Result<Vec<Observation>, NoMemory>
    ensures { IfOk result (λ v. v.items ≡ seen_at seen.now point) }
{
    Ok(
        seen.iter()
            .copied()
            .filter(|o| o.point == point)
            .collect(alloc)?,
    )
}

/// Adds, for each register that is read, that it is one of its values, where these are at most four.
fn add_one_ofs(
    alloc: Global,
    list: &mut Vec<Invariant>,
    point: u32,
    reads: &[u8],
    seen: &[Observation],
) -> Result<(), NoMemory>
    requires { All (λ r. r < 32) reads.now }
    ensures { OnOk result (list.new.items ≡ list.old.items ++ one_ofs point reads.now seen.now) }
{
    for r in reads {
        let values = values_of(alloc, *r, seen)?;
        let values = distinct(alloc, values.as_slice())?;
        if values.len() <= 4 {
            list.push(Invariant::OneOf {
                point,
                reg: *r,
                values: Items::from_vec(values),
            })?;
        }
    }
    Ok(())
}

/// Adds, for each register that is read, its signed least value, where its values are more than
/// four.
fn add_lowers(
    alloc: Global,
    list: &mut Vec<Invariant>,
    point: u32,
    reads: &[u8],
    seen: &[Observation],
) -> Result<(), NoMemory>
    requires { All (λ r. r < 32) reads.now }
    ensures { OnOk result (list.new.items ≡ list.old.items ++ lowers point reads.now seen.now) }
{
    for r in reads {
        let values = values_of(alloc, *r, seen)?;
        if distinct(alloc, values.as_slice())?.len() > 4 {
            list.push(Invariant::Lower {
                point,
                reg: *r,
                bound: signed_least(values.as_slice()),
            })?;
        }
    }
    Ok(())
}

/// Whether two registers differ and the instruction reads one of them.
fn is_pair(reads: &[u8], a: u8, b: u8) -> bool
    ensures { result ≡ is_pair reads.now a b }
{
    a != b && (reads.contains(&a) || reads.contains(&b))
}

/// Whether a register was at most another one, signed, in all that was seen.
fn is_ordered(seen: &[Observation], a: u8, b: u8) -> bool
    requires low { a < 32 }
    requires high { b < 32 }
    ensures { result ≡ is_ordered seen.now a b }
{
    seen.iter()
        .all(|o| is_at_most(o.regs.get(a), o.regs.get(b)))
}

/// Adds the registers of the window that were never below register `a`, where the instruction reads
/// one of the two.
fn add_above(
    list: &mut Vec<Invariant>,
    point: u32,
    a: u8,
    reads: &[u8],
    window: &[u8],
    seen: &[Observation],
) -> Result<(), NoMemory>
    requires low { a < 32 }
    requires high { All (λ r. r < 32) window.now }
    ensures { OnOk result (list.new.items ≡ list.old.items ++ above point a reads.now window.now seen.now) }
{
    for b in window {
        if is_pair(reads, a, *b) && is_ordered(seen, a, *b) {
            list.push(Invariant::LessThan {
                point,
                low: a,
                high: *b,
            })?;
        }
    }
    Ok(())
}

/// Adds each pair of registers of the window of which one was never above the other, where the
/// instruction reads one of the two.
fn add_less_thans(
    list: &mut Vec<Invariant>,
    point: u32,
    reads: &[u8],
    window: &[u8],
    seen: &[Observation],
) -> Result<(), NoMemory>
    requires { All (λ r. r < 32) window.now }
    ensures { OnOk result (list.new.items ≡ list.old.items ++ less_thans point reads.now window.now seen.now) }
{
    for a in window {
        add_above(list, point, *a, reads, window, seen)?;
    }
    Ok(())
}

/// The distinct differences of sp and the frame's sp.
fn offsets_of(alloc: Global, seen: &[Observation]) -> Result<Vec<u32>, NoMemory>
    ensures { IfOk result (λ v. v.items ≡ offsets_of seen.now) }
{
    let offsets: Vec<u32> = seen
        .iter()
        .map(|o| o.regs.get(2).wrapping_sub(o.frame_sp))
        .collect(alloc)?;
    distinct(alloc, offsets.as_slice())
}

/// Adds the offset of sp from the frame's sp, where it was always the same.
fn add_sp_offset(list: &mut Vec<Invariant>, point: u32, offsets: &[u32]) -> Result<(), NoMemory>
    ensures { OnOk result (list.new.items ≡ list.old.items ++ sp_offset point offsets.now) }
{
    if let [offset] = offsets {
        list.push(Invariant::SpOffset {
            point,
            offset: *offset,
        })?;
    }
    Ok(())
}

/// Adds what is learned at a point of what was seen there, by the registers that the instruction
/// reads and those of the point's window.
pub(crate) fn learn_at(
    alloc: Global,
    list: &mut Vec<Invariant>,
    point: u32,
    reads: &[u8],
    window: &[u8],
    seen: &[Observation],
) -> Result<(), NoMemory>
    requires reads { All (λ r. r < 32) reads.now }
    requires window { All (λ r. r < 32) window.now }
    ensures { OnOk result (list.new.items ≡ list.old.items ++ learned_at point reads.now window.now seen.now) }
{
    add_one_ofs(alloc, list, point, reads, seen)?;
    add_lowers(alloc, list, point, reads, seen)?;
    add_less_thans(list, point, reads, window, seen)?;
    let offsets = offsets_of(alloc, seen)?;
    add_sp_offset(list, point, offsets.as_slice())
}
