//! All rounds of a plan, over a disk that keeps those that are done.
ghost use Rattle.std.specs.Prelude.{◌≡◌, IfErr, IfOk, IsErrOf};
ghost use Rattle.cv_edge.specs.Disk.{LeavesOnly, Only};
ghost use Rattle.cv_edge.specs.Edge.{HasCause};
ghost use Rattle.cv_resume.specs.KeptRun.{AreKeptRefused, IsKeptRun, LeavesKeptOf};

use crate::{KeptFail, Restored, Resumed, restore, resume};
use cv_base::Plan;
use cv_edge::{Disk, Gate};
use cv_keep::recover;
use std::alloc::Global;
use std::sync::Wait;
use std::thread::Threads;

/// Runs the rounds of a plan that a disk does not hold yet, and keeps each before the next begins
/// (docs/FORMATS.md, "Kept rounds"): `recover`, `restore` and `resume`.
///
/// The pieces of the disk's content at the start are refused exactly where they have a fault, and for
/// this one. A crash at any moment of the call, whatever it answers, leaves these pieces, and behind
/// them those of the first of the rounds of one legal history.
pub fn run_kept<R: Threads + Wait + Sync, G: Gate, D: Disk>(
    rt: &R,
    alloc: Global,
    plan: Plan,
    disk: &mut D,
    gate: &G,
) -> Result<Resumed, KeptFail>
    ensures ran { IfOk result (IsKeptRun D.means plan disk.old disk.new) }
    ensures refused { IfErr result (AreKeptRefused D.means plan disk.old) }
    ensures leaves { LeavesKeptOf D.means plan disk.old disk.new }
    ensures cause { HasCause (D.means.faults disk.old) (D.means.faults disk.new) (IsErrOf result KeptFail.DiskFault) }
{
    let (mut keep, pieces) = recover(alloc, disk)?;
    let Restored { book, rounds } = restore(alloc, plan, pieces.as_slice())?;
    Ok(resume(rt, alloc, book, rounds, &mut keep, disk, gate)?)
}
