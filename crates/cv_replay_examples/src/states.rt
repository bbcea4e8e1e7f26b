//! What is told of a machine before a turn, and whether a replay comes to it.
use crate::calling::plan_of;
use crate::posted::replay_of;
use cv_base::NoMemory;
use cv_replay::{Replay, Sought};
use std::alloc::Global;
use std::test::Fail;

/// Where a machine stands before a turn, with one of its registers: its value, and since which turn it
/// has it.
#[derive(Clone, Copy)]
pub(crate) struct At {
    pub(crate) turn: u32,
    pub(crate) pc: u32,
    pub(crate) frames: u32,
    pub(crate) reg: u8,
    pub(crate) value: u32,
    pub(crate) since: Option<u32>,
}

/// Whether a replay of a job's run comes to each of these, one after another, and finds that the run
/// has so many turns.
pub(crate) fn steps_through(
    alloc: Global,
    job: &str,
    run: u32,
    rows: &[At],
    turns: u32,
) -> Result<bool, Fail> {
    let plan = plan_of(alloc, job)?;
    let mut replay = replay_of(alloc, plan, run)?;
    let comes = comes_to_all(alloc, &mut replay, rows)?;
    let ends = has_no_turn(alloc, &mut replay, turns)?;
    Ok(comes && ends)
}

/// Whether a replay comes to each of these, one after another.
fn comes_to_all(alloc: Global, replay: &mut Replay, rows: &[At]) -> Result<bool, NoMemory> {
    for at in rows {
        if !comes_to(alloc, replay, at)? {
            return Ok(false);
        }
    }
    Ok(true)
}

/// Whether a replay comes to the turn of a row, and the machine is as the row tells.
fn comes_to(alloc: Global, replay: &mut Replay, at: &At) -> Result<bool, NoMemory> {
    match replay.seek(alloc, at.turn)? {
        Sought::There => Ok(is_told(replay, at)),
        Sought::Past => Ok(false),
    }
}

/// Whether the machine before the replay's turn is as a row tells.
fn is_told(replay: &Replay, at: &At) -> bool {
    let core = replay.machine().core();
    at.reg < 32
        && replay.turn() == at.turn
        && core.pc == at.pc
        && core.frames.len() == at.frames
        && core.regs.get(at.reg) == at.value
        && replay.reg_changed(at.reg) == at.since
}

/// Whether the run has no such turn, and the replay stays where it is.
fn has_no_turn(alloc: Global, replay: &mut Replay, turn: u32) -> Result<bool, NoMemory> {
    let before = replay.turn();
    let sought = replay.seek(alloc, turn)?;
    Ok(matches!(sought, Sought::Past) && replay.turn() == before)
}
