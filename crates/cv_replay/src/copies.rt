ghost use Rattle.std.specs.Prelude.{◌≡◌, ◌≤◌, ◌<◌, [], IfOk, OnOk};
ghost use Rattle.cv_base.specs.PlanOf.{PlanOf};
ghost use Rattle.cv_replay.specs.Script.{IsScript, ScriptOf};
ghost use Rattle.cv_replay.specs.Standing.{AreCopies, IsWalk, plan_of, turn_of};

use crate::script::Script;
use crate::walk::Walk;
use cv_base::{Image, NoMemory};
use std::alloc::Global;

/// The most copies.
const MOST: u32 = 16;

/// The least turns from one copy to the next.
const LEAST_SPACING: u32 = 65_536;

/// What all copies take at most, in bytes: 224 MiB.
const ROOM: u64 = 234_881_024;

/// What the memory of a run takes, in bytes: 8 MiB.
const MEMORY: u64 = 8_388_608;

/// Copies of a walk through the run, at rising turns, from which a seek goes on.
#[derive(Drop)]
pub(crate) struct Copies {
    /// Before the first turn.
    pub(crate) first: Walk,
    pub(crate) later: Vec<Walk>,
    /// How many of these are kept at most, and how many turns lie between them at least.
    pub(crate) most: u32,
    pub(crate) spacing: u32,
}

impl Copies {
    /// The first alone.
    pub(crate) fn make(alloc: Global, image: &Image, turns: u32, first: Walk) -> Copies
        ensures first { result.first ≡ first }
        ensures later { result.later.items ≡ [] }
    {
        let most = most_copies(image);
        Copies {
            first,
            later: Vec::new(alloc),
            most: most - 1,
            spacing: spacing(turns, most),
        }
    }

    /// A walk to a turn, from the nearest of the copies and a walk through the same run. It leaves copies on
    /// its way.
    pub(crate) fn travel(
        &mut self,
        alloc: Global,
        script: &Script,
        now: &Walk,
        to: u32,
    ) -> Result<Walk, NoMemory>
        requires script { IsScript (plan_of now.now) script.now }
        requires at { IsWalk script.now now.now }
        requires copies { AreCopies (plan_of now.now) script.now self.old }
        requires to { to < script.now.entry.turns }
        ensures at { IfOk result (λ w. IsWalk script.now w) }
        ensures turn { IfOk result (λ w. turn_of w.stand ≡ to) }
        ensures plan { IfOk result (λ w. plan_of w ≡ plan_of now.now) }
        ensures copies { AreCopies (plan_of now.now) script.now self.new }
    {
        let mut walk = self.copy_near(alloc, script, now, to)?;
        self.advance(alloc, script, &mut walk, to)?;
        Ok(walk)
    }

    /// A copy of the nearest.
    fn copy_near(
        &self,
        alloc: Global,
        script: &Script,
        now: &Walk,
        turn: u32,
    ) -> Result<Walk, NoMemory>
        requires at { IsWalk script.now now.now }
        requires copies { AreCopies (plan_of now.now) script.now self.now }
        ensures at { IfOk result (λ w. IsWalk script.now w) }
        ensures turn { IfOk result (λ w. turn_of w.stand ≤ turn) }
        ensures plan { IfOk result (λ w. plan_of w ≡ plan_of now.now) }
    {
        let nearest = self.nearest(now, turn);
        let walk = nearest.copied(alloc)?;
        Ok(walk)
    }

    /// The nearest of the copies and a walk through the same run, at a turn or before it.
    fn nearest<'a>(&'a self, now: &'a Walk, turn: u32) -> &'a Walk
        ensures { (script : ScriptOf) → IsWalk script now.now → AreCopies (plan_of now.now) script self.now → (plan_of result.now ≡ plan_of now.now) × IsWalk script result.now × (turn_of result.now.stand ≤ turn) }
    {
        let copy = self.last_at(turn);
        let here = now.turn();
        if copy.turn() <= here && here <= turn {
            now
        } else {
            copy
        }
    }

    /// The last copy that stands at a turn or before it.
    fn last_at(&self, turn: u32) -> &Walk
        ensures { (plan : PlanOf) (script : ScriptOf) → AreCopies plan script self.now → (plan_of result.now ≡ plan) × IsWalk script result.now × (turn_of result.now.stand ≤ turn) }
    {
        for copy in self.later.iter().rev() {
            if copy.turn() <= turn {
                return copy;
            }
        }
        &self.first
    }

    /// Walks on to a turn, and leaves copies on the way.
    fn advance(
        &mut self,
        alloc: Global,
        script: &Script,
        walk: &mut Walk,
        to: u32,
    ) -> Result<(), NoMemory>
        requires script { IsScript (plan_of walk.old) script.now }
        requires at { IsWalk script.now walk.old }
        requires copies { AreCopies (plan_of walk.old) script.now self.old }
        requires from { turn_of walk.old.stand ≤ to }
        requires to { to < script.now.entry.turns }
        ensures at { OnOk result (IsWalk script.now walk.new) }
        ensures turn { OnOk result (turn_of walk.new.stand ≡ to) }
        ensures plan { OnOk result (plan_of walk.new ≡ plan_of walk.old) }
        ensures copies { AreCopies (plan_of walk.old) script.now self.new }
    {
        while walk.turn() < to {
            walk.forward(script)?;
            self.leave(alloc, walk);
        }
        Ok(())
    }

    /// Leaves a copy of a walk where the last copy is far enough behind it and memory allows.
    fn leave(&mut self, alloc: Global, walk: &Walk)
        ensures { (plan : PlanOf) (script : ScriptOf) → AreCopies plan script self.old → plan_of walk.now ≡ plan → IsWalk script walk.now → AreCopies plan script self.new }
    {
        let is_full = self.later.len() >= self.most as usize;
        if is_full || walk.turn().saturating_sub(self.last_turn()) < self.spacing {
            return;
        }
        if let Ok(copy) = walk.copied(alloc) {
            self.keep(copy);
        }
    }

    /// The turn of the last copy.
    fn last_turn(&self) -> u32 {
        match self.later.last() {
            Some(copy) => copy.turn(),
            None => 0,
        }
    }

    /// Keeps a copy; one for which there is no memory is not kept.
    fn keep(&mut self, copy: Walk)
        ensures { (plan : PlanOf) (script : ScriptOf) → AreCopies plan script self.old → plan_of copy ≡ plan → IsWalk script copy → AreCopies plan script self.new }
    {
        let _refused = self.later.push(copy);
    }
}

/// How many turns lie between copies at least: few enough that the copies reach to the end.
fn spacing(turns: u32, most: u32) -> u32
    requires { 1 ≤ most }
{
    let evenly = (turns / most).saturating_add(1);
    if evenly < LEAST_SPACING {
        LEAST_SPACING
    } else {
        evenly
    }
}

/// How many copies of a run of an image there may be. Each takes the memory of a run, twice the bytes
/// of the segments, and 24 bytes for each word of the text.
fn most_copies(image: &Image) -> u32
    ensures { 1 ≤ result }
{
    let words = image.words.as_slice().len() as u64;
    let mut each = MEMORY.saturating_add(words.saturating_mul(24));
    for segment in image.segments.as_slice() {
        let bytes = segment.bytes.as_slice().len() as u64;
        each = each.saturating_add(bytes.saturating_mul(2));
    }
    if each > ROOM {
        return 1;
    }
    for most in (1..=MOST).rev() {
        if u64::from(most) * each <= ROOM {
            return most;
        }
    }
    1
}
