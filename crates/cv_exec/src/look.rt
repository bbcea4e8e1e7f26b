ghost use Rattle.std.specs.Prelude.{◌≡◌, ◌≤◌, ◌<◌, length, IsTrue};
ghost use Rattle.cv_base.specs.Picture.{is_point};
ghost use Rattle.cv_blocks.specs.TextMap.{text_only};
ghost use Rattle.cv_exec.specs.RunEnds.{left_after};
ghost use Rattle.cv_machine.specs.Answers.{left_by};
ghost use Rattle.cv_machine.specs.Held.{state_of};
ghost use Rattle.cv_observe.specs.StandsFor.{StandsFor};
ghost use Rattle.cv_runs.specs.Learned.{observations};
ghost use Rattle.cv_runs.specs.PlainRun.{plain_run};
ghost use Rattle.cv_runs.specs.PlainTurn.{turn_of};

use crate::turns::see;
use cv_machine::{Machine, Turn};
use cv_observe::Summary;
use std::alloc::Global;

/// Sees the plain run of an input, of at most `budget` turns, in a summary of the image's text that
/// forgets all else. It takes no memory.
pub(crate) fn look(
    alloc: Global,
    machine: &mut Machine,
    summary: &mut Summary,
    input: &[u8],
    budget: u32,
)
    requires input { length input.now ≤ 65536 }
    requires text { summary.old.text ≡ text_only machine.old.image }
    ensures seen { StandsFor summary.new (observations (plain_run machine.old.image input.now budget)) }
    ensures text { summary.new.text ≡ summary.old.text }
    ensures image { machine.new.image ≡ machine.old.image }
    ensures point { IsTrue (is_point machine.new.image machine.new.core.pc) }
{
    machine.begin(alloc, input).unwrap();
    summary.clear();
    let mut left = budget;
    'turns: while left > 0 {
        see(summary, machine.core()).unwrap();
        left = one_turn(machine, left);
    }
}

/// One turn, of `left` that the budget still allows: how many it allows then, none where the run has
/// ended.
fn one_turn(machine: &mut Machine, left: u32) -> u32
    requires point { IsTrue (is_point machine.old.image machine.old.core.pc) }
    requires some { 0 < left }
    ensures left { result ≡ left_after left (turn_of machine.old.image (state_of machine.old)) }
    ensures state { state_of machine.new ≡ left_by (turn_of machine.old.image (state_of machine.old)) (state_of machine.old) }
    ensures image { machine.new.image ≡ machine.old.image }
    ensures point { IsTrue (is_point machine.new.image machine.new.core.pc) }
{
    match machine.turn() {
        Turn::Ended(_) => 0,
        Turn::Next { .. } => left - 1,
    }
}
