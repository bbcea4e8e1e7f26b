ghost use Rattle.std.specs.Prelude.{◌≡◌, ◌++◌, [], ◌∷◌, List, IsOk, OnOk, OnErr, IsTrue};
ghost use Rattle.cv_base.specs.declared.entries.Observation.{Observation};
ghost use Rattle.cv_base.specs.Picture.{is_point};
ghost use Rattle.cv_exec.specs.RunEnds.{end_with};
ghost use Rattle.cv_machine.specs.Answers.{left_by};
ghost use Rattle.cv_machine.specs.Held.{state_of};
ghost use Rattle.cv_observe.specs.StandsFor.{StandsFor};
ghost use Rattle.cv_runs.specs.PlainTurn.{turn_of};
ghost use Rattle.cv_shadow.specs.Frames.{frame_sp};

use cv_base::{End, NoMemory};
use cv_machine::{Machine, Turn};
use cv_observe::Summary;
use cv_shadow::Core;

/// Sees what stands before a turn.
pub(crate) fn see(summary: &mut Summary, core: &Core) -> Result<(), NoMemory>
    requires { IsTrue (is_point summary.old.text core.now.pc) }
    ensures always { IsOk result }
    ensures ok { OnOk result ((seen : List Observation) → StandsFor summary.old seen → StandsFor summary.new (seen ++ record { point = core.now.pc; regs = core.now.regs; frame_sp = frame_sp core.now.frames } ∷ [])) }
    ensures err { OnErr result (summary.new ≡ summary.old) }
    ensures text { summary.new.text ≡ summary.old.text }
{
    summary.see(core.pc, &core.regs, core.frames.sp())
}

/// A turn, of `left` that the budget still allows: how the run ends with it, if it does.
pub(crate) fn turn(machine: &mut Machine, left: u32) -> Option<End>
    requires { IsTrue (is_point machine.old.image machine.old.core.pc) }
    ensures end { result ≡ end_with left (turn_of machine.old.image (state_of machine.old)) }
    ensures state { state_of machine.new ≡ left_by (turn_of machine.old.image (state_of machine.old)) (state_of machine.old) }
    ensures image { machine.new.image ≡ machine.old.image }
    ensures point { IsTrue (is_point machine.new.image machine.new.core.pc) }
{
    match machine.turn() {
        Turn::Ended(end) => Some(end),
        Turn::Next { .. } if left == 1 => Some(End::Budget),
        Turn::Next { .. } => None,
    }
}
