ghost use Rattle.std.specs.Prelude.{◌≡◌, ◌≤◌, ◌<◌, IsTrue, false, length};
ghost use Rattle.cv_base.specs.Picture.{is_point};
ghost use Rattle.cv_machine.specs.Answers.{answer_of, left_by, told};
ghost use Rattle.cv_machine.specs.Held.{state_of};
ghost use Rattle.cv_machine.specs.PlainTurns.{IsStretch, LeadTo};
ghost use Rattle.cv_machine.specs.Quick.{address_at, state_at, Tells, IsPlace};
ghost use Rattle.cv_runs.specs.PlainRun.{steps_from, end_of, state_left};
ghost use Rattle.cv_runs.specs.PlainTurn.{turn_of};

use crate::Machine;
use crate::quick::Quick;
use crate::turn::Went;
use cv_base::End;

/// Runs a machine for at most `budget` turns: how the run ended, and how many turns it took.
pub fn run(machine: &mut Machine, budget: u32) -> (End, u32)
    requires { IsTrue (is_point machine.old.image machine.old.core.pc) }
    ensures end { result.0 ≡ end_of (steps_from machine.old.image budget (state_of machine.old)) }
    ensures turns { result.1 ≡ length (steps_from machine.old.image budget (state_of machine.old)) }
    ensures state { state_of machine.new ≡ state_left (state_of machine.old) (steps_from machine.old.image budget (state_of machine.old)) }
    ensures image { machine.new.image ≡ machine.old.image }
    ensures point { IsTrue (is_point machine.new.image machine.new.core.pc) }
{
    let mut end = End::Budget;
    let mut done = 0;
    'turns: while done < budget {
        let more = machine.quick_turns(budget - done, true);
        done += more.turns;
        if done >= budget {
            return (End::Budget, budget);
        }
        match machine.whole_turn(&mut end) {
            Went::On { .. } => done += 1,
            Went::Over => return (end, done + 1),
        }
    }
    (End::Budget, budget)
}

/// Turns without a transfer among them but the last.
#[derive(Clone, Copy, Debug, PartialEq, Eq)]
pub struct Stretch {
    /// How many turns.
    pub turns: u32,
    /// Whether the last of them is a transfer.
    pub transfer: bool,
}

impl Machine {
    /// Plain turns up to the first that is a transfer, at most `most`, and none that ends the run.
    /// It may stop earlier, without a transfer, before a turn that `turn` has to do: then it did
    /// less than `most`.
    pub fn stretch(&mut self, most: u32) -> Stretch
        requires { IsTrue (is_point self.old.image self.old.core.pc) }
        ensures turns { IsStretch self.old.image result.turns (state_of self.old) (state_of self.new) result.transfer }
        ensures most { result.turns ≤ most }
        ensures image { self.new.image ≡ self.old.image }
        ensures point { IsTrue (is_point self.new.image self.new.core.pc) }
    {
        self.quick_turns(most, false)
    }

    /// Quick turns up to one that is none, and at most `most`; and up to the first transfer, unless
    /// `far`. All quick turns are made here: were there a second place, the match of a turn would not be
    /// inlined into either, and a turn would take twice the instructions.
    #[inline(never)]
    pub(crate) fn quick_turns(&mut self, most: u32, far: bool) -> Stretch
        requires { IsTrue (is_point self.old.image self.old.core.pc) }
        ensures turns { LeadTo self.old.image result.turns (state_of self.old) (state_of self.new) }
        ensures stretch { far ≡ false → IsStretch self.old.image result.turns (state_of self.old) (state_of self.new) result.transfer }
        ensures most { result.turns ≤ most }
        ensures image { self.new.image ≡ self.old.image }
        ensures point { IsTrue (is_point self.new.image self.new.core.pc) }
    {
        let mut at = self.place();
        let mut turns = 0;
        'turns: while turns < most {
            match self.quick(at) {
                Quick::On(next) => at = next,
                Quick::Jump(next) if far => at = next,
                Quick::Jump(next) => {
                    self.stand_at(next);
                    turns += 1;
                    return Stretch {
                        turns,
                        transfer: true,
                    };
                }
                Quick::Slow => {
                    self.stand_at(at);
                    return Stretch {
                        turns,
                        transfer: false,
                    };
                }
            }
            turns += 1;
        }
        self.stand_at(at);
        Stretch {
            turns,
            transfer: false,
        }
    }

    /// The place of the pc.
    #[inline]
    pub(crate) fn place(&self) -> u32
        requires { IsTrue (is_point self.now.image self.now.core.pc) }
        ensures address { address_at self.now.image result ≡ self.now.core.pc }
        ensures place { result < length self.now.image.words }
    {
        (self.core.pc - self.image.text_base) / 4
    }

    /// Puts the pc to a place.
    #[inline]
    pub(crate) fn stand_at(&mut self, at: u32)
        requires { at < length self.old.image.words }
        ensures state { state_of self.new ≡ state_at self.old at }
        ensures image { self.new.image ≡ self.old.image }
        ensures point { IsTrue (is_point self.new.image self.new.core.pc) }
    {
        let pc = self.address_at(at);
        self.core.pc = pc;
    }

    /// A turn that is not quick.
    #[cold]
    #[inline(never)]
    pub(crate) fn whole_turn(&mut self, end: &mut End) -> Went
        requires { IsTrue (is_point self.old.image self.old.core.pc) }
        ensures answer { told result end.new ≡ answer_of (turn_of self.old.image (state_of self.old)) }
        ensures state { state_of self.new ≡ left_by (turn_of self.old.image (state_of self.old)) (state_of self.old) }
        ensures image { self.new.image ≡ self.old.image }
        ensures point { IsTrue (is_point self.new.image self.new.core.pc) }
    {
        self.step(end)
    }
}
