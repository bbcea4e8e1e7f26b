ghost use Rattle.std.specs.Prelude.{◌≡◌, ◌<◌, ◌∷◌, true, length, IsTrue};
ghost use Rattle.cv_base.specs.Picture.{is_point};
ghost use Rattle.cv_machine.specs.Answers.{answer_of, left_by, told};
ghost use Rattle.cv_machine.specs.Held.{state_of};
ghost use Rattle.cv_runs.specs.Effects.{jumped, branched, indirect_target, pops, pushes_alone, is_match, frames_after};
ghost use Rattle.cv_shadow.specs.Frames.{pop_end};

use crate::Machine;
use crate::computing::takes;
use crate::turn::Went;
use cv_base::{CrashCause, End, FailureKind};
use cv_isa::{Inst, LinkKind};
use cv_shadow::{Frame, Frames, MOST_FRAMES};

impl Machine {
    /// The target of a JALR: the sum of rs1 and the immediate, with bit 0 cleared (RISC-V
    /// Unprivileged ISA, 2.5 "Control Transfer Instructions").
    #[inline]
    pub(crate) fn indirect_target(&self, inst: &Inst) -> u32
        ensures { result ≡ indirect_target (state_of self.now) inst.now }
    {
        let sum = self.core.regs.get(inst.rs1).wrapping_add(inst.imm);
        sum - sum % 2
    }

    /// A jump: the shadow stack, the target and the number of frames are tested in this order.
    #[inline]
    pub(crate) fn jump(&mut self, link: LinkKind, rd: u8, target: u32, end: &mut End) -> Went
        requires register { rd < 32 }
        requires point { IsTrue (is_point self.old.image self.old.core.pc) }
        ensures answer { told result end.new ≡ answer_of (jumped self.old.image (state_of self.old) link rd target) }
        ensures state { state_of self.new ≡ left_by (jumped self.old.image (state_of self.old) link rd target) (state_of self.old) }
        ensures image { self.new.image ≡ self.old.image }
        ensures point { IsTrue (is_point self.new.image self.new.core.pc) }
    {
        if pops(link) && !returns_to(&self.core.frames, target) {
            return self.fail(FailureKind::ShadowStack, target, end);
        }
        if !self.is_point(target) {
            return self.fail(FailureKind::IllegalTransfer, target, end);
        }
        if pushes_alone(link) && self.core.frames.len() >= MOST_FRAMES {
            return self.fail(FailureKind::Crash(CrashCause::Deep), target, end);
        }
        let back = self.core.pc.wrapping_add(4);
        let frame = Frame {
            call: self.core.pc,
            back,
            sp: self.core.regs.get(2),
        };
        link_frames(&mut self.core.frames, link, frame, target);
        self.core.regs.set(rd, back);
        self.core.pc = target;
        Went::On { transfer: true }
    }

    /// A branch: to its target where it is taken, else to the next word.
    #[inline(always)]
    pub(crate) fn branch(&mut self, inst: &Inst, end: &mut End) -> Went
        requires { IsTrue (is_point self.old.image self.old.core.pc) }
        ensures answer { told result end.new ≡ answer_of (branched self.old.image (state_of self.old) inst.now) }
        ensures state { state_of self.new ≡ left_by (branched self.old.image (state_of self.old) inst.now) (state_of self.old) }
        ensures image { self.new.image ≡ self.old.image }
        ensures point { IsTrue (is_point self.new.image self.new.core.pc) }
    {
        let target = self.core.pc.wrapping_add(inst.imm);
        let left = self.core.regs.get(inst.rs1);
        let right = self.core.regs.get(inst.rs2);
        if !takes(inst.op, left, right) {
            return self.go_on(true, end);
        }
        if self.is_point(target) {
            self.core.pc = target;
            Went::On { transfer: true }
        } else {
            self.fail(FailureKind::IllegalTransfer, target, end)
        }
    }
}

/// Whether a jump returns.
#[inline]
pub(crate) fn pops(link: LinkKind) -> bool
    ensures { result ≡ pops link }
{
    matches!(link, LinkKind::Pop | LinkKind::PopPush)
}

/// Whether a jump calls and does not return.
#[inline]
pub(crate) fn pushes_alone(link: LinkKind) -> bool
    ensures { result ≡ pushes_alone link }
{
    matches!(link, LinkKind::Push)
}

/// Whether the top frame returns to the target.
#[inline]
pub(crate) fn returns_to(frames: &Frames, target: u32) -> bool
    ensures { result ≡ is_match (pop_end frames.now target) }
{
    match frames.from_top(0) {
        Some(frame) => frame.back == target,
        None => false,
    }
}

/// The frames after a jump whose tests have passed.
#[inline]
pub(crate) fn link_frames(frames: &mut Frames, link: LinkKind, frame: Frame, target: u32)
    requires returns { pops link ≡ true → is_match (pop_end frames.old target) ≡ true }
    requires room { pushes_alone link ≡ true → length frames.old < MOST_FRAMES }
    ensures { frames.new ≡ frames_after link frames.old frame target }
{
    let _standing = frames.len();
    match link {
        LinkKind::Nothing => {}
        LinkKind::Push => push(frames, frame),
        LinkKind::Pop => {
            let _end = frames.pop(target);
        }
        LinkKind::PopPush => {
            let _end = frames.pop(target);
            push(frames, frame);
        }
    }
}

/// One more frame, where there is room for it.
#[inline]
fn push(frames: &mut Frames, frame: Frame)
    requires { length frames.old < MOST_FRAMES }
    ensures { frames.new ≡ frame ∷ frames.old }
{
    let _ = frames.push(frame);
}
