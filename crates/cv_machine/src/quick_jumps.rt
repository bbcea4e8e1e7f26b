ghost use Rattle.std.specs.Prelude.{◌≡◌, ◌<◌, true, if◌then◌else◌, length};
ghost use Rattle.cv_isa.specs.DecodeTable.{with_fields};
ghost use Rattle.cv_isa.specs.Uses.{is_link, jalr_link};
ghost use Rattle.cv_machine.specs.Quick.{address_at, state_at, Tells, IsPlace};
ghost use Rattle.cv_runs.specs.Arithmetic.{plus32};
ghost use Rattle.cv_runs.specs.Effects.{jumped, indirect_target, pops, pushes_alone, is_match, new_frame, with_frames, frames_after};
ghost use Rattle.cv_runs.specs.State.{with_x};
ghost use Rattle.cv_shadow.specs.Frames.{pop_end};
ghost use Rattle.cv_machine.specs.Held.{state_of};

use crate::Machine;
use crate::jumping::{link_frames, pops, pushes_alone, returns_to};
use crate::quick::Quick;
use cv_isa::{LinkKind, Op};
use cv_shadow::{Frame, MOST_FRAMES};

impl Machine {
    /// JAL.
    #[inline(always)]
    pub(crate) fn call_at(&mut self, at: u32, rd: u8, imm: u32) -> Quick
        requires place { at < length self.old.image.words }
        requires rd { rd < 32 }
        ensures turn { Tells self.old self.new (jumped self.old.image (state_at self.old at) (if is_link rd then LinkKind.Push else LinkKind.Nothing) rd (plus32 (address_at self.old.image at) imm)) result }
        ensures place { IsPlace (length self.new.image.words) result }
        ensures image { self.new.image ≡ self.old.image }
    {
        let target = self.address_at(at).wrapping_add(imm);
        if is_link(rd) {
            self.jump_at(at, LinkKind::Push, rd, target)
        } else {
            self.jump_at(at, LinkKind::Nothing, rd, target)
        }
    }

    /// JALR.
    #[inline(always)]
    pub(crate) fn return_at(&mut self, at: u32, rd: u8, rs1: u8, rs2: u8, imm: u32) -> Quick
        requires place { at < length self.old.image.words }
        requires rd { rd < 32 }
        requires rs1 { rs1 < 32 }
        ensures turn { Tells self.old self.new (jumped self.old.image (state_at self.old at) (jalr_link rd rs1) rd (indirect_target (state_at self.old at) (with_fields Op.Jalr rd rs1 rs2 imm))) result }
        ensures place { IsPlace (length self.new.image.words) result }
        ensures image { self.new.image ≡ self.old.image }
    {
        let sum = self.core.regs.get(rs1).wrapping_add(imm);
        let target = sum - sum % 2;
        let link = link_of(rd, rs1);
        self.jump_at(at, link, rd, target)
    }

    /// A jump whose tests pass.
    #[inline(always)]
    fn jump_at(&mut self, at: u32, link: LinkKind, rd: u8, target: u32) -> Quick
        requires place { at < length self.old.image.words }
        requires rd { rd < 32 }
        ensures turn { Tells self.old self.new (jumped self.old.image (state_at self.old at) link rd target) result }
        ensures place { IsPlace (length self.new.image.words) result }
        ensures image { self.new.image ≡ self.old.image }
    {
        if pops(link) && !returns_to(&self.core.frames, target) {
            return Quick::Slow;
        }
        if pushes_alone(link) && self.core.frames.len() >= MOST_FRAMES {
            return Quick::Slow;
        }
        match self.place_of(target) {
            None => Quick::Slow,
            Some(place) => {
                self.link_at(at, link, rd, target);
                Quick::Jump(place)
            }
        }
    }

    /// The frames and the link register of a jump whose tests have passed.
    #[inline(always)]
    fn link_at(&mut self, at: u32, link: LinkKind, rd: u8, target: u32)
        requires place { at < length self.old.image.words }
        requires rd { rd < 32 }
        requires returns { pops link ≡ true → is_match (pop_end self.old.core.frames target) ≡ true }
        requires room { pushes_alone link ≡ true → length self.old.core.frames < MOST_FRAMES }
        ensures state { state_of self.new ≡ with_frames (with_x (state_of self.old) rd (plus32 (address_at self.old.image at) 4)) (frames_after link self.old.core.frames (new_frame (state_at self.old at)) target) }
        ensures image { self.new.image ≡ self.old.image }
    {
        let call = self.address_at(at);
        let back = call.wrapping_add(4);
        let frame = Frame {
            call,
            back,
            sp: self.core.regs.get(2),
        };
        link_frames(&mut self.core.frames, link, frame, target);
        self.core.regs.set(rd, back);
    }
}

/// Whether a register holds return addresses by convention: x1 and x5 (RISC-V Unprivileged ISA, 2.5
/// "Control Transfer Instructions").
#[inline(always)]
fn is_link(reg: u8) -> bool
    ensures { result ≡ is_link reg }
{
    reg == 1 || reg == 5
}

/// What a JALR does to the shadow stack.
#[inline(always)]
fn link_of(rd: u8, rs1: u8) -> LinkKind
    ensures { result ≡ jalr_link rd rs1 }
{
    match (is_link(rd), is_link(rs1)) {
        (true, true) if rd != rs1 => LinkKind::PopPush,
        (true, _) => LinkKind::Push,
        (false, true) => LinkKind::Pop,
        (false, false) => LinkKind::Nothing,
    }
}
