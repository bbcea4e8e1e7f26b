ghost use Rattle.std.specs.Prelude.{◌≡◌, ◌↔◌, ◌<◌, ◌+◌, true, IsTrue, IfSome, length};
ghost use Rattle.cv_base.specs.Picture.{is_point};
ghost use Rattle.cv_isa.specs.DecodeTable.{with_fields};
ghost use Rattle.cv_machine.specs.Quick.{address_at, state_at, Tells, IsPlace};
ghost use Rattle.cv_runs.specs.Arithmetic.{plus32};
ghost use Rattle.cv_runs.specs.Effects.{gone_on, advanced, branched, loaded_turn, stored_turn};

use crate::Machine;
use crate::computing::takes;
use crate::moving::{extended, size_of};
use crate::quick::Quick;
use cv_isa::Op;

impl Machine {
    /// The address of the word at a place.
    #[inline(always)]
    pub(crate) fn address_at(&self, at: u32) -> u32
        requires { at < length self.now.image.words }
        ensures { result ≡ address_at self.now.image at }
    {
        self.image.text_base + 4 * at
    }

    /// Whether a place has another behind it.
    #[inline(always)]
    pub(crate) fn has_next(&self, at: u32) -> bool
        requires { at < length self.now.image.words }
        ensures value { IsTrue result ↔ (at + 1 < length self.now.image.words) }
        ensures point { IsTrue result → is_point self.now.image (plus32 (address_at self.now.image at) 4) ≡ true }
        ensures next { IsTrue result → plus32 (address_at self.now.image at) 4 ≡ address_at self.now.image (at + 1) }
    {
        (at as usize) + 1 < self.image.words.len()
    }

    /// The place of a point; `None` for other addresses.
    #[inline(always)]
    pub(crate) fn place_of(&self, addr: u32) -> Option<u32>
        ensures point { IfSome result (λ _. is_point self.now.image addr ≡ true) }
        ensures address { IfSome result (λ place. address_at self.now.image place ≡ addr) }
        ensures place { IfSome result (λ place. place < length self.now.image.words) }
    {
        if self.is_point(addr) {
            Some((addr - self.image.text_base) / 4)
        } else {
            None
        }
    }

    /// Register rd is written, and on to the next word.
    #[inline(always)]
    pub(crate) fn advance_at(&mut self, at: u32, rd: u8, value: u32) -> Quick
        requires place { at < length self.old.image.words }
        requires rd { rd < 32 }
        ensures turn { Tells self.old self.new (advanced self.old.image (state_at self.old at) rd value) result }
        ensures place { IsPlace (length self.new.image.words) result }
        ensures image { self.new.image ≡ self.old.image }
    {
        if !self.has_next(at) {
            return Quick::Slow;
        }
        self.core.regs.set(rd, value);
        Quick::On(at + 1)
    }

    /// A branch: to its target where it is taken, else to the next word.
    #[inline(always)]
    pub(crate) fn branch_at(&mut self, at: u32, op: Op, rd: u8, rs1: u8, rs2: u8, imm: u32) -> Quick
        requires place { at < length self.old.image.words }
        requires rs1 { rs1 < 32 }
        requires rs2 { rs2 < 32 }
        ensures turn { Tells self.old self.new (branched self.old.image (state_at self.old at) (with_fields op rd rs1 rs2 imm)) result }
        ensures place { IsPlace (length self.new.image.words) result }
        ensures image { self.new.image ≡ self.old.image }
    {
        let left = self.core.regs.get(rs1);
        let right = self.core.regs.get(rs2);
        if takes(op, left, right) {
            let target = self.address_at(at).wrapping_add(imm);
            return match self.place_of(target) {
                Some(place) => Quick::Jump(place),
                None => Quick::Slow,
            };
        }
        if self.has_next(at) {
            Quick::Jump(at + 1)
        } else {
            Quick::Slow
        }
    }

    /// A load: 1, 2 or 4 bytes at rs1 plus the immediate.
    #[inline(always)]
    pub(crate) fn load_at(&mut self, at: u32, op: Op, rd: u8, rs1: u8, rs2: u8, imm: u32) -> Quick
        requires place { at < length self.old.image.words }
        requires rd { rd < 32 }
        requires rs1 { rs1 < 32 }
        ensures turn { Tells self.old self.new (loaded_turn self.old.image (state_at self.old at) (with_fields op rd rs1 rs2 imm)) result }
        ensures place { IsPlace (length self.new.image.words) result }
        ensures image { self.new.image ≡ self.old.image }
    {
        let address = self.core.regs.get(rs1).wrapping_add(imm);
        match self.loaded(address, size_of(op)) {
            Ok(value) => self.advance_at(at, rd, extended(op, value)),
            Err(_) => Quick::Slow,
        }
    }

    /// A store of the low 1, 2 or 4 bytes of rs2 at rs1 plus the immediate.
    #[inline(always)]
    pub(crate) fn store_at(&mut self, at: u32, op: Op, rd: u8, rs1: u8, rs2: u8, imm: u32) -> Quick
        requires place { at < length self.old.image.words }
        requires rs1 { rs1 < 32 }
        requires rs2 { rs2 < 32 }
        ensures turn { Tells self.old self.new (stored_turn self.old.image (state_at self.old at) (with_fields op rd rs1 rs2 imm)) result }
        ensures place { IsPlace (length self.new.image.words) result }
        ensures image { self.new.image ≡ self.old.image }
    {
        let address = self.core.regs.get(rs1).wrapping_add(imm);
        let size = size_of(op);
        if let Some(_) = self.store_fault(address, size) {
            return Quick::Slow;
        }
        if self.is_guarded(address, size) {
            return Quick::Slow;
        }
        if !self.has_next(at) {
            return Quick::Slow;
        }
        let value = self.core.regs.get(rs2);
        self.put(address, size, value);
        Quick::On(at + 1)
    }
}
