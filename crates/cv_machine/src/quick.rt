ghost use Rattle.std.specs.Prelude.{◌≡◌, ◌<◌, IfSome, length};
ghost use Rattle.cv_base.specs.Picture.{word_at};
ghost use Rattle.cv_isa.specs.DecodeTable.{meaning_of, with_fields};
ghost use Rattle.cv_machine.specs.Quick.{address_at, state_at, Tells, IsPlace};
ghost use Rattle.cv_runs.specs.Arithmetic.{computed};
ghost use Rattle.cv_runs.specs.Effects.{advanced};
ghost use Rattle.cv_runs.specs.PlainTurn.{executed, turn_of};
ghost use Rattle.cv_runs.specs.State.{x};

use crate::Machine;
use crate::computing::compute;
use cv_isa::{Inst, Op};

/// What a quick turn did: it went on at a place of the text, jumped to one, or did nothing, and
/// leaves the turn to `step`. A place is the number of a word, from 0.
#[derive(Clone, Copy)]
pub(crate) enum Quick {
    On(u32),
    Jump(u32),
    Slow,
}

impl Machine {
    /// The turn at a place, where it is one of the many that go on.
    #[tactic(auto, unfolding(cv_runs::specs::PlainTurn::turn_of))]
    #[inline(always)]
    pub(crate) fn quick(&mut self, at: u32) -> Quick
        requires { at < length self.old.image.words }
        ensures turn { Tells self.old self.new (turn_of self.old.image (state_at self.old at)) result }
        ensures place { IsPlace (length self.new.image.words) result }
        ensures image { self.new.image ≡ self.old.image }
    {
        match self.instruction_at(at) {
            None => Quick::Slow,
            Some(inst) => {
                let op = inst.op;
                let rd = inst.rd;
                let rs1 = inst.rs1;
                let rs2 = inst.rs2;
                let imm = inst.imm;
                self.execute_at(at, op, rd, rs1, rs2, imm)
            }
        }
    }

    /// The instruction at a place; `None` where the word is none.
    #[inline(always)]
    fn instruction_at(&self, at: u32) -> &Option<Inst>
        requires { at < length self.now.image.words }
        ensures { result.now ≡ meaning_of (word_at self.now.image (address_at self.now.image at)) }
    {
        &self.insts[at as usize]
    }

    /// Executes an instruction at a place: one match, with an arm for each operation.
    #[inline(always)]
    fn execute_at(&mut self, at: u32, op: Op, rd: u8, rs1: u8, rs2: u8, imm: u32) -> Quick
        requires place { at < length self.old.image.words }
        requires rd { rd < 32 }
        requires rs1 { rs1 < 32 }
        requires rs2 { rs2 < 32 }
        ensures turn { Tells self.old self.new (executed self.old.image (state_at self.old at) (with_fields op rd rs1 rs2 imm) op) result }
        ensures place { IsPlace (length self.new.image.words) result }
        ensures image { self.new.image ≡ self.old.image }
    {
        match op {
            Op::Lui => self.advance_at(at, rd, imm),
            Op::Addi => self.operate_at(at, Op::Addi, rd, rs1, imm),
            Op::Slti => self.operate_at(at, Op::Slti, rd, rs1, imm),
            Op::Sltiu => self.operate_at(at, Op::Sltiu, rd, rs1, imm),
            Op::Xori => self.operate_at(at, Op::Xori, rd, rs1, imm),
            Op::Ori => self.operate_at(at, Op::Ori, rd, rs1, imm),
            Op::Andi => self.operate_at(at, Op::Andi, rd, rs1, imm),
            Op::Slli => self.operate_at(at, Op::Slli, rd, rs1, imm),
            Op::Srli => self.operate_at(at, Op::Srli, rd, rs1, imm),
            Op::Srai => self.operate_at(at, Op::Srai, rd, rs1, imm),
            Op::Add => self.operate_both(at, Op::Add, rd, rs1, rs2),
            Op::Sub => self.operate_both(at, Op::Sub, rd, rs1, rs2),
            Op::Sll => self.operate_both(at, Op::Sll, rd, rs1, rs2),
            Op::Slt => self.operate_both(at, Op::Slt, rd, rs1, rs2),
            Op::Sltu => self.operate_both(at, Op::Sltu, rd, rs1, rs2),
            Op::Xor => self.operate_both(at, Op::Xor, rd, rs1, rs2),
            Op::Srl => self.operate_both(at, Op::Srl, rd, rs1, rs2),
            Op::Sra => self.operate_both(at, Op::Sra, rd, rs1, rs2),
            Op::Or => self.operate_both(at, Op::Or, rd, rs1, rs2),
            Op::And => self.operate_both(at, Op::And, rd, rs1, rs2),
            Op::Beq => self.branch_at(at, Op::Beq, rd, rs1, rs2, imm),
            Op::Bne => self.branch_at(at, Op::Bne, rd, rs1, rs2, imm),
            Op::Blt => self.branch_at(at, Op::Blt, rd, rs1, rs2, imm),
            Op::Bge => self.branch_at(at, Op::Bge, rd, rs1, rs2, imm),
            Op::Bltu => self.branch_at(at, Op::Bltu, rd, rs1, rs2, imm),
            Op::Bgeu => self.branch_at(at, Op::Bgeu, rd, rs1, rs2, imm),
            Op::Lb => self.load_at(at, Op::Lb, rd, rs1, rs2, imm),
            Op::Lh => self.load_at(at, Op::Lh, rd, rs1, rs2, imm),
            Op::Lw => self.load_at(at, Op::Lw, rd, rs1, rs2, imm),
            Op::Lbu => self.load_at(at, Op::Lbu, rd, rs1, rs2, imm),
            Op::Lhu => self.load_at(at, Op::Lhu, rd, rs1, rs2, imm),
            Op::Sb => self.store_at(at, Op::Sb, rd, rs1, rs2, imm),
            Op::Sh => self.store_at(at, Op::Sh, rd, rs1, rs2, imm),
            Op::Sw => self.store_at(at, Op::Sw, rd, rs1, rs2, imm),
            Op::Jal => self.call_at(at, rd, imm),
            Op::Jalr => self.return_at(at, rd, rs1, rs2, imm),
            _ => Quick::Slow,
        }
    }

    /// A computation of rs1 and a second operand.
    #[inline(always)]
    fn operate_at(&mut self, at: u32, op: Op, rd: u8, rs1: u8, right: u32) -> Quick
        requires place { at < length self.old.image.words }
        requires rd { rd < 32 }
        requires rs1 { rs1 < 32 }
        ensures turn { IfSome (computed op (x (state_at self.old at) rs1) right) (λ value. Tells self.old self.new (advanced self.old.image (state_at self.old at) rd value) result) }
        ensures place { IsPlace (length self.new.image.words) result }
        ensures image { self.new.image ≡ self.old.image }
    {
        let left = self.core.regs.get(rs1);
        match compute(op, left, right) {
            Some(value) => self.advance_at(at, rd, value),
            None => Quick::Slow,
        }
    }

    /// A computation of rs1 and rs2.
    #[inline(always)]
    fn operate_both(&mut self, at: u32, op: Op, rd: u8, rs1: u8, rs2: u8) -> Quick
        requires place { at < length self.old.image.words }
        requires rd { rd < 32 }
        requires rs1 { rs1 < 32 }
        requires rs2 { rs2 < 32 }
        ensures turn { IfSome (computed op (x (state_at self.old at) rs1) (x (state_at self.old at) rs2)) (λ value. Tells self.old self.new (advanced self.old.image (state_at self.old at) rd value) result) }
        ensures place { IsPlace (length self.new.image.words) result }
        ensures image { self.new.image ≡ self.old.image }
    {
        let right = self.core.regs.get(rs2);
        self.operate_at(at, op, rd, rs1, right)
    }
}
