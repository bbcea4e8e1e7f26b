ghost use Rattle.std.specs.Prelude.{◌≡◌, ◌<◌, IsTrue};
ghost use Rattle.cv_base.specs.Picture.{is_point};
ghost use Rattle.cv_isa.specs.Instruction.{format_of};
ghost use Rattle.cv_machine.specs.Answers.{answer_of, left_by, told};
ghost use Rattle.cv_machine.specs.Held.{state_of};
ghost use Rattle.cv_runs.specs.Arithmetic.{computed};
ghost use Rattle.cv_runs.specs.Effects.{gone_on, advanced};
ghost use Rattle.cv_runs.specs.PlainTurn.{executed, operated, operand};
ghost use Rattle.cv_runs.specs.State.{x};

use crate::Machine;
use crate::computing::compute;
use crate::turn::Went;
use cv_base::{CrashCause, End, FailureKind};
use cv_isa::{Inst, Op, link_kind};

impl Machine {
    /// Executes the instruction at the pc.
    #[inline(always)]
    pub(crate) fn execute(&mut self, inst: &Inst, end: &mut End) -> Went
        requires { IsTrue (is_point self.old.image self.old.core.pc) }
        ensures answer { told result end.new ≡ answer_of (executed self.old.image (state_of self.old) inst.now inst.now.op) }
        ensures state { state_of self.new ≡ left_by (executed self.old.image (state_of self.old) inst.now inst.now.op) (state_of self.old) }
        ensures image { self.new.image ≡ self.old.image }
        ensures point { IsTrue (is_point self.new.image self.new.core.pc) }
    {
        match inst.op {
            Op::Lui => self.advance(inst.rd, inst.imm, end),
            Op::Auipc => self.advance(inst.rd, self.core.pc.wrapping_add(inst.imm), end),
            Op::Jal => {
                let target = self.core.pc.wrapping_add(inst.imm);
                self.jump(link_kind(inst), inst.rd, target, end)
            }
            Op::Jalr => {
                let target = self.indirect_target(inst);
                self.jump(link_kind(inst), inst.rd, target, end)
            }
            Op::Lb | Op::Lh | Op::Lw | Op::Lbu | Op::Lhu => self.load(inst, end),
            Op::Sb | Op::Sh | Op::Sw => self.store(inst, end),
            Op::Fence => self.go_on(false, end),
            Op::Ecall => self.serve(end),
            Op::Ebreak => self.fail(FailureKind::Crash(CrashCause::Break), 0, end),
            Op::Beq | Op::Bne | Op::Blt | Op::Bge | Op::Bltu | Op::Bgeu => self.branch(inst, end),
            Op::Addi
            | Op::Slti
            | Op::Sltiu
            | Op::Xori
            | Op::Ori
            | Op::Andi
            | Op::Slli
            | Op::Srli
            | Op::Srai => self.operate(inst, inst.imm, end),
            _ => {
                let right = self.core.regs.get(inst.rs2);
                self.operate(inst, right, end)
            }
        }
    }

    /// A computation of rs1 and a second operand.
    #[inline(always)]
    fn operate(&mut self, inst: &Inst, right: u32, end: &mut End) -> Went
        requires { IsTrue (is_point self.old.image self.old.core.pc) }
        ensures answer { told result end.new ≡ answer_of (operated self.old.image (state_of self.old) inst.now (computed inst.now.op (x (state_of self.old) inst.now.rs1) right)) }
        ensures state { state_of self.new ≡ left_by (operated self.old.image (state_of self.old) inst.now (computed inst.now.op (x (state_of self.old) inst.now.rs1) right)) (state_of self.old) }
        ensures image { self.new.image ≡ self.old.image }
        ensures point { IsTrue (is_point self.new.image self.new.core.pc) }
    {
        let left = self.core.regs.get(inst.rs1);
        match compute(inst.op, left, right) {
            Some(value) => self.advance(inst.rd, value, end),
            None => self.branch(inst, end),
        }
    }

    /// On to the next word.
    #[inline(always)]
    pub(crate) fn go_on(&mut self, transfer: bool, end: &mut End) -> Went
        requires { IsTrue (is_point self.old.image self.old.core.pc) }
        ensures answer { told result end.new ≡ answer_of (gone_on self.old.image (state_of self.old) transfer) }
        ensures state { state_of self.new ≡ left_by (gone_on self.old.image (state_of self.old) transfer) (state_of self.old) }
        ensures image { self.new.image ≡ self.old.image }
        ensures point { IsTrue (is_point self.new.image self.new.core.pc) }
    {
        let next = self.core.pc.wrapping_add(4);
        if self.is_point(next) {
            self.core.pc = next;
            Went::On { transfer }
        } else {
            self.fail(FailureKind::IllegalTransfer, next, end)
        }
    }

    /// Register rd is written, and on to the next word.
    #[inline(always)]
    pub(crate) fn advance(&mut self, rd: u8, value: u32, end: &mut End) -> Went
        requires register { rd < 32 }
        requires point { IsTrue (is_point self.old.image self.old.core.pc) }
        ensures answer { told result end.new ≡ answer_of (advanced self.old.image (state_of self.old) rd value) }
        ensures state { state_of self.new ≡ left_by (advanced self.old.image (state_of self.old) rd value) (state_of self.old) }
        ensures image { self.new.image ≡ self.old.image }
        ensures point { IsTrue (is_point self.new.image self.new.core.pc) }
    {
        let next = self.core.pc.wrapping_add(4);
        if self.is_point(next) {
            self.core.regs.set(rd, value);
            self.core.pc = next;
            Went::On { transfer: false }
        } else {
            self.fail(FailureKind::IllegalTransfer, next, end)
        }
    }
}
