use crate::shapes::{Shape, operand_shape};
use cv_base::Address;
use cv_isa::{Inst, name};
use std::fmt;

/// A 32-bit number, written as a signed one in decimal.
#[derive(Clone, Copy)]
struct Signed(u32);

impl fmt::Display for Signed {
    ghost use Rattle.std.specs.Prelude.{Some};
    ghost use Rattle.cv_asm.specs.Listing.{signed_text};

    ghost output = { λ n. Some (signed_text n.0) };

    fn fmt<W: fmt::Write>(&self, f: &mut fmt::Formatter<W>) -> fmt::Result {
        let value = self.0;
        if value < 0x8000_0000 {
            write!(f, "{value}")
        } else {
            let size = 0u32.wrapping_sub(value);
            write!(f, "-{size}")
        }
    }
}

/// The operands of an instruction, with the blank before them.
#[derive(Clone, Copy)]
struct Operands(Shape, Inst);

impl fmt::Display for Operands {
    ghost use Rattle.std.specs.Prelude.{Some};
    ghost use Rattle.cv_asm.specs.Listing.{operands_text};

    ghost output = { λ o. Some (operands_text o.0 o.1) };

    fn fmt<W: fmt::Write>(&self, f: &mut fmt::Formatter<W>) -> fmt::Result {
        let inst = self.1;
        let rd = inst.rd;
        let rs1 = inst.rs1;
        let rs2 = inst.rs2;
        let imm = Signed(inst.imm);
        match self.0 {
            Shape::Registers => write!(f, " x{rd},x{rs1},x{rs2}"),
            Shape::WithNumber | Shape::ByAmount => write!(f, " x{rd},x{rs1},{imm}"),
            Shape::FromAddress => write!(f, " x{rd},{imm}(x{rs1})"),
            Shape::ToAddress => write!(f, " x{rs2},{imm}(x{rs1})"),
            Shape::Branch => write!(f, " x{rs1},x{rs2},{imm}"),
            Shape::UpperBits => {
                let upper = inst.imm / 4096;
                write!(f, " x{rd},{upper}")
            }
            Shape::Jump => write!(f, " x{rd},{imm}"),
            Shape::Fence | Shape::Alone => Ok(()),
        }
    }
}

/// A word and the instruction that it is shown as, if it is: its line, without the line feed.
#[derive(Clone, Copy)]
pub(crate) struct Listed(pub u32, pub Option<Inst>);

impl fmt::Display for Listed {
    ghost use Rattle.std.specs.Prelude.{Some};
    ghost use Rattle.cv_asm.specs.Listing.{shown_text};

    ghost output = { λ w. Some (shown_text w.0 w.1) };

    fn fmt<W: fmt::Write>(&self, f: &mut fmt::Formatter<W>) -> fmt::Result {
        match self.1 {
            None => {
                let word = Address(self.0);
                write!(f, ".word 0x{word}")
            }
            Some(inst) => {
                let name = name(inst.op);
                let operands = Operands(operand_shape(inst.op), inst);
                write!(f, "{name}{operands}")
            }
        }
    }
}
