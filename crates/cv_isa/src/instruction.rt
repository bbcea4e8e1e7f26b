use crate::operation::Op;
use std::marker::Model;

/// An RV32I instruction.
///
/// `rd`, `rs1` and `rs2` are register numbers from 0 to 31. `imm` is the immediate as a 32-bit
/// number, sign extended where the format says so (ISA manual, 2.3). Each value has fields that its
/// format can hold, and 0 in those that the format lacks (`IsInstruction`).
#[derive(Clone, Copy, Debug, PartialEq, Eq)]
pub struct Inst {
    pub op: Op,
    pub rd: u8,
    pub rs1: u8,
    pub rs2: u8,
    pub imm: u32,
}

impl Model for Inst {
    ghost use Rattle.cv_isa.specs.Instruction.{Instruction};

    ghost Value = { Instruction };

    ghost view = { λ i. record { op = i.op; rd = i.rd; rs1 = i.rs1; rs2 = i.rs2; imm = i.imm } };

    ghost use Rattle.cv_isa.specs.Instruction.{IsInstruction};

    ghost invariant = { λ i. IsInstruction (record { op = i.op; rd = i.rd; rs1 = i.rs1; rs2 = i.rs2; imm = i.imm }) };

    ghost inverse = { λ i. record { op = i.op; rd = i.rd; rs1 = i.rs1; rs2 = i.rs2; imm = i.imm } };
}

impl Inst {
    ghost use Rattle.std.specs.Prelude.{◌≡◌};
    ghost use Rattle.cv_isa.specs.DecodeTable.{with_fields};
    ghost use Rattle.cv_isa.specs.Instruction.{IsInstruction};

    /// The instruction of these fields, which have to be in the ranges of its format, and 0 where the
    /// format lacks them.
    pub fn new(op: Op, rd: u8, rs1: u8, rs2: u8, imm: u32) -> Inst
        requires { IsInstruction (with_fields op rd rs1 rs2 imm) }
        ensures { result ≡ with_fields op rd rs1 rs2 imm }
    {
        Inst {
            op,
            rd,
            rs1,
            rs2,
            imm,
        }
    }
}
