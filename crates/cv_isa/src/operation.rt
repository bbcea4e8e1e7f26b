ghost use Rattle.std.specs.Prelude.{◌≡◌};
ghost use Rattle.cv_isa.specs.Instruction.{format_of};

/// An RV32I operation, by its name in the instruction listing "RV32I Base Instruction Set".
#[derive(Clone, Copy, Debug, PartialEq, Eq)]
pub enum Op {
    Lui,
    Auipc,
    Jal,
    Jalr,
    Beq,
    Bne,
    Blt,
    Bge,
    Bltu,
    Bgeu,
    Lb,
    Lh,
    Lw,
    Lbu,
    Lhu,
    Sb,
    Sh,
    Sw,
    Addi,
    Slti,
    Sltiu,
    Xori,
    Ori,
    Andi,
    Slli,
    Srli,
    Srai,
    Add,
    Sub,
    Sll,
    Slt,
    Sltu,
    Xor,
    Srl,
    Sra,
    Or,
    And,
    Fence,
    Ecall,
    Ebreak,
}

/// The layout of an instruction word (ISA manual, 2.2 and 2.3).
#[derive(Clone, Copy, Debug, PartialEq, Eq)]
pub enum Format {
    /// R-type: rd, rs1, rs2.
    Register,
    /// I-type: rd, rs1 and an immediate of 12 bits, sign extended.
    Immediate,
    /// I-type with a shift amount from 0 to 31 as its immediate.
    Shift,
    /// S-type: rs1, rs2 and an immediate of 12 bits, sign extended.
    Store,
    /// B-type: rs1, rs2 and an even offset of 13 bits, sign extended.
    Branch,
    /// U-type: rd and the upper 20 bits of the immediate.
    Upper,
    /// J-type: rd and an even offset of 21 bits, sign extended.
    Jump,
    /// ECALL and EBREAK: one word each, with no field.
    Environment,
}

impl Op {
    /// The format of the operation's words.
    pub fn format(self) -> Format
        ensures { result ≡ format_of self }
    {
        match self {
            Op::Lui | Op::Auipc => Format::Upper,
            Op::Jal => Format::Jump,
            Op::Beq | Op::Bne | Op::Blt | Op::Bge | Op::Bltu | Op::Bgeu => Format::Branch,
            Op::Sb | Op::Sh | Op::Sw => Format::Store,
            Op::Slli | Op::Srli | Op::Srai => Format::Shift,
            Op::Add
            | Op::Sub
            | Op::Sll
            | Op::Slt
            | Op::Sltu
            | Op::Xor
            | Op::Srl
            | Op::Sra
            | Op::Or
            | Op::And => Format::Register,
            Op::Ecall | Op::Ebreak => Format::Environment,
            Op::Jalr
            | Op::Lb
            | Op::Lh
            | Op::Lw
            | Op::Lbu
            | Op::Lhu
            | Op::Addi
            | Op::Slti
            | Op::Sltiu
            | Op::Xori
            | Op::Ori
            | Op::Andi
            | Op::Fence => Format::Immediate,
        }
    }
}
