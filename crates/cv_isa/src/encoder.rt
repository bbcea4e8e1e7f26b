ghost use Rattle.std.specs.Prelude.{◌≡◌, ℕ, ◌<◌, ◌^◌, Some};
ghost use Rattle.cv_isa.specs.DecodeTable.{meaning_of};
ghost use Rattle.cv_isa.specs.Encoding.{branch_placed, code_of, jump_placed, placed, IsCode};
ghost use Rattle.cv_isa.specs.Instruction.{format_of, IsInstruction};

use crate::instruction::Inst;
use crate::operation::{Format, Op};
use crate::words::field;

/// The bits that all words of the operation share: opcode, funct3 and funct7.
fn shared_bits(op: Op) -> u32
    ensures value { result ≡ code_of op }
    ensures shape { IsCode (format_of op) result }
{
    match op {
        Op::Lui => 0x37,
        Op::Auipc => 0x17,
        Op::Jal => 0x6f,
        Op::Jalr => 0x67,
        Op::Beq => 0x63,
        Op::Bne => 0x1063,
        Op::Blt => 0x4063,
        Op::Bge => 0x5063,
        Op::Bltu => 0x6063,
        Op::Bgeu => 0x7063,
        Op::Lb => 0x3,
        Op::Lh => 0x1003,
        Op::Lw => 0x2003,
        Op::Lbu => 0x4003,
        Op::Lhu => 0x5003,
        Op::Sb => 0x23,
        Op::Sh => 0x1023,
        Op::Sw => 0x2023,
        Op::Addi => 0x13,
        Op::Slti => 0x2013,
        Op::Sltiu => 0x3013,
        Op::Xori => 0x4013,
        Op::Ori => 0x6013,
        Op::Andi => 0x7013,
        Op::Slli => 0x1013,
        Op::Srli => 0x5013,
        Op::Srai => 0x4000_5013,
        Op::Add => 0x33,
        Op::Sub => 0x4000_0033,
        Op::Sll => 0x1033,
        Op::Slt => 0x2033,
        Op::Sltu => 0x3033,
        Op::Xor => 0x4033,
        Op::Srl => 0x5033,
        Op::Sra => 0x4000_5033,
        Op::Or => 0x6033,
        Op::And => 0x7033,
        Op::Fence => 0xf,
        Op::Ecall => 0x73,
        Op::Ebreak => 0x0010_0073,
    }
}

/// An even offset of 13 bits in its places in a B-type word.
fn branch_offset(imm: u32) -> u32
    ensures { result ≡ branch_placed imm }
{
    (field(imm, 11, 1) << 7)
        + (field(imm, 1, 4) << 8)
        + (field(imm, 5, 6) << 25)
        + (field(imm, 12, 1) << 31)
}

/// An even offset of 21 bits in its places in a J-type word.
fn jump_offset(imm: u32) -> u32
    ensures { result ≡ jump_placed imm }
{
    (field(imm, 12, 8) << 12)
        + (field(imm, 11, 1) << 20)
        + (field(imm, 1, 10) << 21)
        + (field(imm, 20, 1) << 31)
}

/// The word that has the shared bits of the operation and the fields of the instruction.
fn word_of(inst: &Inst) -> u32
    ensures placed { result ≡ placed (format_of inst.now.op) (code_of inst.now.op) inst.now }
    ensures known { IsInstruction inst.now }
{
    let code = shared_bits(inst.op);
    let imm = inst.imm;
    let rd = u32::from(inst.rd) << 7;
    let rs1 = u32::from(inst.rs1) << 15;
    let rs2 = u32::from(inst.rs2) << 20;
    match inst.op.format() {
        Format::Register => code + rd + rs1 + rs2,
        Format::Immediate => code + rd + rs1 + (field(imm, 0, 12) << 20),
        Format::Shift => code + rd + rs1 + (field(imm, 0, 5) << 20),
        Format::Store => code + rs1 + rs2 + (field(imm, 0, 5) << 7) + (field(imm, 5, 7) << 25),
        Format::Branch => code + rs1 + rs2 + branch_offset(imm),
        Format::Upper => code + rd + (field(imm, 12, 20) << 12),
        Format::Jump => code + rd + jump_offset(imm),
        Format::Environment => code,
    }
}

/// The word of the instruction: the only one that `decode` takes for it (ISA manual, 2.2 and 2.3).
pub fn encode(inst: &Inst) -> u32
    ensures decodes { meaning_of result ≡ Some inst.now }
    ensures only { (w : ℕ) → w < 2 ^ 32 → meaning_of w ≡ Some inst.now → w ≡ result }
{
    word_of(inst)
}
