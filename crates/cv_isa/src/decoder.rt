ghost use Rattle.std.specs.Prelude.{◌≡◌, ◌<◌, ◌^◌, IfSome};
ghost use Rattle.cv_isa.specs.Bits.{bits};
ghost use Rattle.cv_isa.specs.ByFields.{operation_at};
ghost use Rattle.cv_isa.specs.DecodeTable.{instruction_at, meaning_of};
ghost use Rattle.cv_isa.specs.Instruction.{format_of, IsInstruction};

use crate::instruction::Inst;
use crate::operation::{Format, Op};
use crate::words::{branch_field, field, immediate_field, jump_field, store_field};

/// The branch of this funct3 (ISA manual, 2.5).
fn branch(funct3: u32) -> Option<Op>
    ensures { result ≡ operation_at 0x63 funct3 0 0 }
{
    match funct3 {
        0 => Some(Op::Beq),
        1 => Some(Op::Bne),
        4 => Some(Op::Blt),
        5 => Some(Op::Bge),
        6 => Some(Op::Bltu),
        7 => Some(Op::Bgeu),
        _ => None,
    }
}

/// The load of this funct3 (ISA manual, 2.6).
fn load(funct3: u32) -> Option<Op>
    ensures { result ≡ operation_at 0x03 funct3 0 0 }
{
    match funct3 {
        0 => Some(Op::Lb),
        1 => Some(Op::Lh),
        2 => Some(Op::Lw),
        4 => Some(Op::Lbu),
        5 => Some(Op::Lhu),
        _ => None,
    }
}

/// The store of this funct3 (ISA manual, 2.6).
fn store(funct3: u32) -> Option<Op>
    ensures { result ≡ operation_at 0x23 funct3 0 0 }
{
    match funct3 {
        0 => Some(Op::Sb),
        1 => Some(Op::Sh),
        2 => Some(Op::Sw),
        _ => None,
    }
}

/// The computation on a register and an immediate of these fields (ISA manual, 2.4); funct7 counts
/// for shifts alone.
fn with_immediate(funct3: u32, funct7: u32) -> Option<Op>
    ensures { result ≡ operation_at 0x13 funct3 funct7 0 }
{
    match (funct3, funct7) {
        (0, _) => Some(Op::Addi),
        (2, _) => Some(Op::Slti),
        (3, _) => Some(Op::Sltiu),
        (4, _) => Some(Op::Xori),
        (6, _) => Some(Op::Ori),
        (7, _) => Some(Op::Andi),
        (1, 0) => Some(Op::Slli),
        (5, 0) => Some(Op::Srli),
        (5, 0x20) => Some(Op::Srai),
        _ => None,
    }
}

/// The computation on two registers of these fields (ISA manual, 2.4).
fn with_registers(funct3: u32, funct7: u32) -> Option<Op>
    ensures { result ≡ operation_at 0x33 funct3 funct7 0 }
{
    match (funct3, funct7) {
        (0, 0) => Some(Op::Add),
        (0, 0x20) => Some(Op::Sub),
        (1, 0) => Some(Op::Sll),
        (2, 0) => Some(Op::Slt),
        (3, 0) => Some(Op::Sltu),
        (4, 0) => Some(Op::Xor),
        (5, 0) => Some(Op::Srl),
        (5, 0x20) => Some(Op::Sra),
        (6, 0) => Some(Op::Or),
        (7, 0) => Some(Op::And),
        _ => None,
    }
}

/// ECALL or EBREAK, each of which is one word (ISA manual, 2.8).
fn environment(word: u32) -> Option<Op>
    ensures { result ≡ operation_at 0x73 0 0 word }
{
    match word {
        0x0000_0073 => Some(Op::Ecall),
        0x0010_0073 => Some(Op::Ebreak),
        _ => None,
    }
}

/// The operation of the word, by its opcode, funct3 and funct7.
fn operation(word: u32) -> Option<Op>
    ensures { result ≡ operation_at (bits word 0 7) (bits word 12 3) (bits word 25 7) word }
{
    let funct3 = field(word, 12, 3);
    let funct7 = field(word, 25, 7);
    match field(word, 0, 7) {
        0x37 => Some(Op::Lui),
        0x17 => Some(Op::Auipc),
        0x6f => Some(Op::Jal),
        0x67 if funct3 == 0 => Some(Op::Jalr),
        0x63 => branch(funct3),
        0x03 => load(funct3),
        0x23 => store(funct3),
        0x13 => with_immediate(funct3, funct7),
        0x33 => with_registers(funct3, funct7),
        0x0f if funct3 == 0 => Some(Op::Fence),
        0x73 => environment(word),
        _ => None,
    }
}

/// The register number in the five bits from `low` on.
fn register(word: u32, low: u32) -> u8
    requires { low < 32 }
    ensures value { result ≡ bits word low 5 }
    ensures small { result < 32 }
{
    field(word, low, 5) as u8
}

/// The instruction `op`, whose words have this format, with the fields of the word.
fn instruction(format: Format, op: Op, word: u32) -> Inst
    requires { format ≡ format_of op }
    ensures { result ≡ instruction_at format op word }
{
    let rd = register(word, 7);
    let rs1 = register(word, 15);
    let rs2 = register(word, 20);
    match format {
        Format::Register => Inst::new(op, rd, rs1, rs2, 0),
        Format::Immediate => Inst::new(op, rd, rs1, 0, immediate_field(word)),
        Format::Shift => Inst::new(op, rd, rs1, 0, field(word, 20, 5)),
        Format::Store => Inst::new(op, 0, rs1, rs2, store_field(word)),
        Format::Branch => Inst::new(op, 0, rs1, rs2, branch_field(word)),
        Format::Upper => Inst::new(op, rd, 0, 0, field(word, 12, 20) << 12),
        Format::Jump => Inst::new(op, rd, 0, 0, jump_field(word)),
        Format::Environment => Inst::new(op, 0, 0, 0, 0),
    }
}

/// The RV32I instruction that the word is, or `None` where it is none: no row of the instruction
/// listing "RV32I Base Instruction Set" fits it.
pub fn decode(word: u32) -> Option<Inst>
    ensures meaning { result ≡ meaning_of word }
    ensures in_range { IfSome result IsInstruction }
{
    let op = operation(word)?;
    Some(instruction(op.format(), op, word))
}
