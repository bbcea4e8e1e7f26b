ghost use Rattle.std.specs.Prelude.{◌≡◌, Some};
ghost use Rattle.cv_isa.specs.declared.operation.Op.{Op};
ghost use Rattle.cv_isa.specs.Names.{name_of, op_named};
ghost use Rattle.cv_isa.specs.Statements.{MeaningsAreInstructions, OneWordMeans, WordsMean};

use crate::operation::Op;

/// The operations of the instruction listing, in the order of the decode table.
const OPERATIONS: [Op; 40] = [
    Op::Lui,
    Op::Auipc,
    Op::Jal,
    Op::Jalr,
    Op::Beq,
    Op::Bne,
    Op::Blt,
    Op::Bge,
    Op::Bltu,
    Op::Bgeu,
    Op::Lb,
    Op::Lh,
    Op::Lw,
    Op::Lbu,
    Op::Lhu,
    Op::Sb,
    Op::Sh,
    Op::Sw,
    Op::Addi,
    Op::Slti,
    Op::Sltiu,
    Op::Xori,
    Op::Ori,
    Op::Andi,
    Op::Slli,
    Op::Srli,
    Op::Srai,
    Op::Add,
    Op::Sub,
    Op::Sll,
    Op::Slt,
    Op::Sltu,
    Op::Xor,
    Op::Srl,
    Op::Sra,
    Op::Or,
    Op::And,
    Op::Fence,
    Op::Ecall,
    Op::Ebreak,
];

/// The name of an operation in assembly language, in lower case (ISA manual, instruction listing
/// "RV32I Base Instruction Set").
pub fn name(op: Op) -> &'static str
    ensures { result.now ≡ name_of op }
{
    match op {
        Op::Lui => "lui",
        Op::Auipc => "auipc",
        Op::Jal => "jal",
        Op::Jalr => "jalr",
        Op::Beq => "beq",
        Op::Bne => "bne",
        Op::Blt => "blt",
        Op::Bge => "bge",
        Op::Bltu => "bltu",
        Op::Bgeu => "bgeu",
        Op::Lb => "lb",
        Op::Lh => "lh",
        Op::Lw => "lw",
        Op::Lbu => "lbu",
        Op::Lhu => "lhu",
        Op::Sb => "sb",
        Op::Sh => "sh",
        Op::Sw => "sw",
        Op::Addi => "addi",
        Op::Slti => "slti",
        Op::Sltiu => "sltiu",
        Op::Xori => "xori",
        Op::Ori => "ori",
        Op::Andi => "andi",
        Op::Slli => "slli",
        Op::Srli => "srli",
        Op::Srai => "srai",
        Op::Add => "add",
        Op::Sub => "sub",
        Op::Sll => "sll",
        Op::Slt => "slt",
        Op::Sltu => "sltu",
        Op::Xor => "xor",
        Op::Srl => "srl",
        Op::Sra => "sra",
        Op::Or => "or",
        Op::And => "and",
        Op::Fence => "fence",
        Op::Ecall => "ecall",
        Op::Ebreak => "ebreak",
    }
}

/// The operation that has this name, in lower case, or `None` where none has it.
#[tactic(auto, unfolding(crate::specs::Names::op_named))]
pub fn named(text: &[u8]) -> Option<Op>
    ensures { result ≡ op_named text.now }
{
    OPERATIONS
        .iter()
        .copied()
        .find(|op| text == name(*op).as_bytes())
}

/// A law of the names: each operation is read back by its name.
pub fn names_are_read_back()
    ensures { (o : Op) → op_named (name_of o) ≡ Some o }
{}

/// A law of words and meanings: the word of an instruction means that instruction, and it is the only
/// one that does; and what a word means has its fields in range.
pub fn words_of_instructions()
    ensures means { WordsMean }
    ensures only { OneWordMeans }
    ensures known { MeaningsAreInstructions }
{}
