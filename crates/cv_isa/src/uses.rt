ghost use Rattle.std.specs.Prelude.{◌≡◌, ℕ, ◌<◌, ◌==◌, ◌||◌, ◌&&◌, not};
ghost use Rattle.cv_isa.specs.Uses.{has, is_read, reads_of, members_of, is_transfer_of, is_link, jalr_link, link_kind_of, names};
ghost use Rattle.cv_isa.specs.Instruction.{format_of};

use crate::instruction::Inst;
use crate::operation::{Format, Op};
use crate::registers::RegSet;

/// What an instruction does to the return-address stack (ISA manual, 2.5).
#[derive(Clone, Copy, Debug, PartialEq, Eq)]
pub enum LinkKind {
    /// Neither a call nor a return.
    Nothing,
    /// A call: a return address is pushed.
    Push,
    /// A return: a return address is popped.
    Pop,
    /// A return into another coroutine: one is popped, then one is pushed.
    PopPush,
}

/// Whether the instruction may go on elsewhere than at the next word: the branches, JAL, JALR, ECALL
/// and EBREAK (ISA manual, 2.5 and 2.8).
pub fn is_transfer(inst: &Inst) -> bool
    ensures { result ≡ is_transfer_of inst.now }
{
    matches!(
        inst.op,
        Op::Jal
            | Op::Jalr
            | Op::Beq
            | Op::Bne
            | Op::Blt
            | Op::Bge
            | Op::Bltu
            | Op::Bgeu
            | Op::Ecall
            | Op::Ebreak
    )
}

/// Whether the register holds return addresses by convention: x1 and x5.
fn is_link_register(reg: u8) -> bool
    ensures { result ≡ is_link reg }
{
    reg == 1 || reg == 5
}

/// What a JALR with these registers does to the return-address stack.
fn jalr_link_kind(rd: u8, rs1: u8) -> LinkKind
    ensures { result ≡ jalr_link rd rs1 }
{
    match (is_link_register(rd), is_link_register(rs1)) {
        (true, true) if rd != rs1 => LinkKind::PopPush,
        (true, _) => LinkKind::Push,
        (false, true) => LinkKind::Pop,
        (false, false) => LinkKind::Nothing,
    }
}

/// What the instruction does to the return-address stack, by the hints of the ISA manual, 2.5. The
/// link registers are x1 and x5.
pub fn link_kind(inst: &Inst) -> LinkKind
    ensures { result ≡ link_kind_of inst.now }
{
    match inst.op {
        Op::Jal if is_link_register(inst.rd) => LinkKind::Push,
        Op::Jalr => jalr_link_kind(inst.rd, inst.rs1),
        _ => LinkKind::Nothing,
    }
}

/// The registers whose values the instruction takes, without x0. ECALL reads x10, x11, x12 and x17,
/// FENCE and EBREAK none (ISA manual, 2.4 to 2.8).
pub fn reads(inst: &Inst) -> RegSet
    ensures each { (r : ℕ) → has result r ≡ is_read inst.now r }
    ensures members { members_of result ≡ reads_of inst.now }
{
    operands(inst)
}

/// The same set as `reads`.
fn operands(inst: &Inst) -> RegSet
    ensures { (r : ℕ) → has result r ≡ is_read inst.now r }
{
    match inst.op {
        Op::Fence => RegSet::empty(),
        Op::Ecall => RegSet::empty().with(10).with(11).with(12).with(17),
        _ => sources(inst),
    }
}

/// The registers that the instruction's source fields name, without x0.
fn sources(inst: &Inst) -> RegSet
    ensures { (r : ℕ) → has result r ≡ (not (r == 0) && names (format_of inst.now.op) inst.now r) }
{
    match inst.op.format() {
        Format::Register | Format::Store | Format::Branch => {
            with_source(with_source(RegSet::empty(), inst.rs1), inst.rs2)
        }
        Format::Immediate | Format::Shift => with_source(RegSet::empty(), inst.rs1),
        Format::Upper | Format::Jump | Format::Environment => RegSet::empty(),
    }
}

/// The set with the source register added, where it is not x0.
fn with_source(set: RegSet, reg: u8) -> RegSet
    requires { reg < 32 }
    ensures { (r : ℕ) → has result r ≡ ((not (r == 0) && (r == reg)) || has set r) }
{
    if reg == 0 { set } else { set.with(reg) }
}
