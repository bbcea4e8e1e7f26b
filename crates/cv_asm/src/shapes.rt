ghost use Rattle.std.specs.Prelude.{◌≡◌, [], ◌∷◌, length};
ghost use Rattle.cv_asm.specs.Shapes.{immediate_shape, kinds_of, shape_of};

use cv_isa::{Format, Op};

/// What an operand is. A number and a target are from −low to high; a target is even, or a label.
#[derive(Clone, Copy, Debug, PartialEq, Eq)]
pub enum Kind {
    Register,
    Number(u32, u32),
    Target(u32, u32),
}

/// Which operands an instruction has, in the order in which they are written.
#[derive(Clone, Copy, Debug, PartialEq, Eq)]
pub enum Shape {
    /// rd, rs1, rs2.
    Registers,
    /// rd, rs1, number.
    WithNumber,
    /// rd, rs1, amount of a shift.
    ByAmount,
    /// rd, number(rs1): the loads and JALR.
    FromAddress,
    /// rs2, number(rs1): the stores.
    ToAddress,
    /// rs1, rs2, target.
    Branch,
    /// rd, the upper 20 bits: LUI and AUIPC.
    UpperBits,
    /// rd, target: JAL.
    Jump,
    /// FENCE, without operands.
    Fence,
    /// ECALL and EBREAK, without operands.
    Alone,
}

/// The shape of an operation whose format is the I-type.
fn immediate_shape(op: Op) -> Shape
    ensures { result ≡ immediate_shape op }
{
    match op {
        Op::Jalr | Op::Lb | Op::Lh | Op::Lw | Op::Lbu | Op::Lhu => Shape::FromAddress,
        Op::Fence => Shape::Fence,
        _ => Shape::WithNumber,
    }
}

/// The shape of an operation's operands.
pub(crate) fn operand_shape(op: Op) -> Shape
    ensures { result ≡ shape_of op }
{
    match op.format() {
        Format::Register => Shape::Registers,
        Format::Immediate => immediate_shape(op),
        Format::Shift => Shape::ByAmount,
        Format::Store => Shape::ToAddress,
        Format::Branch => Shape::Branch,
        Format::Upper => Shape::UpperBits,
        Format::Jump => Shape::Jump,
        Format::Environment => Shape::Alone,
    }
}

/// The three operands of a shape that has three.
pub(crate) fn three_kinds(shape: Shape) -> (Kind, Kind, Kind)
    requires { length (kinds_of shape) ≡ 3 }
    ensures { kinds_of shape ≡ result.0 ∷ result.1 ∷ result.2 ∷ [] }
{
    match shape {
        Shape::Registers => (Kind::Register, Kind::Register, Kind::Register),
        Shape::WithNumber => (Kind::Register, Kind::Register, Kind::Number(2048, 2047)),
        Shape::ByAmount => (Kind::Register, Kind::Register, Kind::Number(0, 31)),
        Shape::Branch => (Kind::Register, Kind::Register, Kind::Target(4096, 4094)),
        Shape::FromAddress | Shape::ToAddress => {
            (Kind::Register, Kind::Number(2048, 2047), Kind::Register)
        }
        Shape::UpperBits | Shape::Jump | Shape::Fence | Shape::Alone => unreachable!(),
    }
}

/// The two operands of a shape that has two.
pub(crate) fn two_kinds(shape: Shape) -> (Kind, Kind)
    requires { length (kinds_of shape) ≡ 2 }
    ensures { kinds_of shape ≡ result.0 ∷ result.1 ∷ [] }
{
    match shape {
        Shape::UpperBits => (Kind::Register, Kind::Number(0, 1_048_575)),
        Shape::Jump => (Kind::Register, Kind::Target(1_048_576, 1_048_574)),
        _ => unreachable!(),
    }
}
