ghost use Rattle.std.specs.Prelude.{◌≡◌, ◌≤◌, ◌*◌, ◌+◌, [], ◌∷◌, length, Ok, Err, IfOk, IfErr, codes};
ghost use Rattle.cv_isa.specs.DecodeTable.{with_fields};
ghost use Rattle.cv_isa.specs.Instruction.{IsInstruction};
ghost use Rattle.cv_isa.specs.Names.{word_of};
ghost use Rattle.cv_asm.specs.Fits.{AreOfKinds, IsKind};
ghost use Rattle.cv_asm.specs.Labels.{place_by, texts_of};
ghost use Rattle.cv_asm.specs.Operands.{operands_in};
ghost use Rattle.cv_asm.specs.Shapes.{instruction_with, kinds_of, shape_of};
ghost use Rattle.cv_asm.specs.Source.{code_word, data_word, known_word, named_word};
ghost use Rattle.cv_isa.specs.declared.operation.Op.{Op};

use crate::fault::LineFault;
use crate::labels::Labels;
use crate::operands::operand;
use crate::shapes::{Kind, Shape, operand_shape, three_kinds, two_kinds};
use cv_isa::{Inst, Op, encode, named, words_of_instructions};

/// The most words that a source may have.
const MOST_WORDS: u32 = 65_536;

/// The fields of an instruction.
#[derive(Clone, Copy)]
struct Fields {
    rd: u32,
    rs1: u32,
    rs2: u32,
    imm: u32,
}

/// The fields that three operands give.
fn three_fields(shape: Shape, a: u32, b: u32, c: u32) -> Fields
    requires { length (kinds_of shape) ≡ 3 }
    ensures { (o : Op) → with_fields o result.rd result.rs1 result.rs2 result.imm ≡ instruction_with shape o (a ∷ b ∷ c ∷ []) }
{
    match shape {
        Shape::Registers => Fields {
            rd: a,
            rs1: b,
            rs2: c,
            imm: 0,
        },
        Shape::WithNumber | Shape::ByAmount => Fields {
            rd: a,
            rs1: b,
            rs2: 0,
            imm: c,
        },
        Shape::FromAddress => Fields {
            rd: a,
            rs1: c,
            rs2: 0,
            imm: b,
        },
        Shape::ToAddress => Fields {
            rd: 0,
            rs1: c,
            rs2: a,
            imm: b,
        },
        Shape::Branch => Fields {
            rd: 0,
            rs1: a,
            rs2: b,
            imm: c,
        },
        Shape::UpperBits | Shape::Jump | Shape::Fence | Shape::Alone => unreachable!(),
    }
}

/// The fields that two operands give.
fn two_fields(shape: Shape, a: u32, b: u32) -> Fields
    requires count { length (kinds_of shape) ≡ 2 }
    requires fits { AreOfKinds (kinds_of shape) (a ∷ b ∷ []) }
    ensures { (o : Op) → with_fields o result.rd result.rs1 result.rs2 result.imm ≡ instruction_with shape o (a ∷ b ∷ []) }
{
    match shape {
        Shape::UpperBits => Fields {
            rd: a,
            rs1: 0,
            rs2: 0,
            imm: b * 4096,
        },
        Shape::Jump => Fields {
            rd: a,
            rs1: 0,
            rs2: 0,
            imm: b,
        },
        _ => unreachable!(),
    }
}

/// The fields of an instruction without operands.
fn no_fields(shape: Shape) -> Fields
    requires { length (kinds_of shape) ≡ 0 }
    ensures { (o : Op) → with_fields o result.rd result.rs1 result.rs2 result.imm ≡ instruction_with shape o [] }
{
    let imm = match shape {
        Shape::Fence => 255,
        _ => 0,
    };
    Fields {
        rd: 0,
        rs1: 0,
        rs2: 0,
        imm,
    }
}

/// The word of an instruction by its fields.
fn word(op: Op, fields: Fields) -> u32
    requires { IsInstruction (with_fields op fields.rd fields.rs1 fields.rs2 fields.imm) }
    ensures { result ≡ word_of (with_fields op fields.rd fields.rs1 fields.rs2 fields.imm) }
{
    words_of_instructions();
    encode(&Inst::new(
        op,
        fields.rd as u8,
        fields.rs1 as u8,
        fields.rs2 as u8,
        fields.imm,
    ))
}

/// The values of three operands of these kinds.
#[tactic(auto, using(crate::proofs::Counting::three_ok, crate::proofs::Counting::three_first, crate::proofs::Counting::three_second, crate::proofs::Counting::three_third))]
fn three_values<'t>(
    labels: &Labels<'t>,
    place: u32,
    kinds: (Kind, Kind, Kind),
    x: &'t [u8],
    y: &'t [u8],
    z: &'t [u8],
) -> Result<(u32, u32, u32), LineFault>
    requires { IsKind kinds.0 × IsKind kinds.1 × IsKind kinds.2 }
    ensures ok { IfOk result (λ v. operands_in (place_by labels.now) place (kinds.0 ∷ kinds.1 ∷ kinds.2 ∷ []) (x.now ∷ y.now ∷ z.now ∷ []) ≡ Ok (v.0 ∷ v.1 ∷ v.2 ∷ [])) }
    ensures fits { IfOk result (λ v. AreOfKinds (kinds.0 ∷ kinds.1 ∷ kinds.2 ∷ []) (v.0 ∷ v.1 ∷ v.2 ∷ [])) }
    ensures err { IfErr result (λ f. operands_in (place_by labels.now) place (kinds.0 ∷ kinds.1 ∷ kinds.2 ∷ []) (x.now ∷ y.now ∷ z.now ∷ []) ≡ Err f) }
{
    let a = operand(labels, place, 1, kinds.0, x)?;
    let b = operand(labels, place, 2, kinds.1, y)?;
    let c = operand(labels, place, 3, kinds.2, z)?;
    Ok((a, b, c))
}

/// The values of two operands of these kinds.
#[tactic(auto, using(crate::proofs::Counting::two_ok, crate::proofs::Counting::two_first, crate::proofs::Counting::two_second))]
fn two_values<'t>(
    labels: &Labels<'t>,
    place: u32,
    kinds: (Kind, Kind),
    x: &'t [u8],
    y: &'t [u8],
) -> Result<(u32, u32), LineFault>
    requires { IsKind kinds.0 × IsKind kinds.1 }
    ensures ok { IfOk result (λ v. operands_in (place_by labels.now) place (kinds.0 ∷ kinds.1 ∷ []) (x.now ∷ y.now ∷ []) ≡ Ok (v.0 ∷ v.1 ∷ [])) }
    ensures fits { IfOk result (λ v. AreOfKinds (kinds.0 ∷ kinds.1 ∷ []) (v.0 ∷ v.1 ∷ [])) }
    ensures err { IfErr result (λ f. operands_in (place_by labels.now) place (kinds.0 ∷ kinds.1 ∷ []) (x.now ∷ y.now ∷ []) ≡ Err f) }
{
    let a = operand(labels, place, 1, kinds.0, x)?;
    let b = operand(labels, place, 2, kinds.1, y)?;
    Ok((a, b))
}

/// The values of the operands of a shape that has three.
fn three<'t>(
    labels: &Labels<'t>,
    place: u32,
    shape: Shape,
    operands: &[&'t [u8]],
) -> Result<(u32, u32, u32), LineFault>
    requires { length (kinds_of shape) ≡ 3 }
    ensures ok { IfOk result (λ v. operands_in (place_by labels.now) place (kinds_of shape) (texts_of operands.now) ≡ Ok (v.0 ∷ v.1 ∷ v.2 ∷ [])) }
    ensures fits { IfOk result (λ v. AreOfKinds (kinds_of shape) (v.0 ∷ v.1 ∷ v.2 ∷ [])) }
    ensures err { IfErr result (λ f. operands_in (place_by labels.now) place (kinds_of shape) (texts_of operands.now) ≡ Err f) }
{
    match operands {
        [x, y, z] => three_values(labels, place, three_kinds(shape), x, y, z),
        _ => Err(LineFault::OperandCount),
    }
}

/// The values of the operands of a shape that has two.
fn two<'t>(
    labels: &Labels<'t>,
    place: u32,
    shape: Shape,
    operands: &[&'t [u8]],
) -> Result<(u32, u32), LineFault>
    requires { length (kinds_of shape) ≡ 2 }
    ensures ok { IfOk result (λ v. operands_in (place_by labels.now) place (kinds_of shape) (texts_of operands.now) ≡ Ok (v.0 ∷ v.1 ∷ [])) }
    ensures fits { IfOk result (λ v. AreOfKinds (kinds_of shape) (v.0 ∷ v.1 ∷ [])) }
    ensures err { IfErr result (λ f. operands_in (place_by labels.now) place (kinds_of shape) (texts_of operands.now) ≡ Err f) }
{
    match operands {
        [x, y] => two_values(labels, place, two_kinds(shape), x, y),
        _ => Err(LineFault::OperandCount),
    }
}

/// The word of an instruction with three operands.
fn with_three<'t>(
    labels: &Labels<'t>,
    place: u32,
    op: Op,
    shape: Shape,
    operands: &[&'t [u8]],
) -> Result<u32, LineFault>
    requires shape { shape_of op ≡ shape }
    requires count { length (kinds_of shape) ≡ 3 }
    ensures { result ≡ known_word (place_by labels.now) place (texts_of operands.now) op }
{
    match three(labels, place, shape, operands) {
        Ok(values) => Ok(word(op, three_fields(shape, values.0, values.1, values.2))),
        Err(fault) => Err(fault),
    }
}

/// The word of an instruction with two operands.
fn with_two<'t>(
    labels: &Labels<'t>,
    place: u32,
    op: Op,
    shape: Shape,
    operands: &[&'t [u8]],
) -> Result<u32, LineFault>
    requires shape { shape_of op ≡ shape }
    requires count { length (kinds_of shape) ≡ 2 }
    ensures { result ≡ known_word (place_by labels.now) place (texts_of operands.now) op }
{
    match two(labels, place, shape, operands) {
        Ok(values) => Ok(word(op, two_fields(shape, values.0, values.1))),
        Err(fault) => Err(fault),
    }
}

/// The word of an instruction without operands.
fn with_none<'t>(
    labels: &Labels<'t>,
    place: u32,
    op: Op,
    shape: Shape,
    operands: &[&'t [u8]],
) -> Result<u32, LineFault>
    requires shape { shape_of op ≡ shape }
    requires count { length (kinds_of shape) ≡ 0 }
    ensures { result ≡ known_word (place_by labels.now) place (texts_of operands.now) op }
{
    match operands {
        [] => Ok(word(op, no_fields(shape))),
        _ => Err(LineFault::OperandCount),
    }
}

/// The word of a known instruction at `place`.
fn known_word<'t>(
    labels: &Labels<'t>,
    place: u32,
    op: Op,
    operands: &[&'t [u8]],
) -> Result<u32, LineFault>
    ensures { result ≡ known_word (place_by labels.now) place (texts_of operands.now) op }
{
    let shape = operand_shape(op);
    match shape {
        Shape::Fence | Shape::Alone => with_none(labels, place, op, shape, operands),
        Shape::UpperBits | Shape::Jump => with_two(labels, place, op, shape, operands),
        Shape::Registers
        | Shape::WithNumber
        | Shape::ByAmount
        | Shape::FromAddress
        | Shape::ToAddress
        | Shape::Branch => with_three(labels, place, op, shape, operands),
    }
}

/// The word that `.word` and one operand stand for.
#[tactic(auto, using(crate::proofs::Counting::data_ok, crate::proofs::Counting::data_refused))]
fn data_value<'t>(labels: &Labels<'t>, place: u32, text: &'t [u8]) -> Result<u32, LineFault>
    ensures { result ≡ data_word (place_by labels.now) place (text.now ∷ []) }
{
    match operand(labels, place, 1, Kind::Number(0, 4_294_967_295), text) {
        Ok(number) => Ok(number),
        Err(fault) => Err(fault),
    }
}

/// The word that `.word` and its operands stand for.
fn data_word<'t>(labels: &Labels<'t>, place: u32, operands: &[&'t [u8]]) -> Result<u32, LineFault>
    ensures { result ≡ data_word (place_by labels.now) place (texts_of operands.now) }
{
    match operands {
        [text] => data_value(labels, place, text),
        _ => Err(LineFault::OperandCount),
    }
}

/// The word of a name and its operands, at `place`.
fn named_word<'t>(
    labels: &Labels<'t>,
    place: u32,
    name: &'t [u8],
    operands: &[&'t [u8]],
) -> Result<u32, LineFault>
    ensures { result ≡ named_word (place_by labels.now) place name.now (texts_of operands.now) }
{
    if name == b".word".as_slice() {
        return data_word(labels, place, operands);
    }
    match named(name) {
        Some(op) => known_word(labels, place, op, operands),
        None => Err(LineFault::UnknownName),
    }
}

/// The word of the pieces of a line, which comes after `before` other words, if there are pieces.
pub(crate) fn code_word<'t>(
    labels: &Labels<'t>,
    before: u32,
    code: &[&'t [u8]],
) -> Result<Option<u32>, LineFault>
    requires { before ≤ 65536 }
    ensures { result ≡ code_word (place_by labels.now) before (texts_of code.now) }
{
    match code {
        [] => Ok(None),
        [name, operands @ ..] => {
            let word = named_word(labels, 4 * before, name, operands)?;
            if before < MOST_WORDS {
                Ok(Some(word))
            } else {
                Err(LineFault::TooManyWords)
            }
        }
    }
}
