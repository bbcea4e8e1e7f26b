ghost use Rattle.std.specs.Prelude.{◌≡◌, ◌<◌, ◌^◌, ◌%◌};
ghost use Rattle.cv_isa.specs.Bits.{bits, sign_extend};
ghost use Rattle.cv_isa.specs.DecodeTable.{immediate_of};
ghost use Rattle.cv_isa.specs.Instruction.{IsExtended};

use crate::operation::Format;

/// The field of `count` bits of a word whose lowest bit is bit `low`.
pub(crate) fn field(word: u32, low: u32, count: u32) -> u32
    requires low { low < 32 }
    requires count { count < 32 }
    ensures value { result ≡ bits word low count }
    ensures small { result < 2 ^ count }
{
    (word >> low) & ((1 << count) - 1)
}

/// The 32-bit number that the two's complement `value` of `count` bits stands for.
pub(crate) fn extended(value: u32, count: u32) -> u32
    requires count { (0 < count) × (count < 32) }
    requires value { value < 2 ^ count }
    ensures { result ≡ sign_extend count value }
{
    if value < 1 << (count - 1) {
        value
    } else {
        value.wrapping_sub(1 << count)
    }
}

/// The immediate of an I-type word.
pub(crate) fn immediate_field(word: u32) -> u32
    ensures value { result ≡ immediate_of Format.Immediate word }
    ensures extended { IsExtended 12 result }
{
    extended(field(word, 20, 12), 12)
}

/// The immediate of an S-type word.
pub(crate) fn store_field(word: u32) -> u32
    ensures value { result ≡ immediate_of Format.Store word }
    ensures extended { IsExtended 12 result }
{
    extended((field(word, 25, 7) << 5) + field(word, 7, 5), 12)
}

/// The offset of a B-type word.
pub(crate) fn branch_field(word: u32) -> u32
    ensures value { result ≡ immediate_of Format.Branch word }
    ensures extended { IsExtended 13 result }
    ensures even { result % 2 ≡ 0 }
{
    let high = (field(word, 31, 1) << 12) + (field(word, 7, 1) << 11);
    extended(
        high + (field(word, 25, 6) << 5) + (field(word, 8, 4) << 1),
        13,
    )
}

/// The offset of a J-type word.
pub(crate) fn jump_field(word: u32) -> u32
    ensures value { result ≡ immediate_of Format.Jump word }
    ensures extended { IsExtended 21 result }
    ensures even { result % 2 ≡ 0 }
{
    let high = (field(word, 31, 1) << 20) + (field(word, 12, 8) << 12);
    extended(
        high + (field(word, 20, 1) << 11) + (field(word, 21, 10) << 1),
        21,
    )
}
