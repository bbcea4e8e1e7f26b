ghost use Rattle.std.specs.Prelude.{◌≡◌, ◌<◌, ◌≤◌, ◌==◌, length, IfSome};
ghost use Rattle.cv_journal.specs.Reading.{address_in, hex_behind, hex_digit, is_well_led, number_in};
ghost use Rattle.cv_journal.specs.Steps.{digits_after};

/// A decimal number in 32 bits, without a zero before other digits.
#[tactic(auto, using(crate::proofs::NumberLaw::number_is))]
pub fn number(text: &[u8]) -> Option<u32>
    ensures { result ≡ number_in text.now }
{
    if is_well_led(text) {
        digits(text)
    } else {
        None
    }
}

/// Whether a text is not empty and has no zero before other digits.
fn is_well_led(text: &[u8]) -> bool
    ensures { result ≡ is_well_led text.now }
{
    match text {
        [] => false,
        [_] => true,
        [first, ..] => *first != b'0',
    }
}

/// The number that digits write, in 32 bits.
fn digits(text: &[u8]) -> Option<u32>
    ensures { result ≡ digits_after 0 text.now }
{
    let mut number: u32 = 0;
    for byte in text {
        if !byte.is_ascii_digit() {
            return None;
        }
        number = number
            .checked_mul(10)?
            .checked_add(u32::from(*byte - b'0'))?;
    }
    Some(number)
}

/// An address or a register's value: eight upper-case hexadecimal digits.
#[tactic(auto, unfolding(crate::specs::Reading::address_in))]
pub fn address(text: &[u8]) -> Option<u32>
    ensures { result ≡ address_in text.now }
{
    if text.len() == 8 {
        hex_number(text)
    } else {
        None
    }
}

/// The number that eight upper-case hexadecimal digits write.
#[tactic(auto, using(crate::proofs::HexLaw::room_for_digit, crate::proofs::HexLaw::one_more_digit))]
fn hex_number(text: &[u8]) -> Option<u32>
    requires { length text.now ≡ 8 }
    ensures { result ≡ hex_behind 0 text.now }
{
    let mut number: u32 = 0;
    for byte in text {
        let digit = hex_digit(b'A', *byte)?;
        number = 16 * number + u32::from(digit);
    }
    Some(number)
}

/// The value of a hexadecimal digit whose letters begin at `letter`.
pub fn hex_digit(letter: u8, byte: u8) -> Option<u8>
    requires { letter ≤ 97 }
    ensures value { result ≡ hex_digit letter byte }
    ensures small { IfSome result (λ digit. digit < 16) }
{
    if byte.is_ascii_digit() {
        return Some(byte - b'0');
    }
    if byte < letter || letter + 5 < byte {
        return None;
    }
    Some(byte - letter + 10)
}
