ghost use Rattle.std.specs.Prelude.{◌≡◌, ◌⊎◌, ◌<◌, IfSome};
ghost use Rattle.std.specs.Char.{digit_value, is_digit};
ghost use Rattle.std.specs.Option.{option_map};
ghost use Rattle.cv_asm.specs.Capped.{capped, capped_number, sized};
ghost use Rattle.cv_asm.specs.Operands.{digits_in, number_in, register_in, size_in};
ghost use Rattle.cv_asm.specs.Results.{only_where};

/// Sizes from here on are outside every range.
const CAP: u64 = 0x2_0000_0000;

/// A number as it is written: its sign and its size.
#[derive(Clone, Copy, Debug, PartialEq, Eq)]
pub struct Number {
    pub negative: bool,
    pub size: u64,
}

/// A digit's value in a base.
fn digit(c: u8, base: u32) -> Option<u32>
    requires { (base ≡ 10) ⊎ (base ≡ 16) }
    ensures { result ≡ only_where (is_digit c base) (digit_value c) }
{
    char::from(c).to_digit(base)
}

/// The digits' value up to the cap, or `None` where another byte is among them.
fn digits_from_zero(base: u32, text: &[u8]) -> Option<u64>
    requires { (base ≡ 10) ⊎ (base ≡ 16) }
    ensures { result ≡ sized base 0 text.now }
{
    let mut size = 0u64;
    for c in text {
        let digit = digit(*c, base)?;
        size = (size * u64::from(base) + u64::from(digit)).min(CAP);
    }
    Some(size)
}

/// The value, up to the cap, of one digit at least and nothing else.
#[tactic(auto, using(crate::proofs::Sizes::sized_is))]
fn digits(base: u32, text: &[u8]) -> Option<u64>
    requires { (base ≡ 10) ⊎ (base ≡ 16) }
    ensures { result ≡ option_map capped (digits_in base text.now) }
{
    if text.is_empty() {
        return None;
    }
    digits_from_zero(base, text)
}

/// The size of a number without a sign, up to the cap.
fn size(text: &[u8]) -> Option<u64>
    ensures { result ≡ option_map capped (size_in text.now) }
{
    if let [a, b, rest @ ..] = text {
        if *a == b'0' && *b == b'x' {
            return digits(16, rest);
        }
    }
    digits(10, text)
}

/// The number that a text is, with its size up to the cap.
pub(crate) fn read_number(text: &[u8]) -> Option<Number>
    ensures { result ≡ option_map capped_number (number_in text.now) }
{
    match text {
        [] => None,
        [first, rest @ ..] => {
            if *first == b'-' {
                let size = digits(10, rest)?;
                Some(Number {
                    negative: true,
                    size,
                })
            } else {
                let size = size(text)?;
                Some(Number {
                    negative: false,
                    size,
                })
            }
        }
    }
}

/// The number of the register that a text names.
pub(crate) fn register(text: &[u8]) -> Option<u32>
    ensures value { result ≡ register_in text.now }
    ensures small { IfSome result (λ r. r < 32) }
{
    match text {
        [x, a] => {
            if *x == b'x' && a.is_ascii_digit() {
                return Some(u32::from(*a - b'0'));
            }
            None
        }
        [x, a, b] => {
            if *x == b'x' && a.is_ascii_digit() && b.is_ascii_digit() && *a > b'0' {
                let number = 10 * u32::from(*a - b'0') + u32::from(*b - b'0');
                if number < 32 {
                    return Some(number);
                }
            }
            None
        }
        _ => None,
    }
}
