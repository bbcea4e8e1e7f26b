ghost use Rattle.std.specs.Prelude.{◌≡◌, ◌<◌, ◌≤◌, ◌+◌, ◌*◌, length, option_map, IfOk};
ghost use Rattle.cv_journal.specs.Reading.{both, byte_pairs, bytes_in, each, hex_digit, list_in, pieces};

use crate::numbers::hex_digit;
use crate::pieces::piece;
use crate::rows::Row;
use cv_base::{Items, NoMemory};
use std::alloc::Global;

/// A list of rows joined by commas, or `-` for an empty one; `None` where the text is no such list.
/// `shortest` is the number of bytes of the shortest row with its comma: no more room is taken than
/// for so many rows as the text may have.
pub fn list<R: Row + Drop>(
    alloc: Global,
    text: &[u8],
    shortest: usize,
) -> Result<Option<Items<R>>, NoMemory>
    requires { 0 < shortest }
    ensures { IfOk result (λ o. o ≡ list_in R.reading text.now) }
{
    if text == b"-".as_slice() {
        return Ok(Some(Items::make(alloc)));
    }
    let commas = text.iter().filter(|byte| **byte == b',').count();
    let most = text.len() / shortest;
    rows(alloc, text, 1 + commas.min(most))
}

/// The rows between commas, with room for so many.
#[tactic(auto, using(crate::proofs::Loops::row_more, crate::proofs::Loops::row_none, crate::proofs::Loops::nothing_before, crate::proofs::Loops::nothing_behind))]
fn rows<R: Row + Drop>(
    alloc: Global,
    text: &[u8],
    room: usize,
) -> Result<Option<Items<R>>, NoMemory>
    ensures { IfOk result (λ o. o ≡ each R.reading (pieces 44 text.now)) }
{
    let mut rows = Vec::with_capacity(alloc, room)?;
    let mut left = Some(text);
    while let Some(others) = left {
        let (item, rest) = piece(others, b',');
        let Some(row) = R::read(item) else {
            return Ok(None);
        };
        rows.push(row)?;
        left = rest;
    }
    Ok(Some(Items::from_vec(rows)))
}

/// Bytes as lower-case hexadecimal digits, or `-` for none; `None` where the text is neither.
#[tactic(auto, unfolding(crate::specs::Reading::bytes_in))]
pub fn bytes(alloc: Global, text: &[u8]) -> Result<Option<Items<u8>>, NoMemory>
    ensures { IfOk result (λ o. o ≡ bytes_in text.now) }
{
    if text == b"-".as_slice() {
        return Ok(Some(Items::make(alloc)));
    }
    if text.is_empty() {
        return Ok(None);
    }
    byte_pairs(alloc, text)
}

/// A byte for each two digits.
#[tactic(auto, using(crate::proofs::Loops::byte_more, crate::proofs::Loops::byte_none, crate::proofs::Loops::nothing_before, crate::proofs::Loops::nothing_behind))]
fn byte_pairs(alloc: Global, text: &[u8]) -> Result<Option<Items<u8>>, NoMemory>
    ensures { IfOk result (λ o. o ≡ byte_pairs text.now) }
{
    let mut bytes = Vec::with_capacity(alloc, text.len() / 2)?;
    let mut left = text;
    while let [high, low, rest @ ..] = left {
        let Some(byte) = byte(*high, *low) else {
            return Ok(None);
        };
        bytes.push(byte)?;
        left = rest;
    }
    if left.is_empty() {
        Ok(Some(Items::from_vec(bytes)))
    } else {
        Ok(None)
    }
}

/// The byte that two digits write.
fn byte(high: u8, low: u8) -> Option<u8>
    ensures { result ≡ option_map (λ p. 16 * p.0 + p.1) (both (hex_digit 97 high) (hex_digit 97 low)) }
{
    let high = hex_digit(b'a', high)?;
    let low = hex_digit(b'a', low)?;
    Some(16 * high + low)
}
