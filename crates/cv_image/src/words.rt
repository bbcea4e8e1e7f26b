ghost use Rattle.std.specs.Prelude.{◌≡◌, IfOk};
ghost use Rattle.cv_base.specs.WellFormed.{words_of};

use cv_base::{Items, NoMemory};
use std::alloc::Global;

/// The words that bytes spell, each in little-endian order. Up to three bytes at the end that are
/// no whole word are left out.
pub fn words_in(alloc: Global, bytes: &[u8]) -> Result<Items<u32>, NoMemory>
    ensures { IfOk result (λ words. words ≡ words_of bytes.now) }
{
    let mut words = Vec::with_capacity(alloc, bytes.len() / 4)?;
    let mut rest = bytes;
    while let [a, b, c, d, later @ ..] = rest {
        words.push(u32::from_le_bytes([*a, *b, *c, *d]))?;
        rest = later;
    }
    Ok(Items::from_vec(words))
}
