ghost use Rattle.std.specs.Prelude.{◌≡◌, ◌≤◌, length, IfOk};
ghost use Rattle.cv_isa.specs.DecodeTable.{meaning_of};
ghost use Rattle.cv_asm.specs.Listing.{is_other_fence, listing_of, shown_as, shown_text, word_text};

use crate::display::Listed;
use crate::shapes::{Shape, operand_shape};
use cv_base::NoMemory;
use cv_isa::{Inst, decode};
use std::alloc::Global;
use std::fmt::Write;

/// Whether a word is a FENCE other than the one that its name stands for.
fn is_other_fence(word: u32, inst: &Inst) -> bool
    ensures { result ≡ is_other_fence word inst.now }
{
    matches!(operand_shape(inst.op), Shape::Fence) && word != 0x0ff0_000f
}

/// The instruction that a word is shown as.
fn shown_as(word: u32) -> Option<Inst>
    ensures { result ≡ shown_as word (meaning_of word) }
{
    match decode(word) {
        None => None,
        Some(inst) => {
            if is_other_fence(word, &inst) {
                None
            } else {
                Some(inst)
            }
        }
    }
}

/// The line of a word.
#[tactic(auto, unfolding(crate::specs::Listing::word_text))]
fn listed(word: u32) -> Listed
    ensures { shown_text result.0 result.1 ≡ word_text word }
{
    Listed(word, shown_as(word))
}

/// The listing of at most 65,536 words: a line for each, which `assemble` reads as that word
/// (docs/FORMATS.md, "Assembly").
pub fn listing(alloc: Global, words: &[u32]) -> Result<Vec<u8>, NoMemory>
    requires { length words.now ≤ 65536 }
    ensures { IfOk result (λ v. v.items ≡ listing_of words.now) }
{
    let mut text = String::new(alloc);
    for word in words {
        let line = listed(*word);
        write!(text, "{line}\n")?;
    }
    Ok(text.into_bytes())
}
