ghost use Rattle.std.specs.Prelude.{◌≡◌, ◌+◌, length, drop, IfOk, IfSome, IfNone, [], ◌∷◌};
ghost use Rattle.std.specs.Option.{option_copied};
ghost use Rattle.cv_keep.specs.Pieces.{next, pieces, end_of};

use cv_base::{Items, NoMemory};
use std::alloc::Global;

/// The longest piece, in bytes.
pub(crate) const LONGEST: usize = 1 << 28;

/// The first piece of an image.
#[tactic(auto, using(crate::proofs::Pieces::next_is, crate::proofs::Pieces::next_tiny, crate::proofs::Pieces::next_short, crate::proofs::Pieces::next_closed, crate::proofs::Pieces::next_long))]
fn first(image: &[u8]) -> Option<&[u8]>
    ensures { option_copied result ≡ next image.now }
{
    if image.len() < 5 {
        return None;
    }
    if image[0] == 0 {
        return None;
    }
    let size = u32::from_le_bytes([image[1], image[2], image[3], image[4]]) as usize;
    if size > LONGEST {
        return None;
    }
    if size > image.len() - 5 {
        return None;
    }
    Some(&image[5..5 + size])
}

/// The first piece of an image, and what is behind it.
#[tactic(auto, using(crate::proofs::Pieces::pieces_some, crate::proofs::Pieces::pieces_none))]
fn split_first(image: &[u8]) -> Option<(&[u8], &[u8])>
    ensures some { IfSome result (λ r. pieces image.now ≡ r.0.now ∷ pieces r.1.now) }
    ensures behind { IfSome result (λ r. length r.0.now + 5 + length r.1.now ≡ length image.now) }
    ensures none { IfNone result (pieces image.now ≡ []) }
{
    let piece = first(image)?;
    Some((piece, &image[5 + piece.len()..]))
}

/// The pieces of an image, and its end place.
#[tactic(auto, using(crate::proofs::Pieces::found_more, crate::proofs::Pieces::end_of_push))]
pub(crate) fn pieces_in(alloc: Global, image: &[u8]) -> Result<(Vec<Items<u8>>, usize), NoMemory>
    ensures pieces { IfOk result (λ r. r.0.items ≡ pieces image.now) }
    ensures place { IfOk result (λ r. r.1 ≡ end_of (pieces image.now)) }
{
    let mut found = Vec::new(alloc);
    let mut rest = image;
    while let Some((piece, behind)) = split_first(rest) {
        found.push(Items::from_slice(alloc, piece)?)?;
        rest = behind;
    }
    Ok((found, image.len() - rest.len()))
}
