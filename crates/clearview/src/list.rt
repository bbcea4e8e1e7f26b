ghost use Rattle.std.specs.Prelude.{◌≡◌, [], Some, IfErr, IfOk, IfSome, IsErrOf};
ghost use Rattle.cv_asm.specs.Listing.{listing_of};
ghost use Rattle.cv_edge.specs.Edge.{FetchesOnce, HasCause};
ghost use Rattle.clearview.specs.Gives.{Gives, IsEarly};
ghost use Rattle.clearview.specs.Verdict.{told_files, verdict_by};
ghost use Rattle.clearview.specs.Words.{Listing, an_image};

use crate::cause::Cause;
use crate::files::image_of;
use cv_asm::listing;
use cv_base::{Image, Items, NoMemory};
use cv_edge::Store;
use std::alloc::Global;

/// What `list` writes: a line for each word of the text of the image in a file, or the cause against
/// them (docs/FORMATS.md, "Assembly"). It fetches once.
#[tactic(auto, using(crate::proofs::Commands::list_ran, crate::proofs::Commands::list_against))]
pub fn list<S: Store>(alloc: Global, store: &mut S, image: &str) -> Result<Items<u8>, Cause>
    ensures gives { IfSome (told_files (S.told store.old)) (λ file. Gives (verdict_by (Some (Listing image.now)) file [] None) result) }
    ensures early { IfErr result (λ c. IsEarly an_image c) }
    ensures fault { HasCause (S.faults store.old) (S.faults store.new) (IsErrOf result Cause.StoreFault) }
    ensures fetches { FetchesOnce (S.told store.old) (S.told store.new) }
{
    let image = image_of(alloc, store, image)?;
    Ok(text_lines(alloc, &image)?)
}

/// A line for each word of an image's text.
fn text_lines(alloc: Global, image: &Image) -> Result<Items<u8>, NoMemory>
    ensures { IfOk result (λ lines. lines ≡ listing_of image.now.words) }
{
    let lines = listing(alloc, image.words.as_slice())?;
    Ok(Items::from_vec(lines))
}
