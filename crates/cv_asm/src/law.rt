ghost use Rattle.std.specs.Prelude.{◌≡◌, ℕ, ◌<◌, ◌≤◌, ◌^◌, List, length, Ok};
ghost use Rattle.std.specs.List.{AllByRecursion};
ghost use Rattle.cv_asm.specs.Listing.{listing_of};
ghost use Rattle.cv_asm.specs.Source.{source_of};

use cv_isa::words_of_instructions;

/// The law of assembler and listing: the source reads the listing of words as those words, for every
/// list of at most 65,536 words of 32 bits.
pub fn listings_are_read_back()
    ensures { (words : List ℕ) → AllByRecursion (λ w. w < 2 ^ 32) words → length words ≤ 65536 → source_of (listing_of words) ≡ Ok words }
{
    words_of_instructions();
}
