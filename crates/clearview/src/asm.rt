ghost use Rattle.std.specs.Prelude.{◌≡◌, [], Some, IfErr, IfSome, IsErrOf};
ghost use Rattle.cv_edge.specs.Edge.{FetchesOnce, HasCause};
ghost use Rattle.clearview.specs.Gives.{Gives, IsEarly};
ghost use Rattle.clearview.specs.Verdict.{told_files, verdict_by};
ghost use Rattle.clearview.specs.Words.{Asm, a_source};

use crate::cause::Cause;
use crate::files::source_words;
use cv_base::Items;
use cv_edge::Store;
use cv_gen::spelled;
use std::alloc::Global;

/// What `asm` writes: the bytes of the flat image that the source in a file makes, or the cause
/// against them (docs/FORMATS.md, "Assembly"). It fetches once.
#[tactic(auto, using(crate::proofs::Commands::asm_ran, crate::proofs::Commands::asm_against))]
pub fn asm<S: Store>(alloc: Global, store: &mut S, source: &str) -> Result<Items<u8>, Cause>
    ensures gives { IfSome (told_files (S.told store.old)) (λ file. Gives (verdict_by (Some (Asm source.now)) file [] None) result) }
    ensures early { IfErr result (λ c. IsEarly a_source c) }
    ensures fault { HasCause (S.faults store.old) (S.faults store.new) (IsErrOf result Cause.StoreFault) }
    ensures fetches { FetchesOnce (S.told store.old) (S.told store.new) }
{
    let words = source_words(alloc, store, source)?;
    Ok(spelled(alloc, words.as_slice())?)
}
