ghost use Rattle.std.specs.Prelude.{◌≡◌, ◌==◌, ◌∷◌, ◌<◌, length, option_map, position, IfSome};
ghost use Rattle.std.specs.Option.{option_copied};
ghost use Rattle.cv_journal.specs.Reading.{behind, cut, pieces};
ghost use Rattle.cv_journal.specs.Steps.{pieces_left};

/// What stands before the first mark, and what behind it; `None` where the text has no mark.
#[tactic(auto, using(crate::proofs::Cutting::cut_found, crate::proofs::Cutting::cut_nowhere))]
pub fn cut(text: &[u8], mark: u8) -> Option<(&[u8], &[u8])>
    ensures { option_map (λ p. (p.0.now, p.1.now)) result ≡ cut mark text.now }
{
    match first_mark(text, mark) {
        Some(at) => Some((&text[..at], &text[at + 1..])),
        None => None,
    }
}

/// The place of the first mark.
fn first_mark(text: &[u8], mark: u8) -> Option<usize>
    ensures place { result ≡ position (λ byte. byte == mark) text.now }
    ensures within { IfSome result (λ at. at < length text.now) }
{
    text.iter().position(|byte| *byte == mark)
}

/// What stands behind a word at the beginning; `None` where the text begins otherwise.
#[tactic(auto, unfolding(crate::specs::Reading::behind))]
pub fn behind<'t>(text: &'t [u8], word: &[u8]) -> Option<&'t [u8]>
    ensures { option_copied result ≡ behind word.now text.now }
{
    text.strip_prefix(word)
}

/// The first of the pieces between marks, and the text of the others; `None` where it is the only
/// one.
#[tactic(auto, using(crate::proofs::Cutting::piece_first, crate::proofs::Cutting::piece_alone, crate::proofs::Cutting::rest_shorter))]
pub fn piece(text: &[u8], mark: u8) -> (&[u8], Option<&[u8]>)
    ensures parts { pieces mark text.now ≡ result.0.now ∷ pieces_left mark (option_copied result.1) }
    ensures shorter { IfSome result.1 (λ rest. length rest.now < length text.now) }
{
    match cut(text, mark) {
        Some((first, rest)) => (first, Some(rest)),
        None => (text, None),
    }
}
