ghost use Rattle.std.specs.Prelude.{◌≡◌, ℕ, ◌<◌, ◌^◌, true, false, Some, None};
ghost use Rattle.std.specs.List.{All, AllByRecursion, Contains};
ghost use Rattle.cv_isa.specs.DecodeTable.{Row, rows, fits, meaning_of};
ghost use Rattle.cv_isa.specs.Examples.{Example, examples, others};

/// A law of the decode table: a word fits one row at most, so the order of the rows says nothing.
pub fn one_row_at_most()
    ensures { (word : ℕ) → word < 2 ^ 32 → (r s : Row) → Contains rows r → Contains rows s
        → fits word r ≡ true → fits word s ≡ true → r ≡ s }
{}

/// A law of the decode table: a word has no meaning exactly where it fits no row.
pub fn no_meaning_without_row()
    ensures no_row { (word : ℕ) → meaning_of word ≡ None → All (λ r. fits word r ≡ false) rows }
    ensures no_meaning { (word : ℕ) → All (λ r. fits word r ≡ false) rows → meaning_of word ≡ None }
{}

/// The meanings of the worked examples: words as an assembler makes them, one at least for each
/// operation, and words that RV32I lacks.
#[tactic(auto, unfolding(crate::specs::DecodeTable::row_of))]
pub fn worked_examples()
    ensures instructions { AllByRecursion (λ e. meaning_of e.word ≡ Some e.meaning) examples }
    ensures no_instructions { AllByRecursion (λ word. meaning_of word ≡ None) others }
{}
