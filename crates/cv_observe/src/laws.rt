ghost use Rattle.std.specs.Prelude.{◌≡◌, ℕ, ◌++◌, ◌<◌, ◌&&◌, List, fold, length};
ghost use Rattle.std.specs.BTreeSet.{insert_key};
ghost use Rattle.std.specs.List.Sorted.{IsPermutation};
ghost use Rattle.std.specs.Ordering.{nat_cmp};
ghost use Rattle.cv_base.specs.declared.entries.Observation.{Observation};
ghost use Rattle.cv_base.specs.Picture.{Picture};
ghost use Rattle.cv_runs.specs.Learned.{distinct, is_ordered, learned};
ghost use Rattle.cv_observe.specs.Kept.{least_of, lesser_of};
ghost use Rattle.cv_observe.specs.StandsFor.{StandsFor, SummaryOf};
ghost use Rattle.cv_observe.specs.Statements.{LearnedAreAtPoints, LearnedAreInvariants};
ghost use Rattle.cv_observe.specs.Words.{HaveWords};

/// The distinct numbers of two lists are those of the first with those of the second added, so a
/// summary may keep distinct numbers alone.
pub fn distinct_numbers_of_two_lists()
    ensures { (xs ys : List ℕ) → distinct (xs ++ ys) ≡ fold (insert_key nat_cmp) (distinct xs) (distinct ys) }
{}

/// The same is learned of the same observations in any order.
pub fn learned_in_any_order()
    ensures { (image : Picture) (xs ys : List Observation) → HaveWords xs → IsPermutation xs ys → learned image xs ≡ learned image ys }
{}

/// A summary stands for its observations in any order.
pub fn summary_in_any_order()
    ensures { (s : SummaryOf) (xs ys : List Observation) → IsPermutation xs ys → StandsFor s xs → StandsFor s ys }
{}

/// More than n distinct numbers stay more than n.
pub fn more_numbers_stay_more()
    ensures { (n : ℕ) (xs ys : List ℕ) → n < length (distinct xs) → n < length (distinct (xs ++ ys)) }
{}

/// The least of two lists is the lesser of the leasts.
pub fn least_of_two_lists()
    ensures { (xs ys : List ℕ) → least_of (xs ++ ys) ≡ lesser_of (least_of xs) (least_of ys) }
{}

/// A pair of registers that was out of order in one of two lists is out of order in both together.
pub fn pairs_of_two_lists()
    ensures { (xs ys : List Observation) (a b : ℕ) → is_ordered (xs ++ ys) a b ≡ (is_ordered xs a b && is_ordered ys a b) }
{}

/// What is learned are invariants.
pub fn learned_are_invariants()
    ensures { LearnedAreInvariants }
{}

/// They are at points, where what was seen was seen at points.
pub fn learned_are_at_points()
    ensures { LearnedAreAtPoints }
{}
