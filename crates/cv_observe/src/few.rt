ghost use Rattle.std.specs.Prelude.{◌≡◌, ◌≤◌, ◌++◌, [], ◌∷◌, ℕ, List, length, IfSome, IsNone, true, false};
ghost use Rattle.std.specs.BTreeSet.{insert_key};
ghost use Rattle.std.specs.List.{insert};
ghost use Rattle.std.specs.Ordering.{nat_cmp};
ghost use Rattle.cv_observe.specs.Kept.{IsFew};

use arrayvec::ArrayVec;

/// Up to `N` distinct numbers, ascending, and a mark that there were more.
#[derive(Drop)]
pub(crate) struct Few<const N: usize> {
    pub(crate) numbers: ArrayVec<u32, N>,
    pub(crate) more: bool,
}

impl<const N: usize> Few<N> {
    /// Of no numbers.
    pub(crate) fn none() -> Few<N>
        ensures { IsFew N result.numbers.items result.more [] }
    {
        Few {
            numbers: ArrayVec::new(),
            more: false,
        }
    }

    /// Adds a number.
    #[tactic(auto, using(crate::proofs::Adding::few_over, crate::proofs::Adding::few_there, crate::proofs::Adding::few_more, crate::proofs::Adding::few_full))]
    pub(crate) fn add(&mut self, number: u32)
        ensures { (numbers : List ℕ) → IsFew N self.old.numbers.items self.old.more numbers → IsFew N self.new.numbers.items self.new.more (numbers ++ number ∷ []) }
    {
        if self.more {
            return;
        }
        let Some(at) = place_for(self.numbers.as_slice(), number) else {
            return;
        };
        if self.numbers.is_full() {
            self.more = true;
        } else {
            self.numbers.insert(at, number);
        }
    }

    /// Whether nothing changes where a number is added: it is there, or there were more.
    #[inline]
    #[tactic(auto, using(crate::proofs::Adding::few_over, crate::proofs::Adding::few_there))]
    pub(crate) fn has_seen(&self, number: u32) -> bool
        ensures { result ≡ true → (numbers : List ℕ) → IsFew N self.now.numbers.items self.now.more numbers → IsFew N self.now.numbers.items self.now.more (numbers ++ number ∷ []) }
    {
        self.more || is_there(self.numbers.as_slice(), number)
    }

    /// Adds the numbers of another few.
    #[tactic(auto, using(crate::proofs::Adding::join_begun, crate::proofs::Adding::join_more, crate::proofs::Adding::join_done, crate::proofs::Adding::join_over))]
    pub(crate) fn join(&mut self, other: &Few<N>)
        ensures { (xs ys : List ℕ) → IsFew N self.old.numbers.items self.old.more xs → IsFew N other.now.numbers.items other.now.more ys → IsFew N self.new.numbers.items self.new.more (xs ++ ys) }
    {
        for number in other.numbers.as_slice() {
            self.add(*number);
        }
        if other.more {
            self.more = true;
        }
    }
}

/// Whether a number is among numbers that ascend.
#[inline]
fn is_there(numbers: &[u32], number: u32) -> bool
    ensures { result ≡ true → insert_key nat_cmp numbers.now number ≡ numbers.now }
{
    for (at, n) in numbers.iter().enumerate() {
        if *n == number {
            return true;
        }
        if number < *n {
            return false;
        }
    }
    false
}

/// Where a number goes into numbers that ascend; `None` where it is there.
fn place_for(numbers: &[u32], number: u32) -> Option<usize>
    ensures there { IsNone result → insert_key nat_cmp numbers.now number ≡ numbers.now }
    ensures within { IfSome result (λ at. at ≤ length numbers.now) }
    ensures place { IfSome result (λ at. insert_key nat_cmp numbers.now number ≡ insert numbers.now at number) }
{
    for (at, n) in numbers.iter().enumerate() {
        if *n == number {
            return None;
        }
        if number < *n {
            return Some(at);
        }
    }
    Some(numbers.len())
}
