ghost use Rattle.std.specs.Prelude.{◌≡◌, ◌++◌, ◌∷◌, [], ◌<◌, ℕ, List, Bool, true, false};
ghost use Rattle.cv_base.specs.declared.entries.Observation.{Observation};
ghost use Rattle.cv_isa.specs.Uses.{has};
ghost use Rattle.cv_observe.specs.AtPoint.{IsRegister, Sees};

use crate::few::Few;
use crate::pairs::{are_in_order, at_least, at_most, common, keep_least, least_of_both};
use cv_base::Regs;
use cv_isa::RegSet;

/// What was seen of a register that the instruction at a point reads.
#[derive(Drop)]
pub(crate) struct Register {
    pub(crate) number: u8,
    pub(crate) values: Few<4>,
    /// The least value, as a two's complement number; `None` where nothing was seen.
    pub(crate) least: Option<u32>,
    /// The registers of the point's window that this one was never above.
    pub(crate) above: RegSet,
    /// The registers of the point's window that this one was never below.
    pub(crate) below: RegSet,
}

impl Register {
    /// Of a register of which nothing was seen.
    pub(crate) fn unseen(number: u8, window: RegSet) -> Register
        ensures number { result.number ≡ number }
        ensures kept { IsRegister (has window) result [] }
    {
        Register {
            number,
            values: Few::none(),
            least: None,
            above: window,
            below: window,
        }
    }

    /// Adds what the registers hold.
    pub(crate) fn see(&mut self, regs: &Regs)
        requires { self.old.number < 32 }
        ensures number { self.new.number ≡ self.old.number }
        ensures kept { (window : ℕ → Bool) (here : List Observation) (o : Observation) → o.regs ≡ regs.now → IsRegister window self.old here → IsRegister window self.new (here ++ o ∷ []) }
    {
        let value = regs.get(self.number);
        self.values.add(value);
        keep_least(&mut self.least, value);
        self.above = at_least(self.above, value, regs);
        self.below = at_most(self.below, value, regs);
    }

    /// Adds what the registers hold, where that changes at most the least value. Else it answers
    /// false, and nothing is changed.
    #[inline]
    pub(crate) fn see_quick(&mut self, regs: &Regs) -> bool
        requires { self.old.number < 32 }
        ensures seen { result ≡ true → Sees self.old self.new regs.now }
        ensures not { result ≡ false → self.new ≡ self.old }
    {
        let value = regs.get(self.number);
        if !self.values.has_seen(value) {
            return false;
        }
        if !are_in_order(self.above, self.below, self.number, value, regs) {
            return false;
        }
        keep_least(&mut self.least, value);
        true
    }

    /// Adds what was seen by another one.
    pub(crate) fn join(&mut self, other: &Register)
        requires { other.now.number ≡ self.old.number }
        ensures number { self.new.number ≡ self.old.number }
        ensures kept { (window : ℕ → Bool) (xs ys : List Observation) → IsRegister window self.old xs → IsRegister window other.now ys → IsRegister window self.new (xs ++ ys) }
    {
        self.values.join(&other.values);
        self.least = least_of_both(self.least, other.least);
        self.above = common(self.above, other.above);
        self.below = common(self.below, other.below);
    }
}
