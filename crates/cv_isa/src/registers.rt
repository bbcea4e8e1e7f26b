ghost use Rattle.std.specs.Prelude.{◌≡◌, ℕ, ◌<◌, ◌==◌, ◌||◌, not, ◌&&◌, false};
ghost use Rattle.cv_isa.specs.Uses.{has};

/// A set of registers: register r, from 0 to 31, is in it exactly where bit r of `bits` is 1.
#[derive(Clone, Copy, Debug, PartialEq, Eq)]
pub struct RegSet {
    pub bits: u32,
}

impl RegSet {
    /// The set without registers.
    pub fn empty() -> RegSet
        ensures { (r : ℕ) → has result r ≡ false }
    {
        RegSet { bits: 0 }
    }

    /// The set with register `reg`, from 0 to 31, added.
    pub fn with(self, reg: u8) -> RegSet
        requires { reg < 32 }
        ensures { (r : ℕ) → has result r ≡ ((r == reg) || has self r) }
    {
        RegSet {
            bits: self.bits | (1 << reg),
        }
    }

    /// Whether register `reg`, from 0 to 31, is in the set.
    pub fn contains(&self, reg: u8) -> bool
        requires { reg < 32 }
        ensures { result ≡ has self.now reg }
    {
        (self.bits >> reg) & 1 == 1
    }
}
