ghost use Rattle.std.specs.Prelude.{◌≡◌, ◌↔◌, ℕ, Bool, true, ◌+◌, ◌<◌};
ghost use Rattle.cv_base.specs.Regions.{each_address};

/// What `each_address` says: each of the `count` addresses from `a` on passes the test.
pub fn each_address_tests_each()
    ensures { (test : ℕ → Bool) (a count : ℕ)
        → (each_address test a count ≡ true)
        ↔ ((k : ℕ) → k < count → test (a + k) ≡ true) }
{}
