ghost use Rattle.std.specs.Prelude.{◌≡◌};
ghost use Rattle.cv_edge.specs.Edge.{counted};
ghost use Rattle.cv_edge.specs.Memory.{fails_next};

/// A count one higher; it stops at 2^64 - 1.
pub(crate) fn one_more(count: u64) -> u64
    ensures { result ≡ counted count }
{
    count.saturating_add(1)
}

/// Whether the next call, after so many calls, is one of those that are to fail. Calls have
/// numbers from 1.
pub(crate) fn fails_next(failing: &[u32], calls: u64) -> bool
    ensures { result ≡ fails_next failing.now calls }
{
    let call = one_more(calls);
    failing.iter().any(|number| u64::from(*number) == call)
}
