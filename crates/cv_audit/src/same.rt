ghost use Rattle.std.specs.Prelude.{◌≡◌, ◌↔◌, IsTrue};

use cv_base::{Adopted, Entry, FiredRow, TallyRow};

/// Whether two entries are one.
pub(crate) fn same(a: &Entry, b: &Entry) -> bool
    ensures { IsTrue result ↔ (a.now ≡ b.now) }
{
    if a.run != b.run || a.worker != b.worker || a.mode != b.mode || a.turns != b.turns {
        return false;
    }
    if a.end != b.end || !same_adopted(a.adopted.as_slice(), b.adopted.as_slice()) {
        return false;
    }
    if a.sites.as_slice() != b.sites.as_slice() || a.output.as_slice() != b.output.as_slice() {
        return false;
    }
    same_tally(a.tally.as_slice(), b.tally.as_slice())
        && same_fired(a.fired.as_slice(), b.fired.as_slice())
}

/// Whether two lists of adopted versions are one.
fn same_adopted(a: &[Adopted], b: &[Adopted]) -> bool
    ensures { IsTrue result ↔ (a.now ≡ b.now) }
{
    a == b
}

/// Whether two lists of rows of checks are one.
fn same_tally(a: &[TallyRow], b: &[TallyRow]) -> bool
    ensures { IsTrue result ↔ (a.now ≡ b.now) }
{
    a == b
}

/// Whether two lists of rows of firings are one.
fn same_fired(a: &[FiredRow], b: &[FiredRow]) -> bool
    ensures { IsTrue result ↔ (a.now ≡ b.now) }
{
    a == b
}
