ghost use Rattle.std.specs.Prelude.{◌↔◌, IsTrue};
ghost use Rattle.cv_audit.specs.Clauses.{AreAtLeast, AreAtMost};
ghost use Rattle.cv_histories.specs.Honest.{IsJoined};
ghost use Rattle.cv_histories.specs.Legal.{NeverFalls};

use cv_base::Adopted;

/// Whether no version is above this one.
pub(crate) fn are_at_most(top: u32, rows: &[Adopted]) -> bool
    ensures { IsTrue result ↔ AreAtMost top rows.now }
{
    for row in rows {
        if top < row.version {
            return false;
        }
    }
    true
}

/// Whether no version is below this one.
pub(crate) fn are_at_least(floor: u32, rows: &[Adopted]) -> bool
    ensures { IsTrue result ↔ AreAtLeast floor rows.now }
{
    for row in rows {
        if row.version < floor {
            return false;
        }
    }
    true
}

/// Whether no version is below the one before it.
pub(crate) fn never_fall(rows: &[Adopted]) -> bool
    ensures { IsTrue result ↔ NeverFalls rows.now }
{
    let mut last = 0;
    for row in rows {
        if row.version < last {
            return false;
        }
        last = row.version;
    }
    true
}

/// Whether neighbours have different versions, and each row counts something.
pub(crate) fn are_joined(rows: &[Adopted]) -> bool
    ensures { IsTrue result ↔ IsJoined rows.now }
{
    let mut last = None;
    for row in rows {
        if row.entries == 0 || last == Some(row.version) {
            return false;
        }
        last = Some(row.version);
    }
    true
}
