ghost use Rattle.cv_audit.specs.Statements.{EntriesAreContained, OneHonestEntry, OneMoreEntry, TestsAreFollowing};

use cv_laws::{patched_turn_first, rows_are_joined, under_tables};

/// An entry may follow a history exactly where it passes all tests; else it breaks no more than one
/// clause first.
pub fn tests_are_following()
    ensures { TestsAreFollowing }
{}

/// Two honest entries of one run by one worker, whose versions agree as far as both go, are one.
pub fn one_honest_entry()
    ensures { OneHonestEntry }
{
    patched_turn_first();
    rows_are_joined();
    under_tables();
}

/// The entries up to one are it and those before it, the newest first.
pub fn one_more_entry()
    ensures { OneMoreEntry }
{}

/// The entry at a place of a history is one of its entries.
pub fn entries_are_contained()
    ensures { EntriesAreContained }
{}
