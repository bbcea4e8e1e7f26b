//! Laws on the versions of a history and the floors of its runs.
ghost use Rattle.cv_laws.specs.VersionStatements.{FloorIsBelow, FloorStays, NewestIsLast, SomeVersion, TablesStay};

/// A history has a version.
pub fn some_version()
    ensures { SomeVersion }
{}

/// The newest table is that of the last version.
pub fn newest_is_last()
    ensures { NewestIsLast }
{}

/// A version keeps its table with one more entry.
pub fn tables_stay()
    ensures { TablesStay }
{}

/// A floor is at most the newest version.
pub fn floor_is_below()
    ensures { FloorIsBelow }
{}

/// A floor stays with an entry that does not pass its test.
pub fn floor_stays()
    ensures { FloorStays }
{}
