ghost use Rattle.std.specs.Prelude.{◌≡◌, ◌<◌, Some, drop, length, slice_get};
ghost use Rattle.cv_replay.specs.Left.{IsCursor, left_at};
ghost use Rattle.cv_replay.specs.Script.{AreCounted};

use cv_base::Adopted;

/// A place in the rows of an entry: the row of the next block entry, and how many block entries this
/// row has had. Rows are never written out.
#[derive(Clone, Copy, Debug)]
pub(crate) struct Cursor {
    pub(crate) row: usize,
    pub(crate) used: u32,
}

impl Cursor {
    /// The version of the next block entry.
    pub(crate) fn version(self, rows: &[Adopted]) -> u32
        requires left { 0 < length (left_at rows.now self) }
        requires cursor { IsCursor rows.now self }
        ensures { slice_get (left_at rows.now self) 0 ≡ Some result }
    {
        rows[self.row].version
    }

    /// The place behind that block entry.
    pub(crate) fn next(self, rows: &[Adopted]) -> Cursor
        requires left { 0 < length (left_at rows.now self) }
        requires cursor { IsCursor rows.now self }
        requires counted { AreCounted rows.now }
        ensures left { left_at rows.now result ≡ drop 1 (left_at rows.now self) }
        ensures cursor { IsCursor rows.now result }
    {
        let entries = rows[self.row].entries;
        if self.used + 1 == entries {
            return Cursor {
                row: self.row + 1,
                used: 0,
            };
        }
        Cursor {
            row: self.row,
            used: self.used + 1,
        }
    }
}
