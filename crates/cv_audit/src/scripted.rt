ghost use Rattle.std.specs.Prelude.{◌≡◌, ℕ, ◌≤◌, ◌<◌, ◌∷◌, ◌++◌, [], List, drop, length, map, slice_index_or};
ghost use Rattle.std.specs.List.{AllByRecursion};
ghost use Rattle.cv_audit.specs.Rising.{RiseFrom};
ghost use Rattle.cv_audit.specs.Scripted.{AreCounted};
ghost use Rattle.cv_base.specs.declared.entries.Adopted.{Adopted};
ghost use Rattle.cv_patch.specs.Adopting.{IsGrown};

use cv_base::{Adopted, NoMemory, PatchTable};
use cv_patch::{Adopter, Watcher};
use std::alloc::Global;
use std::marker::Model;
use std::sync::Arc;

/// The adopter over the versions of a history and the rows that an entry says: each row's version is
/// answered as often as the row counts, and the last one again and again. Rows are never written out.
#[derive(Drop)]
pub(crate) struct Scripted<'a> {
    versions: &'a [Arc<PatchTable, Global>],
    rows: &'a [Adopted],
    /// The rows that are left.
    rest: &'a [Adopted],
    /// How many answers the first of these has given.
    used: u32,
    /// The last answer.
    last: u32,
}

impl<'a> Model for Scripted<'a> {
    ghost use Rattle.std.specs.Prelude.{map};
    ghost use Rattle.cv_audit.specs.Scripted.{IsScripted, Scripted};

    ghost Value = { Scripted };

    ghost view = { λ s. record { script = record { tables = map (λ t. t.value) s.versions.now; rows = s.rows.now }; rest = s.rest.now; used = s.used; last = s.last } };

    ghost invariant = { λ s. IsScripted (record { script = record { tables = map (λ t. t.value) s.versions.now; rows = s.rows.now }; rest = s.rest.now; used = s.used; last = s.last }) };
}

impl<'a> Scripted<'a> {
    /// Nothing was answered yet. Each row counts something, the versions never fall, and each is
    /// there. It takes no memory.
    pub(crate) fn make(versions: &'a [Arc<PatchTable, Global>], rows: &'a [Adopted]) -> Scripted<'a>
        requires some { 0 < length versions.now }
        requires counted { AreCounted rows.now }
        requires rises { RiseFrom 0 rows.now }
        requires places { AllByRecursion (λ (a : Adopted). a.version < length versions.now) rows.now }
        ensures { result ≡ record { script = record { tables = map (λ t. t.value) versions.now; rows = rows.now }; rest = rows.now; used = 0; last = 0 } }
    {
        Scripted {
            versions,
            rows,
            rest: rows,
            used: 0,
            last: 0,
        }
    }
}

impl<'a> Adopter for Scripted<'a> {
    ghost use Rattle.std.specs.Prelude.{ℕ, List};
    ghost use Rattle.cv_audit.specs.Scripted.{HasFollowed, MayBeAnswered, ScriptOf};

    ghost Origin = { ScriptOf };

    ghost origin = { λ s. s.script };

    ghost Answers = { HasFollowed };

    ghost HasAnswered = { MayBeAnswered };

    ghost tables = { λ s. s.script.tables };

    fn enter(&mut self) -> u32 {
        if self.rest.is_empty() {
            return self.last;
        }
        let row = first(self.rest);
        self.last = row.version;
        self.used += 1;
        if self.used == row.entries {
            self.rest = behind_first(self.rest);
            self.used = 0;
        }
        row.version
    }

    fn table(&mut self, _alloc: Global, version: u32) -> Result<Arc<PatchTable, Global>, NoMemory> {
        let table = Arc::try_clone(&self.versions[version as usize])?;
        Ok(table)
    }
}

/// The first of some rows.
fn first(rows: &[Adopted]) -> Adopted
    requires { 0 < length rows.now }
    ensures { result ≡ slice_index_or rows.now 0 (record { version = 0; entries = 0 }) }
{
    rows[0]
}

/// The rows behind the first.
fn behind_first(rows: &[Adopted]) -> &[Adopted]
    requires { 0 < length rows.now }
    ensures { result.now ≡ drop 1 rows.now }
{
    &rows[1..]
}

/// Nobody is told of block entries.
#[derive(Drop)]
pub(crate) struct Unwatched;

impl Watcher for Unwatched {
    fn entry(&mut self, _turn: u32) {}
}
