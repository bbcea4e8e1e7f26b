ghost use Rattle.std.specs.Prelude.{◌≡◌, ◌+◌, length, map};

use cv_base::{NoMemory, PatchTable};
use cv_patch::{Adopter, Watcher};
use std::alloc::Global;
use std::marker::Model;
use std::sync::Arc;

/// The adopter over the versions of a history that stands still while a run goes: it answers the
/// newest one.
#[derive(Drop)]
pub(crate) struct Newest<'a> {
    newest: u32,
    versions: &'a [Arc<PatchTable, Global>],
}

impl<'a> Model for Newest<'a> {
    ghost use Rattle.std.specs.Prelude.{map};
    ghost use Rattle.cv_core.specs.NewestOf.{IsNewest, NewestOf};

    ghost Value = { NewestOf };

    ghost view = { λ n. record { newest = n.newest; tables = map (λ t. t.value) n.versions.now } };

    ghost invariant = { λ n. IsNewest (record { newest = n.newest; tables = map (λ t. t.value) n.versions.now }) };
}

impl<'a> Newest<'a> {
    /// The newest of these versions is the one with this number. It takes no memory.
    pub(crate) fn make(newest: u32, versions: &'a [Arc<PatchTable, Global>]) -> Newest<'a>
        requires { length versions.now ≡ newest + 1 }
        ensures { result ≡ record { newest = newest; tables = map (λ t. t.value) versions.now } }
    {
        Newest { newest, versions }
    }
}

impl<'a> Adopter for Newest<'a> {
    ghost use Rattle.std.specs.Prelude.{◌≡◌, ℕ};
    ghost use Rattle.std.specs.List.{AllByRecursion};
    ghost use Rattle.cv_core.specs.NewestOf.{NewestOf};

    ghost Origin = { NewestOf };

    ghost origin = { λ n. n };

    ghost Answers = { λ n versions. AllByRecursion (λ (v : ℕ). v ≡ n.newest) versions };

    ghost HasAnswered = { λ n version. version ≡ n.newest };

    ghost tables = { λ n. n.tables };

    fn enter(&mut self) -> u32 {
        self.newest
    }

    fn table(&mut self, _alloc: Global, version: u32) -> Result<Arc<PatchTable, Global>, NoMemory> {
        let table = Arc::try_clone(&self.versions[version as usize])?;
        Ok(table)
    }
}

/// Nobody is told of block entries.
#[derive(Drop)]
pub(crate) struct Unwatched;

impl Watcher for Unwatched {
    fn entry(&mut self, _turn: u32) {}
}
