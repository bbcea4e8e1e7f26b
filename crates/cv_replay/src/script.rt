ghost use Rattle.std.specs.Prelude.{◌≡◌, ◌<◌, IfOk, length, map, slice_index_or, []};
ghost use Rattle.cv_histories.specs.Honest.{IsHonest};
ghost use Rattle.cv_histories.specs.Legal.{NeverFalls};
ghost use Rattle.cv_replay.specs.Script.{IsScript};

use crate::laws::honest_is_flown;
use cv_base::{Adopted, Entry, NoMemory, PatchTable, Plan};
use std::alloc::Global;
use std::marker::Model;
use std::sync::Arc;

/// What a replay goes by: an entry, whose rows say what the block entries of its run adopt, and the
/// tables of the versions.
#[derive(Drop)]
pub(crate) struct Script {
    entry: Entry,
    tables: Vec<Arc<PatchTable, Global>>,
}

impl Model for Script {
    ghost use Rattle.std.specs.Prelude.{map};
    ghost use Rattle.cv_replay.specs.Script.{ScriptOf};

    ghost Value = { ScriptOf };

    ghost view = { λ s. record { entry = s.entry; versions = map (λ t. t.value) s.tables.items } };
}

impl Script {
    /// That of an honest entry, under the tables of the versions that there are.
    pub(crate) fn make(
        alloc: Global,
        plan: &Plan,
        entry: &Entry,
        tables: Vec<Arc<PatchTable, Global>>,
    ) -> Result<Script, NoMemory>
        requires honest { IsHonest plan.now (map (λ t. t.value) tables.items) entry.now }
        requires rises { NeverFalls entry.now.adopted }
        ensures goes_by { IfOk result (λ s. IsScript plan.now s) }
        ensures same { IfOk result (λ s. s ≡ record { entry = entry.now; versions = map (λ t. t.value) tables.items }) }
    {
        honest_is_flown();
        let _budget = plan.budget;
        let entry = entry.copied(alloc)?;
        Ok(Script { entry, tables })
    }

    /// The number of the run.
    pub(crate) fn run(&self) -> u32
        ensures { result ≡ self.now.entry.run }
    {
        self.entry.run
    }

    /// How many turns it has.
    pub(crate) fn turns(&self) -> u32
        ensures { result ≡ self.now.entry.turns }
    {
        self.entry.turns
    }

    /// What its block entries adopt.
    pub(crate) fn rows(&self) -> &[Adopted]
        ensures { result.now ≡ self.now.entry.adopted }
    {
        self.entry.adopted.as_slice()
    }

    /// The table of a version.
    pub(crate) fn table(&self, version: u32) -> Result<Arc<PatchTable, Global>, NoMemory>
        requires { version < length self.now.versions }
        ensures { IfOk result (λ t. t.value ≡ slice_index_or self.now.versions version []) }
    {
        let table = Arc::try_clone(&self.tables[version as usize])?;
        Ok(table)
    }
}
