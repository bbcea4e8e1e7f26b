ghost use Rattle.std.specs.Prelude.{◌≡◌, ℕ, ◌≤◌, List, [], ◌∷◌, ◌++◌, map};
ghost use Rattle.std.specs.List.{AllByRecursion};
ghost use Rattle.cv_patch.specs.Adopting.{IsGrown, IsScript, MayHaveAnswered, next_of, rest_of};

use crate::Adopter;
use cv_base::{NoMemory, PatchTable};
use std::alloc::Global;
use std::marker::Model;
use std::sync::Arc;

/// The adopter over given tables and a script of their places. It knows all tables from the start.
#[derive(Drop)]
pub struct Listed {
    tables: Vec<Arc<PatchTable, Global>>,
    script: Vec<u32>,
    /// The place in the script of the next answer.
    at: usize,
}

impl Model for Listed {
    ghost use Rattle.std.specs.Prelude.{drop, map};
    ghost use Rattle.cv_patch.specs.Adopting.{IsScript, Scripted};

    ghost Value = { Scripted };

    ghost view = { λ l. record { tables = map (λ t. t.value) l.tables.items; script = drop l.at l.script.items } };

    ghost invariant = { λ l. IsScript (record { tables = map (λ t. t.value) l.tables.items; script = drop l.at l.script.items }) };
}

impl Listed {
    /// The script's places are answered in turn, and the last one again and again. There is one at
    /// least, they never fall, and each is that of a table. It takes no memory.
    pub fn make(tables: Vec<Arc<PatchTable, Global>>, script: Vec<u32>) -> Listed
        requires { IsScript (record { tables = map (λ t. t.value) tables.items; script = script.items }) }
        ensures { result ≡ record { tables = map (λ t. t.value) tables.items; script = script.items } }
    {
        Listed {
            tables,
            script,
            at: 0,
        }
    }
}

impl Adopter for Listed {
    ghost use Rattle.std.specs.Prelude.{ℕ, List};
    ghost use Rattle.std.specs.List.{AllByRecursion};
    ghost use Rattle.cv_base.specs.declared.patches.Patch.{Patch};
    ghost use Rattle.cv_patch.specs.Adopting.{MayHaveAnswered};

    ghost Origin = { List (List Patch) };

    ghost origin = { λ l. l.tables };

    ghost Answers = { λ l versions. AllByRecursion (MayHaveAnswered l) versions };

    ghost HasAnswered = { MayHaveAnswered };

    ghost tables = { λ l. l.tables };

    fn enter(&mut self) -> u32
        ensures version { result ≡ next_of self.old.script }
        ensures left { self.new ≡ record { tables = self.old.tables; script = rest_of self.old.script } }
        ensures answers { (before : List ℕ) → AllByRecursion (MayHaveAnswered self.old) before → AllByRecursion (MayHaveAnswered self.new) (before ++ result ∷ []) }
        ensures answered { MayHaveAnswered self.new result }
        ensures kept { (version : ℕ) → MayHaveAnswered self.old version → MayHaveAnswered self.new version }
        ensures rises { (version : ℕ) → MayHaveAnswered self.old version → version ≤ result }
        ensures grown { IsGrown self.old.tables self.new.tables }
        ensures origin { self.new.tables ≡ self.old.tables }
    {
        let version = self.script[self.at];
        if self.at + 1 < self.script.len() {
            self.at += 1;
        }
        version
    }

    fn table(&mut self, _alloc: Global, version: u32) -> Result<Arc<PatchTable, Global>, NoMemory> {
        let table = Arc::try_clone(&self.tables[version as usize])?;
        Ok(table)
    }
}
