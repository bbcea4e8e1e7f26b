ghost use Rattle.std.specs.Prelude.{◌≡◌, ℕ, ◌≤◌, List, [], ◌∷◌, ◌++◌, Some, slice_get, IfOk};
ghost use Rattle.cv_base.specs.declared.patches.Patch.{Patch};
ghost use Rattle.cv_patch.specs.Adopting.{IsGrown};

use cv_base::{NoMemory, PatchTable};
use std::alloc::Global;
use std::sync::Arc;

/// Where a live run gets its versions from, and the tables of these versions.
///
/// Its answers never fall. It knows some tables, by version, and the list of them only grows. No call
/// changes what it was made with, whatever it answers.
pub trait Adopter {
    /// What it was made with.
    ghost Origin: { Type 0 };

    ghost origin: { Self → Origin };

    /// The versions that it has answered so far are these, in this order.
    ghost Answers: { Self → List ℕ → Type 0 };

    /// The version is among those that it has answered so far.
    ghost HasAnswered: { Self → ℕ → Type 0 };

    /// The tables that it knows, by version.
    ghost tables: { Self → List (List Patch) };

    /// The version for a block entry, not below any that it has answered. Its table need not be known
    /// yet.
    fn enter(&mut self) -> u32
        ensures answers { (before : List ℕ) → Answers self.old before → Answers self.new (before ++ result ∷ []) }
        ensures answered { HasAnswered self.new result }
        ensures kept { (version : ℕ) → HasAnswered self.old version → HasAnswered self.new version }
        ensures rises { (version : ℕ) → HasAnswered self.old version → version ≤ result }
        ensures grown { IsGrown (tables self.old) (tables self.new) }
        ensures origin { origin self.new ≡ origin self.old };

    /// The table of a version that it has answered.
    fn table(&mut self, alloc: Global, version: u32) -> Result<Arc<PatchTable, Global>, NoMemory>
        requires { HasAnswered self.old version }
        ensures table { IfOk result (λ t. slice_get (tables self.new) version ≡ Some t.value) }
        ensures answers { (before : List ℕ) → Answers self.old before → Answers self.new before }
        ensures kept { (version : ℕ) → HasAnswered self.old version → HasAnswered self.new version }
        ensures grown { IsGrown (tables self.old) (tables self.new) }
        ensures origin { origin self.new ≡ origin self.old };
}

/// What is told of each block entry of a live run, before its version is asked for. It changes
/// nothing of the run.
pub trait Watcher {
    /// A block entry comes before the turn of this number, from 0.
    fn entry(&mut self, turn: u32);
}
