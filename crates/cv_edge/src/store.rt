ghost use Rattle.std.specs.Prelude.{◌≡◌, ℕ, List, Option, IfOk, IfSome, IsErrOf};
ghost use Rattle.cv_edge.specs.Edge.{Held, fetched_of, IsSized, Asked, HasCause};

use cv_base::{Items, NoMemory};
use std::alloc::Global;

/// Why a fetch gave no answer.
#[derive(Clone, Copy, Debug, PartialEq, Eq)]
pub enum FetchFail {
    /// The store failed, and has counted the fault.
    Failed,
    /// Memory was refused.
    NoMemory,
}

impl From<NoMemory> for FetchFail {
    ghost use Rattle.std.specs.Prelude.{◌≡◌};
    ghost use Rattle.cv_edge.specs.declared.store.FetchFail.TheVariants as fail;

    ghost from_gives = { λ _ r. r ≡ fail.NoMemory };

    fn from(_error: NoMemory) -> FetchFail {
        FetchFail::NoMemory
    }
}

/// What a fetch with a limit in bytes found.
#[derive(Debug, Drop, PartialEq, Eq)]
pub enum Fetched {
    /// There is no such file.
    Missing,
    /// The whole file, which has at most `limit` bytes.
    Whole(Items<u8>),
    /// The first `limit` + 1 bytes of a longer file.
    Longer(Items<u8>),
}

/// Where files come from. A store may tell what it holds and how many fetches it has had; it goes
/// on telling, and one that does not tell never begins to. Its count of faults never falls.
pub trait Store {
    ghost told: { Self → Option Held };

    ghost faults: { Self → ℕ };

    /// The file of a name, or its first `limit` + 1 bytes where it is longer than `limit` bytes.
    ///
    /// Changes no file. Answers Failed only where the count of faults rose in this call, or stands
    /// at its end, 2^64 - 1.
    fn fetch(&mut self, alloc: Global, name: &str, limit: u32) -> Result<Fetched, FetchFail>
        ensures file { IfSome (told self.old) (λ held. IfOk result (λ f. f ≡ fetched_of (held.file name.now) limit)) }
        ensures sized { IfOk result (IsSized limit) }
        ensures asked { Asked (told self.old) (told self.new) }
        ensures cause { HasCause (faults self.old) (faults self.new) (IsErrOf result FetchFail.Failed) };
}
