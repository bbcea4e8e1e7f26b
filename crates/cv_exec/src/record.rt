ghost use Rattle.std.specs.Prelude.{◌≡◌};
ghost use Rattle.cv_exec.specs.LiveRun.{rows_of};
ghost use Rattle.cv_exec.specs.RecordOf.{IsHonestUnder};
ghost use Rattle.cv_histories.specs.Legal.{NeverFalls};

use crate::SharedPlan;
use crate::patched::Span;
use cv_base::{Entry, Plan};
use std::marker::Model;

/// A run's entry with its plan and the tables of the versions that it adopted, one for each row of
/// versions in the entry, none in a learn run; made by an arena alone. The entry is honest wherever
/// those versions have these tables, and its versions never fall (docs/REPAIR.md, "Entries").
#[derive(Drop)]
pub struct Record {
    pub(crate) plan: SharedPlan,
    pub(crate) entry: Entry,
    pub(crate) spans: Vec<Span>,
}

impl Model for Record {
    ghost use Rattle.cv_exec.specs.RecordOf.{IsRecord, RecordOf};

    ghost Value = { RecordOf };

    ghost view = { λ r. record { plan = r.plan; entry = r.entry; adopted = r.spans.items } };

    ghost invariant = { λ r. IsRecord r.plan r.spans.items r.entry };
}

impl Record {
    /// The plan of the run.
    pub fn plan(&self) -> &Plan
        ensures { result.now ≡ self.now.plan }
    {
        self.plan.get()
    }

    /// The run's entry, which is honest: that of a learn run says what the plain run did.
    pub fn entry(&self) -> &Entry
        ensures value { result.now ≡ self.now.entry }
        ensures honest { IsHonestUnder self.now.plan self.now.adopted result.now }
        ensures rows { rows_of self.now.adopted ≡ result.now.adopted }
        ensures rises { NeverFalls result.now.adopted }
    {
        &self.entry
    }

    /// The run's entry. It takes no memory.
    pub fn into_entry(self) -> Entry
        ensures value { result ≡ self.entry }
        ensures honest { IsHonestUnder self.plan self.adopted result }
        ensures rows { rows_of self.adopted ≡ result.adopted }
        ensures rises { NeverFalls result.adopted }
    {
        let Record { entry, .. } = self;
        entry
    }
}
