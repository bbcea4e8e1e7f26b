ghost use Rattle.std.specs.Prelude.{◌≡◌, true, IfErr, IfOk, OnErr, OnOk};
ghost use Rattle.cv_base.specs.WellFormed.{IsImage};
ghost use Rattle.cv_blocks.specs.TextMap.{text_only};
ghost use Rattle.cv_histories.specs.Legal.{IsLegal, MayFollow};
ghost use Rattle.cv_histories.specs.Runs.{run_at};
ghost use Rattle.cv_histories.specs.Seen.{is_observed, observed_of};
ghost use Rattle.cv_histories.specs.Unfired.{UnfiredArePlain};
ghost use Rattle.cv_manager.specs.ManagerOf.{empty_manager, version_added, with_entry};
ghost use Rattle.cv_observe.specs.StandsFor.{StandsFor};

use cv_base::{NoMemory, Plan};
use cv_exec::Record;
use cv_laws::{followed_has_room, legal_is_plain};
use cv_manager::{Manager, sites_are_points};
use cv_observe::Summary;
use std::alloc::Global;
use std::marker::Model;

/// A plan and its history, which is legal as far as it goes: each entry is that of an honest run, under
/// versions that never fall (docs/REPAIR.md, "Legal histories").
#[derive(Drop)]
pub struct Book {
    manager: Manager,
}

impl Model for Book {
    ghost use Rattle.cv_histories.specs.Legal.{IsLegal};
    ghost use Rattle.cv_manager.specs.ManagerOf.{ManagerOf};

    ghost Value = { ManagerOf };

    ghost view = { λ b. b.manager };

    ghost invariant = { λ b. IsLegal b.manager.plan b.manager.past };
}

/// A record that was not posted for want of memory.
#[derive(Drop)]
pub struct Unbooked {
    pub outcome: Record,
}

impl Book {
    /// The book of a plan without an entry.
    pub fn make(alloc: Global, plan: Plan) -> Result<Book, NoMemory>
        ensures { IfOk result (λ b. b ≡ empty_manager plan) }
    {
        let manager = Manager::make(alloc, &plan)?;
        Ok(Book { manager })
    }

    /// The plan.
    pub fn plan(&self) -> &Plan
        ensures { result.now ≡ self.now.plan }
    {
        self.manager.plan()
    }

    /// What the history says: its entries, cases, classes, scores, installations and versions.
    pub fn manager(&self) -> &Manager
        ensures value { result.now ≡ self.now }
        ensures legal { IsLegal self.now.plan self.now.past }
        ensures unfired { UnfiredArePlain self.now.plan self.now.past }
    {
        legal_is_plain();
        &self.manager
    }

    /// Posts the entry of a record, which may follow the history: the number of the version that it
    /// adds, `None` where the table is that of the last version. `summary` is of the plan's text and,
    /// where the record's run is learned from, of that run. Where memory is refused the record comes
    /// back, and the book is as it was.
    pub fn post(
        &mut self,
        alloc: Global,
        outcome: Record,
        summary: &Summary,
    ) -> Result<Option<u32>, Unbooked>
        requires follows { MayFollow self.old.plan self.old.past outcome.entry }
        requires text { summary.now.text ≡ text_only self.old.plan.image }
        requires seen { is_observed outcome.entry ≡ true → StandsFor summary.now (observed_of self.old.plan (run_at self.old.plan outcome.entry.run)) }
        ensures posted { OnOk result (self.new ≡ with_entry self.old outcome.entry) }
        ensures version { IfOk result (λ version. version ≡ version_added self.old outcome.entry) }
        ensures err { OnErr result (self.new ≡ self.old) }
        ensures handed_back { IfErr result (λ unbooked. unbooked.outcome ≡ outcome) }
    {
        let Ok(entry) = outcome.entry().copied(alloc) else {
            return Err(Unbooked { outcome });
        };
        keeps_image(self.manager.plan());
        sites_are_points();
        followed_has_room();
        match self.manager.post(alloc, entry, summary) {
            Ok(version) => Ok(version),
            Err(_) => Err(Unbooked { outcome }),
        }
    }
}

/// The image of a plan has all that an image keeps, which is known where a field of it is read.
fn keeps_image(plan: &Plan)
    ensures { IsImage plan.now.image }
{
    let _words = &plan.image.words;
}
