ghost use Rattle.std.specs.Prelude.{◌≡◌, ◌<◌, ◌∷◌, ℕ, List, length, reverse, IfOk};
ghost use Rattle.std.specs.List.{AllByRecursion};
ghost use Rattle.cv_base.specs.declared.cases.Case.{Case};
ghost use Rattle.cv_class.specs.Counted as marks;
ghost use Rattle.cv_histories.specs.Classes.{checked_failures, is_checked_failure};
ghost use Rattle.cv_histories.specs.Repairs.{Judged, repairs_for};
ghost use Rattle.cv_histories.specs.Scores.{is_fail};
ghost use Rattle.cv_manager.specs.declared.TheConstants.{MOST_ENTRIES};
ghost use Rattle.cv_manager.specs.Posting.{all_of};
ghost use Rattle.cv_manager.specs.Tables.{IsCase};
ghost use Rattle.cv_repair.specs.Chosen.{AreChosen};
ghost use Rattle.cv_score.specs.Charged as charges;

use crate::journal::Journal;
use crate::judging::{is_checked_failure, repair_in};
use cv_base::{Case, Entry, Items, NoMemory, PatchTable, Plan, Repair};
use cv_blocks::TextMap;
use cv_class::Classes;
use cv_repair::repairs;
use cv_score::Scores;
use std::alloc::Global;
use std::marker::Model;

/// An entry that is posted to the history of a plan, with the table of its last adopted version.
#[derive(Drop)]
pub(crate) struct Posting<'a> {
    pub(crate) plan: &'a Plan,
    pub(crate) map: &'a TextMap,
    pub(crate) journal: &'a Journal,
    pub(crate) entry: &'a Entry,
    pub(crate) last: &'a PatchTable,
}

impl<'a> Model for Posting<'a> {
    ghost use Rattle.cv_manager.specs.Posting.{IsPosting, PostingOf};

    ghost Value = { PostingOf };

    ghost view = { λ p. record { plan = p.plan.now; past = p.journal.now; new = record { entry = p.entry.now; last = p.last.now } } };

    ghost invariant = { λ p. IsPosting p.map.now (record { plan = p.plan.now; past = p.journal.now; new = record { entry = p.entry.now; last = p.last.now } }) };
}

impl<'a> Posting<'a> {
    /// The checked failures of a case that count.
    pub(crate) fn checks(&self) -> u32
        ensures { result ≡ self.now.plan.checks }
    {
        let plan: &Plan = self.plan;
        plan.checks
    }

    /// Whether the entry is a checked failure of a case. There is room for it.
    pub(crate) fn is_checked(&self, number: u32, case: &Case) -> bool
        ensures checked { result ≡ is_checked_failure number case.now self.now.new }
        ensures room { length self.now.past < MOST_ENTRIES }
    {
        is_checked_failure(number, case, self.entry, self.last)
    }

    /// The classes of the candidates of a case over its checked failures, of which the entry is the
    /// last.
    pub(crate) fn classes(
        &self,
        alloc: Global,
        number: u32,
        case: &Case,
    ) -> Result<Classes, NoMemory>
        requires { length case.now.candidates < 4294967296 }
        ensures case { IfOk result (λ k. k.case ≡ number) }
        ensures candidates { IfOk result (λ k. length k.marks ≡ length case.now.candidates) }
        ensures counted { IfOk result (λ k. marks.StandsFor k (reverse (self.now.new ∷ checked_failures number case.now self.now.past))) }
    {
        self.journal.classes(alloc, number, case, self.entry)
    }

    /// The repairs that the chosen candidates of a case give.
    pub(crate) fn repairs(
        &self,
        alloc: Global,
        case: &Case,
        chosen: &[u32],
    ) -> Result<Items<Repair>, NoMemory>
        requires case { IsCase self.now.plan.image case.now }
        requires chosen { AllByRecursion (λ (x : ℕ). x < length case.now.candidates) chosen.now }
        ensures { (judged : List Judged) → AreChosen case.now.candidates chosen.now judged → IfOk result (λ r. r ≡ repairs_for self.now.plan.image case.now.candidates judged) }
    {
        repairs(alloc, case, chosen, self.map)
    }

    /// The scores of the repairs of a case over all entries.
    pub(crate) fn scores(
        &self,
        alloc: Global,
        number: u32,
        case: &Case,
        repairs: u32,
    ) -> Result<Scores, NoMemory>
        ensures case { IfOk result (λ k. k.case ≡ number) }
        ensures repairs { IfOk result (λ k. length k.counts ≡ repairs) }
        ensures charged { IfOk result (λ k. charges.StandsFor k case.now (all_of self.now)) }
    {
        self.journal
            .scores(alloc, number, case, repairs, self.entry, self.last)
    }

    /// Charges the entry to the repairs of a case.
    pub(crate) fn charge(&self, number: u32, scores: &mut Scores)
        requires case { scores.old.case ≡ number }
        requires room { scores.old.charged ≡ length self.now.past }
        ensures case { scores.new.case ≡ scores.old.case }
        ensures repairs { length scores.new.counts ≡ length scores.old.counts }
        ensures charged { (c : Case) → charges.StandsFor scores.old c self.now.past → charges.StandsFor scores.new c (all_of self.now) }
    {
        scores.charge(self.entry, repair_in(number, self.last));
    }

    /// Whether the entry is a fail of a repair of a case.
    pub(crate) fn is_fail(&self, number: u32, scores: &Scores, repair: u32) -> bool
        requires { scores.now.case ≡ number }
        ensures { (c : Case) → c.id ≡ scores.now.id → result ≡ is_fail number c repair self.now.new }
    {
        scores.is_fail(repair, self.entry, repair_in(number, self.last))
    }
}
