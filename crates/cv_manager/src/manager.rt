ghost use Rattle.std.specs.List.{list_all};
ghost use Rattle.std.specs.Prelude.{◌≡◌, ◌<◌, ◌≤◌, true, Some, length, map, min, option_copied, reverse, slice_get, IfErr, IfOk, OnErr, OnOk};
ghost use Rattle.cv_base.specs.declared.cases.Case.{Case};
ghost use Rattle.cv_base.specs.declared.invariants.Invariant.{Invariant};
ghost use Rattle.cv_base.specs.Invariants.{is_invariant};
ghost use Rattle.cv_base.specs.Picture.{is_point};
ghost use Rattle.cv_histories.specs.Classes.{checked_failures, class_of};
ghost use Rattle.cv_histories.specs.Installed.{changes, installed};
ghost use Rattle.cv_histories.specs.Report.{makers};
ghost use Rattle.cv_histories.specs.Repairs.{repairs_of};
ghost use Rattle.cv_histories.specs.Scores.{fails, score, wins};
ghost use Rattle.cv_histories.specs.Seen.{learned_of};
ghost use Rattle.cv_manager.specs.MayPost.{MayPost};
ghost use Rattle.cv_manager.specs.ManagerOf.{case_in, cases_in, empty_manager, ledger_in, seen_in, version_added, with_entry};
ghost use Rattle.cv_manager.specs.Progress.{DecidesIf, Stands};
ghost use Rattle.cv_runs.specs.Invariants.{point_of};
ghost use Rattle.cv_score.specs.Charged.{StandsFor};

use crate::decided::Decided;
use crate::kept::Kept;
use crate::progress::Progress;
use cv_base::{Case, Change, Class, Entry, Invariant, Items, NoMemory, PatchTable, Plan, Repair};
use cv_observe::Summary;
use cv_score::Scores;
use std::alloc::Global;
use std::marker::Model;
use std::sync::Arc;

/// The cases, classes, repairs, scores, installations and versions of a plan's history, which grows
/// by one entry at a time (docs/REPAIR.md, "Histories"). Contracts see the plan and the history: every
/// answer is what the definitions make of these, at every moment.
#[derive(Drop)]
pub struct Manager {
    kept: Kept,
}

impl Model for Manager {
    ghost use Rattle.cv_manager.specs.Kept.{IsKept, past_of};
    ghost use Rattle.cv_manager.specs.ManagerOf.{ManagerOf};

    ghost Value = { ManagerOf };

    ghost view = { λ m. record { plan = m.kept.plan; past = past_of m.kept } };

    ghost invariant = { λ m. IsKept m.kept };
}

/// An entry that was not posted for want of memory.
#[derive(Drop)]
pub struct Unkept {
    pub entry: Entry,
}

impl Manager {
    /// The manager of a plan, of which it keeps a copy, with no entry. Version 0 is the empty table.
    pub fn make(alloc: Global, plan: &Plan) -> Result<Manager, NoMemory>
        ensures { IfOk result (λ m. m ≡ empty_manager plan.now) }
    {
        let kept = Kept::make(alloc, plan)?;
        Ok(Manager { kept })
    }

    /// The plan.
    pub fn plan(&self) -> &Plan
        ensures { result.now ≡ self.now.plan }
    {
        &self.kept.plan
    }

    /// Posts an entry: the number of the version that it adds, `None` where the table is that of the
    /// last version. Fewer entries than the plan has runs were posted, the entry's sites are points,
    /// and `summary` is of the plan's text and, where the run is learned from, of that run. Where
    /// memory is refused the entry comes back, and all is as it was.
    pub fn post(
        &mut self,
        alloc: Global,
        entry: Entry,
        summary: &Summary,
    ) -> Result<Option<u32>, Unkept>
        requires { MayPost self.old.plan self.old.past entry summary.now }
        ensures posted { OnOk result (self.new ≡ with_entry self.old entry) }
        ensures version { IfOk result (λ version. version ≡ version_added self.old entry) }
        ensures err { OnErr result (self.new ≡ self.old) }
        ensures handed_back { IfErr result (λ unkept. unkept.entry ≡ entry) }
    {
        match self.kept.next(alloc, &entry) {
            Ok(next) => Ok(self.kept.commit(entry, summary, next)),
            Err(NoMemory) => Err(Unkept { entry }),
        }
    }

    /// The entries, in the order of their posts.
    pub fn history(&self) -> &[Entry]
        ensures { result.now ≡ reverse self.now.past }
    {
        self.kept.journal.entries()
    }

    /// The tables of the versions, from version 0 on.
    pub fn versions(&self) -> &[Arc<PatchTable, Global>]
        ensures { map (λ t. t.value) result.now ≡ (ledger_in self.now).versions }
    {
        self.kept.versions.as_slice()
    }

    /// The number of versions, of which the newest is the last; version 0 is always there.
    pub fn version_count(&self) -> u32
        ensures count { result ≡ length (ledger_in self.now).versions }
        ensures some { 1 ≤ result }
    {
        let _entries = self.kept.journal.len();
        self.kept.versions.len() as u32
    }

    /// The entry that added a version; `None` for version 0.
    pub fn made_by(&self, version: u32) -> Option<u32>
        requires { version < length (ledger_in self.now).versions }
        ensures { Some result ≡ slice_get (makers self.now.plan self.now.past) version }
    {
        self.kept.makers[version as usize]
    }

    /// The invariants that are learned of the history, in order.
    pub fn learned(&self, alloc: Global) -> Result<Items<Invariant>, NoMemory>
        ensures { IfOk result (λ list. list ≡ learned_of self.now.plan (seen_in self.now)) }
    {
        self.kept.summary.learned(alloc)
    }

    /// The number of cases.
    pub fn case_count(&self) -> u32
        ensures { result ≡ length (cases_in self.now) }
    {
        self.kept.cases.len() as u32
    }

    /// A case, numbered from 0 in the order of opening. It has at most 64 candidates, each at a point.
    pub fn case(&self, index: u32) -> &Case
        requires { index < length (cases_in self.now) }
        ensures value { Some result.now ≡ case_in self.now index }
        ensures kinds { list_all is_invariant result.now.candidates ≡ true }
        ensures points { list_all (λ (k : Invariant). is_point self.now.plan.image (point_of k)) result.now.candidates ≡ true }
        ensures few { length result.now.candidates ≤ 64 }
    {
        &self.kept.cases[index as usize]
    }

    /// The checked failures of a case, as many as the plan's checks at most.
    pub fn checked(&self, case: u32) -> u32
        requires { case < length (cases_in self.now) }
        ensures { (of : Case) → case_in self.now case ≡ Some of → result ≡ min self.now.plan.checks (length (checked_failures case of (seen_in self.now))) }
    {
        self.kept.plan.checks.min(self.progress(case).checked)
    }

    /// How far a case has come.
    fn progress(&self, case: u32) -> &Progress
        requires { case < length (cases_in self.now) }
        ensures { (of : Case) → case_in self.now case ≡ Some of → Stands self.now.plan case (seen_in self.now) of result.now }
    {
        &self.kept.progress[case as usize]
    }

    /// What was decided of a case; `None` before its last checked failure that counts.
    fn decided(&self, case: u32) -> Option<&Decided>
        requires { case < length (cases_in self.now) }
        ensures { (of : Case) → case_in self.now case ≡ Some of → DecidesIf self.now.plan case of (seen_in self.now) (option_copied result) }
    {
        self.progress(case).decided.as_ref()
    }

    /// The scores of the repairs of a case, of which this is one.
    fn scores(&self, case: u32, repair: u32) -> &Scores
        requires case { case < length (cases_in self.now) }
        requires repair { (of : Case) → case_in self.now case ≡ Some of → repair < length (repairs_of self.now.plan case of (seen_in self.now)) }
        ensures number { result.now.case ≡ case }
        ensures within { repair < length result.now.counts }
        ensures stands { (of : Case) → case_in self.now case ≡ Some of → StandsFor result.now of (seen_in self.now) }
    {
        let decided = self.decided(case).unwrap();
        &decided.scores
    }

    /// The class of a candidate of a case; `None` before the last checked failure that counts, and
    /// where the case has no candidates.
    pub fn class(&self, case: u32, candidate: u32) -> Option<Class>
        requires case { case < length (cases_in self.now) }
        requires candidate { (of : Case) → case_in self.now case ≡ Some of → candidate < length of.candidates }
        ensures { (of : Case) → case_in self.now case ≡ Some of → result ≡ class_of self.now.plan case of candidate (seen_in self.now) }
    {
        let decided = self.decided(case)?;
        decided.classes.get(candidate as usize).copied()
    }

    /// The repairs of a case, at most six for each candidate; none before the last checked failure that
    /// counts.
    pub fn repairs(&self, case: u32) -> &[Repair]
        requires { case < length (cases_in self.now) }
        ensures value { (of : Case) → case_in self.now case ≡ Some of → result.now ≡ repairs_of self.now.plan case of (seen_in self.now) }
        ensures few { length result.now ≤ 384 }
    {
        let _of = self.case(case);
        match self.decided(case) {
            Some(decided) => decided.repairs.as_slice(),
            None => &[],
        }
    }

    /// The entries that a repair of a case won.
    pub fn wins(&self, case: u32, repair: u32) -> u32
        requires case { case < length (cases_in self.now) }
        requires repair { (of : Case) → case_in self.now case ≡ Some of → repair < length (repairs_of self.now.plan case of (seen_in self.now)) }
        ensures { result ≡ wins case repair (seen_in self.now) }
    {
        self.scores(case, repair).wins(repair)
    }

    /// The entries that a repair of a case failed.
    pub fn fails(&self, case: u32, repair: u32) -> u32
        requires case { case < length (cases_in self.now) }
        requires repair { (of : Case) → case_in self.now case ≡ Some of → repair < length (repairs_of self.now.plan case of (seen_in self.now)) }
        ensures { (of : Case) → case_in self.now case ≡ Some of → result ≡ fails case of repair (seen_in self.now) }
    {
        self.scores(case, repair).fails(repair)
    }

    /// The score of a repair of a case: wins less fails, and 1 more without a fail.
    pub fn score(&self, case: u32, repair: u32) -> i64
        requires case { case < length (cases_in self.now) }
        requires repair { (of : Case) → case_in self.now case ≡ Some of → repair < length (repairs_of self.now.plan case of (seen_in self.now)) }
        ensures { (of : Case) → case_in self.now case ≡ Some of → result ≡ score case of repair (seen_in self.now) }
    {
        self.scores(case, repair).score(repair)
    }

    /// The installed repair of a case; `None` where none was installed yet.
    pub fn installed(&self, case: u32) -> Option<u32>
        requires { case < length (cases_in self.now) }
        ensures { (of : Case) → case_in self.now case ≡ Some of → result ≡ installed self.now.plan case of (seen_in self.now) }
    {
        self.progress(case).installed()
    }

    /// The changes of installed repairs, in the order of entries and then of cases.
    pub fn changes(&self) -> &[Change]
        ensures { result.now ≡ changes self.now.plan (seen_in self.now) }
    {
        self.kept.changes.as_slice()
    }
}
