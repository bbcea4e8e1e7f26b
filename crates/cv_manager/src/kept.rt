ghost use Rattle.std.specs.Prelude.{◌≡◌, ◌<◌, ◌≤◌, ◌∷◌, ◌++◌, [], List, if◌then◌else◌, true, length, map, option_map, vec_capacity, IfOk};
ghost use Rattle.std.specs.List.{AllByRecursion, list_all};
ghost use Rattle.cv_base.specs.declared.entries.Entry.{Entry};
ghost use Rattle.cv_base.specs.declared.entries.Observation.{Observation};
ghost use Rattle.cv_base.specs.Picture.{is_point};
ghost use Rattle.cv_base.specs.WellFormed.{IsImage};
ghost use Rattle.cv_histories.specs.Cases.{has_case, opened_by};
ghost use Rattle.cv_histories.specs.Installed.{changes};
ghost use Rattle.cv_histories.specs.Runs.{runs};
ghost use Rattle.cv_histories.specs.Seen.{Seen, is_observed, live_failure};
ghost use Rattle.cv_histories.specs.Versions.{newest_of, same_table, tables_from};
ghost use Rattle.cv_manager.specs.Kept.{IsKept, IsNext, if_new, ledger_of, past_of, seen_as, seen_with, table_with};
ghost use Rattle.cv_manager.specs.ManagerOf.{number_if_new};
ghost use Rattle.cv_manager.specs.MayPost.{MayPost};
ghost use Rattle.cv_manager.specs.Progress.{StandFrom, no_progress};
ghost use Rattle.cv_manager.specs.Tables.{IsCase, opened_list};
ghost use Rattle.cv_observe.specs.StandsFor.{StandsFor};

use crate::journal::Journal;
use crate::judging::{is_failure, live_failure};
use crate::posting::Posting;
use crate::progress::{Progress, progress_with};
use crate::tables::{changes_with, same_table, table_of};
use crate::{MOST_CASES, MOST_VERSIONS};
use cv_base::{Case, Change, Entry, FailureId, Image, NoMemory, PatchTable, Plan};
use cv_blocks::TextMap;
use cv_case::open_case;
use cv_histories::is_observed;
use cv_observe::{Summary, learned_are_at_points, learned_are_invariants, summary_in_any_order};
use std::alloc::Global;
use std::sync::Arc;

/// What a manager keeps: a plan with its text, the entries, the versions with the entries that made
/// them, the cases with their progress, the changes, and what is learned from.
#[derive(Drop)]
pub(crate) struct Kept {
    pub(crate) plan: Plan,
    pub(crate) map: TextMap,
    pub(crate) journal: Journal,
    pub(crate) versions: Vec<Arc<PatchTable, Global>>,
    pub(crate) makers: Vec<Option<u32>>,
    pub(crate) cases: Vec<Case>,
    pub(crate) progress: Vec<Progress>,
    pub(crate) changes: Vec<Change>,
    pub(crate) summary: Summary,
}

/// What one more entry makes anew, made aside so that a refusal of memory leaves all as it was.
#[derive(Drop)]
pub(crate) struct Next {
    last: Arc<PatchTable, Global>,
    opened: Option<Case>,
    progress: Vec<Progress>,
    version: Option<Arc<PatchTable, Global>>,
    changes: Vec<Change>,
}

impl Kept {
    /// Nothing is posted. Room is taken for all cases and versions.
    pub(crate) fn make(alloc: Global, plan: &Plan) -> Result<Kept, NoMemory>
        ensures plan { IfOk result (λ k. k.plan ≡ plan.now) }
        ensures empty { IfOk result (λ k. k.journal ≡ []) }
        ensures kept { IfOk result IsKept }
    {
        keeps_image(&plan.image);
        let map = TextMap::make(alloc, &plan.image)?;
        let summary = Summary::make(alloc, &map)?;
        let mut versions = Vec::with_capacity(alloc, MOST_VERSIONS as usize)?;
        versions
            .push(Arc::new(alloc, PatchTable::make(alloc))?)
            .unwrap();
        let mut makers = Vec::with_capacity(alloc, MOST_VERSIONS as usize)?;
        makers.push(None).unwrap();
        let cases = Vec::with_capacity(alloc, MOST_CASES as usize)?;
        Ok(Kept {
            plan: plan.copied(alloc)?,
            map,
            journal: Journal::make(alloc)?,
            versions,
            makers,
            cases,
            progress: Vec::new(alloc),
            changes: Vec::new(alloc),
            summary,
        })
    }

    /// The table of an entry's last adopted version: the empty one where nothing was adopted, or there
    /// is no such version.
    fn last_of(&self, alloc: Global, entry: &Entry) -> Result<Arc<PatchTable, Global>, NoMemory>
        requires { IsKept self.now }
        ensures { IfOk result (λ t. t.value ≡ (seen_as self.now entry.now).last) }
    {
        let Some(adopted) = entry.adopted.as_slice().last() else {
            return Ok(Arc::new(alloc, PatchTable::make(alloc))?);
        };
        match self.versions.get(adopted.version as usize) {
            Some(table) => Ok(Arc::try_clone(table)?),
            None => Ok(Arc::new(alloc, PatchTable::make(alloc))?),
        }
    }

    /// Whether a case has this failure.
    fn has_case(&self, id: FailureId) -> bool
        ensures { result ≡ has_case self.now.cases.items id }
    {
        self.cases.iter().any(|case| is_failure(case.id, Some(id)))
    }

    /// The case that an entry opens, if any.
    fn opened(&self, alloc: Global, entry: &Entry) -> Result<Option<Case>, NoMemory>
        requires kept { IsKept self.now }
        requires sites { list_all (is_point self.now.plan.image) entry.now.sites ≡ true }
        ensures opened { IfOk result (λ o. opened_list o ≡ opened_by self.now.plan self.now.cases.items (seen_with self.now entry.now) entry.now.sites (live_failure entry.now)) }
        ensures each { IfOk result (λ o. AllByRecursion (IsCase self.now.plan.image) (opened_list o)) }
    {
        let Some(id) = live_failure(entry) else {
            return Ok(None);
        };
        if self.has_case(id) || self.cases.len() >= MOST_CASES as usize {
            return Ok(None);
        }
        let learned = self.summary.learned(alloc)?;
        learned_are_invariants();
        learned_are_at_points();
        let case = open_case(
            alloc,
            self.journal.len(),
            entry,
            learned.as_slice(),
            &self.map,
        )?;
        Ok(Some(case))
    }

    /// The table of the cases, where it is another than that of the last version.
    fn version_of(
        &self,
        alloc: Global,
        opened: &Option<Case>,
        progress: &[Progress],
    ) -> Result<Option<Arc<PatchTable, Global>>, NoMemory>
        requires kept { IsKept self.now }
        requires cases { AllByRecursion (IsCase self.now.plan.image) (opened_list opened.now) }
        requires stand { (past : List Seen) × StandFrom self.now.plan 0 past (self.now.cases.items ++ opened_list opened.now) progress.now }
        ensures { (past : List Seen) → StandFrom self.now.plan 0 past (self.now.cases.items ++ opened_list opened.now) progress.now → IfOk result (λ v. option_map (λ t. t.value) v ≡ if_new (ledger_of self.now).versions (tables_from self.now.plan 0 (self.now.cases.items ++ opened_list opened.now) past)) }
    {
        let table = table_of(alloc, self.cases.as_slice(), opened, progress)?;
        if self.is_newest(&table) {
            return Ok(None);
        }
        Ok(Some(Arc::new(alloc, table)?))
    }

    /// Whether a table is that of the last version.
    fn is_newest(&self, table: &PatchTable) -> bool
        requires { IsKept self.now }
        ensures { result ≡ same_table table.now (newest_of (ledger_of self.now).versions) }
    {
        match self.versions.as_slice().last() {
            Some(newest) => same_table(table, newest),
            None => unreachable!(),
        }
    }

    /// The progress of the cases with one more entry, whose last adopted version has this table.
    fn progress_with(
        &self,
        alloc: Global,
        entry: &Entry,
        last: &PatchTable,
    ) -> Result<Vec<Progress>, NoMemory>
        requires kept { IsKept self.now }
        requires room { length (past_of self.now) < 1024 }
        requires last { last.now ≡ (seen_as self.now entry.now).last }
        ensures { IfOk result (λ v. StandFrom self.now.plan 0 (seen_with self.now entry.now) self.now.cases.items v.items) }
    {
        let posting = Posting {
            plan: &self.plan,
            map: &self.map,
            journal: &self.journal,
            entry,
            last,
        };
        progress_with(
            alloc,
            &posting,
            self.cases.as_slice(),
            self.progress.as_slice(),
        )
    }

    /// The changes with those of one more entry, after which the cases have come this far.
    fn changes_with(&self, alloc: Global, progress: &[Progress]) -> Result<Vec<Change>, NoMemory>
        requires { IsKept self.now }
        ensures { (e : Entry) → StandFrom self.now.plan 0 (seen_with self.now e) self.now.cases.items progress.now → IfOk result (λ v. v.items ≡ changes self.now.plan (seen_with self.now e)) }
    {
        changes_with(
            alloc,
            self.changes.as_slice(),
            self.journal.len(),
            self.progress.as_slice(),
            progress,
        )
    }

    /// What an entry makes anew.
    pub(crate) fn next(&self, alloc: Global, entry: &Entry) -> Result<Next, NoMemory>
        requires kept { IsKept self.now }
        requires room { length (past_of self.now) < length (runs self.now.plan) }
        requires sites { list_all (is_point self.now.plan.image) entry.now.sites ≡ true }
        ensures { IfOk result (IsNext self.now entry.now) }
    {
        let last = self.last_of(alloc, entry)?;
        let progress = self.progress_with(alloc, entry, &last)?;
        let changes = self.changes_with(alloc, progress.as_slice())?;
        let opened = self.opened(alloc, entry)?;
        let progress = with_opened(progress, &opened)?;
        let version = self.version_of(alloc, &opened, progress.as_slice())?;
        Ok(Next {
            last,
            opened,
            progress,
            version,
            changes,
        })
    }

    /// The entry is posted with what it makes anew, and its run's summary where that is learned from:
    /// the number of the new version, if there is one. It takes no memory.
    pub(crate) fn commit(&mut self, entry: Entry, summary: &Summary, next: Next) -> Option<u32>
        requires kept { IsKept self.old }
        requires may { MayPost self.old.plan (past_of self.old) entry summary.now }
        requires next { IsNext self.old entry next }
        requires room { length (past_of self.old) < 1024 }
        ensures kept { IsKept self.new }
        ensures plan { self.new.plan ≡ self.old.plan }
        ensures past { past_of self.new ≡ entry ∷ past_of self.old }
        ensures version { result ≡ number_if_new (ledger_of self.old).versions (table_with self.old entry) }
    {
        let Next {
            last,
            opened,
            progress,
            version,
            changes,
        } = next;
        let number = self.journal.len();
        learn_from(&mut self.summary, &entry, summary);
        self.journal.push(entry, last);
        add_opened(&mut self.cases, opened);
        self.progress = progress;
        self.changes = changes;
        let version = version?;
        let added = self.versions.len() as u32;
        self.versions.push(version).unwrap();
        self.makers.push(Some(number)).unwrap();
        Some(added)
    }
}

/// The progress of cases and, behind it, that of a case that was opened just now.
fn with_opened(
    mut progress: Vec<Progress>,
    opened: &Option<Case>,
) -> Result<Vec<Progress>, NoMemory>
    ensures { IfOk result (λ v. v.items ≡ progress.items ++ map (λ _. no_progress) (opened_list opened.now)) }
{
    if opened.is_none() {
        return Ok(progress);
    }
    progress.push(Progress::make())?;
    Ok(progress)
}

/// Adds a case that was opened just now, if any. It takes no memory.
fn add_opened(cases: &mut Vec<Case>, opened: Option<Case>)
    requires { length (cases.old.items ++ opened_list opened) ≤ vec_capacity cases.old }
    ensures items { cases.new.items ≡ cases.old.items ++ opened_list opened }
    ensures room { vec_capacity cases.old ≤ vec_capacity cases.new }
{
    if let Some(case) = opened {
        cases.push(case).unwrap();
    }
}

/// Adds what was seen in an entry's run, in front of what was seen before it, where that is learned
/// from. It takes no memory.
fn learn_from(learned: &mut Summary, entry: &Entry, run: &Summary)
    requires { run.now.text ≡ learned.old.text }
    ensures text { learned.new.text ≡ learned.old.text }
    ensures learned { (before new : List Observation) → StandsFor learned.old before → (is_observed entry.now ≡ true → StandsFor run.now new) → StandsFor learned.new (if is_observed entry.now then new ++ before else before) }
{
    summary_in_any_order();
    if is_observed(entry) {
        learned.merge(run).unwrap();
    }
}

/// An image keeps what every image keeps.
fn keeps_image(image: &Image)
    ensures { IsImage image.now }
{
    let _words = &image.words;
}
