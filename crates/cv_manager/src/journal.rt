ghost use Rattle.std.specs.Prelude.{◌≡◌, ◌<◌, ◌≤◌, [], ◌∷◌, List, length, map, reverse, slice_index_or, IfOk};
ghost use Rattle.cv_base.specs.declared.cases.Case.{Case};
ghost use Rattle.cv_class.specs.Counted as classes;
ghost use Rattle.cv_histories.specs.Classes.{checked_failures};
ghost use Rattle.cv_histories.specs.Seen.{Seen};
ghost use Rattle.cv_manager.specs.Journal.{EnforcesOne, entries_of};
ghost use Rattle.cv_score.specs.Charged as scores;

use crate::MOST_ENTRIES;
use crate::judging::{is_checked_failure, repair_in};
use cv_base::{Case, Entry, NoMemory, PatchTable};
use cv_class::Classes;
use cv_score::Scores;
use std::alloc::Global;
use std::marker::Model;
use std::sync::Arc;

/// The entries that were posted, each with the table of its last adopted version. Contracts see the
/// newest first. There is room for as many as a plan has runs.
#[derive(Drop)]
pub(crate) struct Journal {
    entries: Vec<Entry>,
    lasts: Vec<Arc<PatchTable, Global>>,
}

impl Model for Journal {
    ghost use Rattle.std.specs.Prelude.{List, map, vec_capacity};
    ghost use Rattle.cv_histories.specs.Seen.{Seen};
    ghost use Rattle.cv_manager.specs.Journal.{IsJournal, seen_of};

    ghost Value = { List Seen };

    ghost view = { λ j. seen_of j.entries.items (map (λ t. t.value) j.lasts.items) };

    ghost invariant = { λ j. IsJournal j.entries.items (map (λ t. t.value) j.lasts.items) (vec_capacity j.entries) (vec_capacity j.lasts) };
}

impl Journal {
    /// No entry, and room for all.
    pub(crate) fn make(alloc: Global) -> Result<Journal, NoMemory>
        ensures { IfOk result (λ j. j ≡ []) }
    {
        let entries = Vec::with_capacity(alloc, MOST_ENTRIES as usize)?;
        let lasts = Vec::with_capacity(alloc, MOST_ENTRIES as usize)?;
        Ok(Journal { entries, lasts })
    }

    /// The entries, the oldest first.
    pub(crate) fn entries(&self) -> &[Entry]
        ensures { result.now ≡ reverse (entries_of self.now) }
    {
        self.entries.as_slice()
    }

    /// The number of entries.
    pub(crate) fn len(&self) -> u32
        ensures count { result ≡ length self.now }
        ensures few { result ≤ MOST_ENTRIES }
    {
        self.entries.len() as u32
    }

    /// The entry at a place, the oldest at 0, with the table of its last adopted version.
    fn at(&self, place: u32) -> (&Entry, &PatchTable)
        requires { place < length self.now }
        ensures seen { (d : Seen) → slice_index_or (reverse self.now) place d ≡ record { entry = result.0.now; last = result.1.now } }
        ensures one { EnforcesOne result.1.now }
    {
        (&self.entries[place as usize], &self.lasts[place as usize])
    }

    /// One more entry, with the table of its last adopted version. It takes no memory.
    pub(crate) fn push(&mut self, entry: Entry, last: Arc<PatchTable, Global>)
        requires room { length self.old < MOST_ENTRIES }
        requires one { EnforcesOne last.value }
        ensures { self.new ≡ record { entry = entry; last = last.value } ∷ self.old }
    {
        self.entries.push(entry).unwrap();
        self.lasts.push(last).unwrap();
    }

    /// The classes of the candidates of a case over its checked failures and one more entry, which is
    /// a checked failure.
    pub(crate) fn classes(
        &self,
        alloc: Global,
        number: u32,
        case: &Case,
        entry: &Entry,
    ) -> Result<Classes, NoMemory>
        requires { length case.now.candidates < 4294967296 }
        ensures case { IfOk result (λ k. k.case ≡ number) }
        ensures candidates { IfOk result (λ k. length k.marks ≡ length case.now.candidates) }
        ensures counted { (s : Seen) → s.entry ≡ entry.now → IfOk result (λ k. classes.StandsFor k (reverse (s ∷ checked_failures number case.now self.now))) }
    {
        let mut classes = Classes::make(alloc, number, case.candidates.len() as u32)?;
        for place in 0..self.len() {
            let (earlier, its_last) = self.at(place);
            if is_checked_failure(number, case, earlier, its_last) {
                classes.count(earlier);
            }
        }
        classes.count(entry);
        Ok(classes)
    }

    /// The scores of the repairs of a case over the entries and one more.
    pub(crate) fn scores(
        &self,
        alloc: Global,
        number: u32,
        case: &Case,
        repairs: u32,
        entry: &Entry,
        last: &PatchTable,
    ) -> Result<Scores, NoMemory>
        requires room { length self.now < MOST_ENTRIES }
        requires one { EnforcesOne last.now }
        ensures case { IfOk result (λ k. k.case ≡ number) }
        ensures repairs { IfOk result (λ k. length k.counts ≡ repairs) }
        ensures charged { IfOk result (λ k. scores.StandsFor k case.now (record { entry = entry.now; last = last.now } ∷ self.now)) }
    {
        let mut scores = Scores::make(alloc, number, case.id, repairs)?;
        for place in 0..self.len() {
            let (earlier, its_last) = self.at(place);
            scores.charge(earlier, repair_in(number, its_last));
        }
        scores.charge(entry, repair_in(number, last));
        Ok(scores)
    }
}
