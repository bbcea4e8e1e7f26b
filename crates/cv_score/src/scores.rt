ghost use Rattle.std.specs.Prelude.{◌≡◌, ◌<◌, ◌+◌, [], ◌∷◌, List, length, IfOk};
ghost use Rattle.cv_base.specs.declared.cases.Case.{Case};
ghost use Rattle.cv_histories.specs.Scores.{best, fails, has_fired, is_fail, score, score_with, wins};
ghost use Rattle.cv_histories.specs.Seen.{Seen, is_same_failure};
ghost use Rattle.cv_score.specs.Charged.{HasRepair, StandsFor, is_that};
ghost use Rattle.cv_score.specs.Counting.{AllCounted, AtMost, counted_with, has_failed, has_won};

use crate::MOST_CHARGED;
use cv_base::{End, Entry, FailureId, NoMemory};
use std::alloc::Global;
use std::marker::Model;

/// The wins and fails of a repair.
#[derive(Clone, Copy, Debug)]
struct Counts {
    wins: u32,
    fails: u32,
}

impl Counts {
    /// No entry is charged.
    const NONE: Counts = Counts { wins: 0, fails: 0 };

    /// The counts with one more entry.
    fn counted(self, won: bool, failed: bool) -> Counts
        requires wins { self.wins < u32.MAX }
        requires fails { self.fails < u32.MAX }
        ensures { result ≡ counted_with self won failed }
    {
        Counts {
            wins: self.wins + u32::from(won),
            fails: self.fails + u32::from(failed),
        }
    }

    /// Wins less fails, and 1 more without a fail.
    fn score(self) -> i64
        ensures { result ≡ score_with self.wins self.fails }
    {
        let wins = i64::from(self.wins);
        if self.fails == 0 {
            wins + 1
        } else {
            wins - i64::from(self.fails)
        }
    }
}

/// The scores of the repairs of a case over the entries that were charged. Contracts see the counts
/// of each repair, and say for which history they stand.
#[derive(Debug, Drop)]
pub struct Scores {
    case: u32,
    id: FailureId,
    charged: u32,
    counts: Vec<Counts>,
}

impl Model for Scores {
    ghost use Rattle.cv_score.specs.Charged.{ScoresOf};
    ghost use Rattle.cv_score.specs.Counting.{IsKept};

    ghost Value = { ScoresOf };

    ghost view = { λ k. record { case = k.case; id = k.id; charged = k.charged; counts = k.counts.items } };

    ghost invariant = { λ k. IsKept k.charged k.counts.items };
}

impl Scores {
    /// No entry is charged. The repairs of the case have the numbers below `repairs`.
    pub fn make(alloc: Global, case: u32, id: FailureId, repairs: u32) -> Result<Scores, NoMemory>
        ensures case { IfOk result (λ k. k.case ≡ case) }
        ensures repairs { IfOk result (λ k. length k.counts ≡ repairs) }
        ensures charged { IfOk result (λ k. k.charged ≡ 0) }
        ensures empty { IfOk result (λ k. (c : Case) → c.id ≡ id → StandsFor k c []) }
    {
        let counts = vec![in alloc; Counts::NONE; repairs as usize]?;
        Ok(Scores {
            case,
            id,
            charged: 0,
            counts,
        })
    }

    /// Equal scores.
    pub fn copied(&self, alloc: Global) -> Result<Scores, NoMemory>
        ensures { IfOk result (λ k. k ≡ self.now) }
    {
        let counts = Vec::from_slice(alloc, self.counts.as_slice())?;
        Ok(Scores {
            case: self.case,
            id: self.id,
            charged: self.charged,
            counts,
        })
    }

    /// Charges an entry, of which `last_has` is the repair of this case in the table of its last
    /// adopted version. At most 1,024 entries are charged. It takes no memory.
    pub fn charge(&mut self, entry: &Entry, last_has: Option<u32>)
        requires { self.old.charged < MOST_CHARGED }
        ensures charged { self.new.charged ≡ self.old.charged + 1 }
        ensures case { self.new.case ≡ self.old.case }
        ensures repairs { length self.new.counts ≡ length self.old.counts }
        ensures counted { (c : Case) (past : List Seen) (s : Seen) → s.entry ≡ entry.now → HasRepair self.old.case s.last last_has → StandsFor self.old c past → StandsFor self.new c (s ∷ past) }
    {
        charge_each(&mut self.counts, self.case, self.id, entry, last_has);
        self.charged += 1;
    }

    /// The entries that the repair won. It takes no memory, as the calls below.
    pub fn wins(&self, repair: u32) -> u32
        requires { repair < length self.now.counts }
        ensures { (c : Case) (past : List Seen) → StandsFor self.now c past → result ≡ wins self.now.case repair past }
    {
        self.counts[repair as usize].wins
    }

    /// The entries that the repair failed.
    pub fn fails(&self, repair: u32) -> u32
        requires { repair < length self.now.counts }
        ensures { (c : Case) (past : List Seen) → StandsFor self.now c past → result ≡ fails self.now.case c repair past }
    {
        self.counts[repair as usize].fails
    }

    /// Whether an entry is a fail of the repair, where `last_has` is the repair of this case in the
    /// table of the entry's last adopted version.
    pub fn is_fail(&self, repair: u32, entry: &Entry, last_has: Option<u32>) -> bool
        ensures { (c : Case) (s : Seen) → c.id ≡ self.now.id → s.entry ≡ entry.now → HasRepair self.now.case s.last last_has → result ≡ is_fail self.now.case c repair s }
    {
        has_failed(entry, self.case, self.id, repair as usize, last_has)
    }

    /// Wins less fails, and 1 more without a fail.
    pub fn score(&self, repair: u32) -> i64
        requires { repair < length self.now.counts }
        ensures { (c : Case) (past : List Seen) → StandsFor self.now c past → result ≡ score self.now.case c repair past }
    {
        self.counts[repair as usize].score()
    }

    /// The first repair of the highest score. There is a repair at least.
    pub fn best(&self) -> u32
        requires { 0 < length self.now.counts }
        ensures within { result < length self.now.counts }
        ensures best { (c : Case) (past : List Seen) → StandsFor self.now c past → result ≡ best self.now.case c (length self.now.counts) past }
    {
        let mut best = 0;
        for repair in 1..self.counts.len() as u32 {
            if self.score(repair) > self.score(best) {
                best = repair;
            }
        }
        best
    }
}

/// Charges an entry to each repair of a case with this failure.
fn charge_each(list: &mut [Counts], case: u32, id: FailureId, entry: &Entry, last_has: Option<u32>)
    requires { AtMost MOST_CHARGED list.old }
    ensures { AllCounted case id last_has entry.now list.old list.new }
{
    for (repair, counts) in list.iter_mut().enumerate() {
        let won = has_won(entry, case, repair);
        let failed = has_failed(entry, case, id, repair, last_has);
        *counts = counts.counted(won, failed);
    }
}

/// Whether the repair won the entry.
fn has_won(entry: &Entry, case: u32, repair: usize) -> bool
    ensures { result ≡ has_won case repair entry.now }
{
    has_fired(entry, case, repair) && matches!(entry.end, End::Exit { .. })
}

/// Whether the repair failed the entry: the run failed and the repair fired, or the run failed as
/// the case while the repair was there.
fn has_failed(entry: &Entry, case: u32, id: FailureId, repair: usize, last_has: Option<u32>) -> bool
    ensures { result ≡ has_failed case id repair last_has entry.now }
{
    match entry.end {
        End::Failure { id: failure, .. } => {
            has_fired(entry, case, repair)
                || (is_same_failure(id, failure) && is_that(last_has, repair))
        }
        End::Exit { .. } | End::Budget => false,
    }
}

/// Whether the repair fired in the entry's run.
fn has_fired(entry: &Entry, case: u32, repair: usize) -> bool
    ensures { result ≡ has_fired case repair entry.now }
{
    entry
        .fired
        .as_slice()
        .iter()
        .any(|row| row.case == case && row.index as usize == repair)
}

/// Whether two failures have the same kind and pc.
fn is_same_failure(a: FailureId, b: FailureId) -> bool
    ensures { result ≡ is_same_failure a b }
{
    a == b
}

/// Whether this number is there.
fn is_that(number: Option<u32>, repair: usize) -> bool
    ensures { result ≡ is_that number repair }
{
    number.is_some_and(|number| number as usize == repair)
}
