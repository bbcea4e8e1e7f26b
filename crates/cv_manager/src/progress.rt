ghost use Rattle.std.specs.Prelude.{◌≡◌, ◌<◌, length, IfOk};
ghost use Rattle.std.specs.List.{AllByRecursion};
ghost use Rattle.cv_manager.specs.Posting.{all_of};
ghost use Rattle.cv_manager.specs.Progress.{Stands, StandFrom, no_progress};
ghost use Rattle.cv_manager.specs.Tables.{IsCase, installed_in};

use crate::decided::Decided;
use crate::posting::Posting;
use cv_base::{Case, NoMemory};
use std::alloc::Global;
use std::marker::Model;

/// How far a case has come: its checked failures and, once it is decided, what was decided.
#[derive(Drop)]
pub(crate) struct Progress {
    pub(crate) checked: u32,
    pub(crate) decided: Option<Decided>,
}

impl Model for Progress {
    ghost use Rattle.cv_manager.specs.Progress.{ProgressOf};

    ghost Value = { ProgressOf };

    ghost view = { λ p. record { checked = p.checked; decided = p.decided } };
}

impl Progress {
    /// Before the first checked failure. It takes no memory.
    pub(crate) fn make() -> Progress
        ensures { result ≡ no_progress }
    {
        Progress {
            checked: 0,
            decided: None,
        }
    }

    /// The installed repair.
    pub(crate) fn installed(&self) -> Option<u32>
        ensures { result ≡ installed_in self.now.decided }
    {
        match &self.decided {
            Some(decided) => decided.installed,
            None => None,
        }
    }

    /// The progress of a case with one more entry, which is posted.
    pub(crate) fn with_entry(
        &self,
        alloc: Global,
        posting: &Posting<'_>,
        number: u32,
        case: &Case,
    ) -> Result<Progress, NoMemory>
        requires case { IsCase posting.now.plan.image case.now }
        requires stands { Stands posting.now.plan number posting.now.past case.now self.now }
        ensures { IfOk result (λ p. Stands posting.now.plan number (all_of posting.now) case.now p) }
    {
        let checked = self.checked + u32::from(posting.is_checked(number, case));
        let decided = match &self.decided {
            Some(decided) => Some(decided.with_entry(alloc, posting, number, case)?),
            None if checked >= posting.checks() => {
                Some(Decided::make(alloc, posting, number, case)?)
            }
            None => None,
        };
        Ok(Progress { checked, decided })
    }
}

/// The progress of each case with one more entry, which is posted.
pub(crate) fn progress_with(
    alloc: Global,
    posting: &Posting<'_>,
    cases: &[Case],
    progress: &[Progress],
) -> Result<Vec<Progress>, NoMemory>
    requires cases { AllByRecursion (IsCase posting.now.plan.image) cases.now }
    requires few { length cases.now < 4294967296 }
    requires stand { StandFrom posting.now.plan 0 posting.now.past cases.now progress.now }
    ensures { IfOk result (λ v. StandFrom posting.now.plan 0 (all_of posting.now) cases.now v.items) }
{
    let mut next = Vec::with_capacity(alloc, cases.len() + 1)?;
    for (number, case) in cases.iter().enumerate() {
        next.push(progress[number].with_entry(alloc, posting, number as u32, case)?)?;
    }
    Ok(next)
}
