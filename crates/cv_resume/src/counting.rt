//! How many rounds of a book are done.
ghost use Rattle.std.specs.List.{AllByRecursion};
ghost use Rattle.std.specs.Prelude.{◌≡◌, ◌≢◌, ◌≤◌, length, reverse, IfErr, IfOk, IsFalse, IsTrue};
ghost use Rattle.cv_base.specs.declared.entries.Entry.{Entry as AnEntry};
ghost use Rattle.cv_desk.specs.Openings.{IsUpTo};
ghost use Rattle.cv_histories.specs.Legal.{IsLegal, round_of};
ghost use Rattle.cv_resume.specs.Refusing.{HasEntryOf};
ghost use Rattle.cv_resume.specs.Restored.{IsFirstPart};

use cv_audit::{entries_are_contained, missing, round_of};
use cv_base::{Entry, Plan};
use cv_core::Book;
use cv_laws::earlier_is_below;

/// How many rounds are done, where all their runs have an entry and no others have; else the first
/// round of which some runs have an entry and some have none.
pub(crate) fn rounds_done(book: &Book) -> Result<u32, u32>
    ensures up_to { IfOk result (λ n. IsUpTo book.now.plan n book.now.past) }
    ensures within { IfOk result (λ n. n ≤ length book.now.plan.rounds) }
    ensures part { IfErr result (IsFirstPart book.now.plan book.now.past) }
    ensures legal { IsLegal book.now.plan book.now.past }
{
    earlier_is_below();
    let plan = book.plan();
    let history = book.manager().history();
    let Some(run) = missing(book) else {
        return Ok(rounds_of(plan));
    };
    let round = round_of(plan, run);
    if is_begun(plan, history, round) {
        return Err(round);
    }
    Ok(round)
}

/// Whether an entry of a history is of this round.
fn is_begun(plan: &Plan, history: &[Entry], round: u32) -> bool
    ensures some { IsTrue result → HasEntryOf plan.now round (reverse history.now) }
    ensures none { IsFalse result → AllByRecursion (λ (o : AnEntry). round_of plan.now o ≢ round) (reverse history.now) }
{
    entries_are_contained();
    for entry in history {
        if round_of(plan, entry.run) == round {
            return true;
        }
    }
    false
}

/// The number of rounds of a plan.
pub(crate) fn rounds_of(plan: &Plan) -> u32
    ensures { result ≡ length plan.now.rounds }
{
    plan.rounds.as_slice().len() as u32
}
