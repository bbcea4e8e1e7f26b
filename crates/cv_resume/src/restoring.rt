//! The book that kept pieces come to.
ghost use Rattle.std.specs.List.{concat};
ghost use Rattle.std.specs.Prelude.{◌≡◌, IfErr, IfOk};
ghost use Rattle.cv_audit.specs.Judged.{IsBookOf};
ghost use Rattle.cv_histories.specs.Report.{entry_lines};
ghost use Rattle.cv_resume.specs.Refusing.{IsPartFault, IsRefusedBy};
ghost use Rattle.cv_resume.specs.Restored.{AreRefused, IsRestored, IsUpToRound};

use crate::counting::rounds_done;
use crate::{KeptFault, RestoreFail, entries_of};
use cv_audit::{Rebuilt, rebuild};
use cv_base::{Entry, Items, Plan};
use cv_core::Book;
use cv_journal::{lines_read_exactly, numbers_are_read_back, pieces_are_some, pieces_join_again};
use std::alloc::Global;

/// A book that was restored.
#[derive(Drop)]
pub struct Restored {
    /// The plan, with the entries that the pieces hold.
    pub book: Book,
    /// How many rounds of the plan are done: all their runs have an entry, and no others have.
    pub rounds: u32,
}

/// The book that kept pieces hold under a plan, and how many of its rounds are done. Each entry is
/// run again: nothing that the pieces say is trusted.
///
/// `BadPiece`, `Wrong` and `Partial` come exactly where `KeptFault` says so, the earlier of them
/// first; `answers_are_one` is the law. `TooLong` is no answer of this call.
pub fn restore(alloc: Global, plan: Plan, pieces: &[Items<u8>]) -> Result<Restored, RestoreFail>
    ensures restored { IfOk result (IsRestored plan pieces.now) }
    ensures refused { IfErr result (AreRefused plan pieces.now) }
    ensures joined { IfOk result (λ r. concat pieces.now ≡ entry_lines r.book.past) }
{
    lines_read_exactly();
    numbers_are_read_back();
    pieces_join_again();
    pieces_are_some();
    match entries_of(alloc, pieces)? {
        Ok(entries) => rebuilt(alloc, plan, entries.as_slice()),
        Err(piece) => Err(RestoreFail::Refused(KeptFault::BadPiece(piece))),
    }
}

/// The book of entries, the oldest first, which are those of whole rounds.
fn rebuilt(alloc: Global, plan: Plan, entries: &[Entry]) -> Result<Restored, RestoreFail>
    ensures book { IfOk result (λ r. IsBookOf plan entries.now r.book) }
    ensures up_to { IfOk result IsUpToRound }
    ensures refused { IfErr result (IsRefusedBy plan entries.now) }
{
    match rebuild(alloc, plan, entries)? {
        Rebuilt::Legal(book) => whole(book),
        Rebuilt::Wrong { at, clause } => Err(RestoreFail::Refused(KeptFault::Wrong(at, clause))),
    }
}

/// The book, whose entries are those of whole rounds.
fn whole(book: Book) -> Result<Restored, RestoreFail>
    ensures book { IfOk result (λ r. r.book ≡ book) }
    ensures up_to { IfOk result IsUpToRound }
    ensures refused { IfErr result (IsPartFault book.plan book.past) }
{
    match rounds_done(&book) {
        Ok(rounds) => Ok(Restored { book, rounds }),
        Err(round) => Err(RestoreFail::Refused(KeptFault::Partial(round))),
    }
}
