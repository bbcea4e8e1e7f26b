ghost use Rattle.std.specs.Prelude.{◌≡◌, ◌<◌, length, IfOk};

use crate::Scores;
use cv_base::{CrashCause, End, Entry, FailureId, FailureKind, FiredRow, Items, Mode, NoMemory};
use std::alloc::Global;
use std::test::Fail;

/// The failure of the case.
const GUARD: FailureId = FailureId {
    kind: FailureKind::HeapGuard,
    pc: 0x10018,
};

/// A failure at the same pc, of another kind.
const CRASH: FailureId = FailureId {
    kind: FailureKind::Crash(CrashCause::Unreadable),
    pc: 0x10018,
};

/// A live run with this end, in which these repairs fired.
fn entry_with(alloc: Global, end: End, fired: &[FiredRow]) -> Result<Entry, NoMemory> {
    let fired = Items::from_slice(alloc, fired)?;
    Ok(Entry {
        run: 5,
        worker: 0,
        mode: Mode::Live,
        adopted: Items::make(alloc),
        end,
        turns: 11,
        sites: Items::make(alloc),
        output: Items::make(alloc),
        tally: Items::make(alloc),
        fired,
    })
}

fn failed(id: FailureId) -> End {
    End::Failure { id, detail: 4 }
}

fn fired(case: u32, index: u32) -> FiredRow {
    FiredRow {
        case,
        index,
        count: 1,
    }
}

/// Five repairs of case 1, over five entries.
fn five_repairs(alloc: Global) -> Result<Scores, NoMemory>
    ensures { IfOk result (λ k. length k.counts ≡ 5) }
{
    let won = entry_with(alloc, End::Exit { code: 7 }, &[fired(0, 3), fired(1, 0)])?;
    let crashed = entry_with(alloc, failed(CRASH), &[fired(1, 1)])?;
    let again = entry_with(alloc, failed(GUARD), &[])?;
    let spent = entry_with(alloc, End::Budget, &[fired(1, 4)])?;
    let mut scores = Scores::make(alloc, 1, GUARD, 5)?;
    scores.charge(&won, Some(0));
    scores.charge(&crashed, Some(0));
    scores.charge(&again, Some(2));
    scores.charge(&again, None);
    scores.charge(&spent, Some(4));
    Ok(scores)
}

/// The wins, the fails and the score of a repair.
fn row_of(scores: &Scores, repair: u32) -> (u32, u32, i64)
    requires { repair < length scores.now.counts }
{
    (
        scores.wins(repair),
        scores.fails(repair),
        scores.score(repair),
    )
}

#[test]
fn scores_of_five_repairs(rt: HostRuntime) -> Result<(), Fail> {
    let scores = five_repairs(rt.alloc())?;
    // a win and no fail
    assert_eq!(rt; row_of(&scores, 0), (1, 0, 2));
    // it fired in a run that failed otherwise
    assert_eq!(rt; row_of(&scores, 1), (0, 1, -1));
    // the failure came again while it was there
    assert_eq!(rt; row_of(&scores, 2), (0, 1, -1));
    // one of its number fired in another case
    assert_eq!(rt; row_of(&scores, 3), (0, 0, 1));
    // it fired in a run that did not end
    assert_eq!(rt; row_of(&scores, 4), (0, 0, 1));
    assert_eq!(rt; scores.best(), 0);
    Ok(())
}

#[test]
fn the_first_of_equal_repairs_is_the_best(rt: HostRuntime) -> Result<(), Fail> {
    let alloc = rt.alloc();
    let again = entry_with(alloc, failed(GUARD), &[])?;
    let won = entry_with(alloc, End::Exit { code: 0 }, &[fired(1, 2)])?;
    let mut scores = Scores::make(alloc, 1, GUARD, 3)?;
    assert_eq!(rt; scores.best(), 0);
    scores.charge(&again, Some(0));
    assert_eq!(rt; scores.best(), 1);
    scores.charge(&won, Some(2));
    assert_eq!(rt; scores.best(), 2);
    Ok(())
}
