use crate::calling::plan_of;
use crate::offices::{Order, take_rounds};
use cv_base::{Adopted, End, Entry, FailureId, FailureKind};
use cv_core::run_in_order;
use cv_manager::Manager;
use std::test::Fail;

/// What is told of an entry: its run and worker, end and turns, the versions that it adopted, how many
/// candidates were checked, and how many repairs fired.
#[derive(Clone, Copy)]
struct Row<'a> {
    run: u32,
    worker: u32,
    end: End,
    turns: u32,
    adopted: &'a [Adopted],
    checked: usize,
    fired: usize,
}

/// The end of a call of the first procedure.
const SEVEN: End = End::Exit { code: 7 };

/// The end of a call of the second one.
const NINE: End = End::Exit { code: 9 };

/// The end of a call of the address 0.
const FAILED: End = End::Failure {
    id: FailureId {
        kind: FailureKind::IllegalTransfer,
        pc: 0x0001_0018,
    },
    detail: 0,
};

/// So many block entries in a row under a version.
const fn under(version: u32, entries: u32) -> Adopted {
    Adopted { version, entries }
}

/// The row of an entry without checks and firings.
fn told(run: u32, worker: u32, end: End, turns: u32, adopted: &[Adopted]) -> Row<'_> {
    Row {
        run,
        worker,
        end,
        turns,
        adopted,
        checked: 0,
        fired: 0,
    }
}

/// Whether an entry is as a row tells.
fn is_told(entry: &Entry, row: &Row) -> bool {
    entry.run == row.run
        && entry.worker == row.worker
        && entry.end == row.end
        && entry.turns == row.turns
        && entry.adopted.as_slice() == row.adopted
        && entry.tally.as_slice().len() == row.checked
        && entry.fired.as_slice().len() == row.fired
}

/// Whether a history is as its rows tell.
fn are_told(history: &[Entry], rows: &[Row]) -> bool {
    history.len() == rows.len()
        && history
            .iter()
            .zip(rows.iter())
            .all(|(entry, row)| is_told(entry, row))
}

/// Whether the history is that of the crossed runs. Run 2 began before the case was opened by run 3,
/// and checks the five candidates of its last block; run 4 checks all 25 of its way, and after it
/// repair 0 stands, which cures run 5.
fn is_crossed(history: &[Entry]) -> bool {
    are_told(
        history,
        &[
            told(0, 0, SEVEN, 11, &[]),
            told(1, 1, NINE, 11, &[]),
            told(3, 1, FAILED, 7, &[under(0, 2)]),
            Row {
                checked: 5,
                ..told(2, 0, FAILED, 7, &[under(0, 1), under(1, 1)])
            },
            Row {
                checked: 25,
                ..told(4, 0, FAILED, 7, &[under(1, 2)])
            },
            Row {
                fired: 1,
                ..told(5, 1, SEVEN, 11, &[under(2, 4)])
            },
        ],
    )
}

/// The installed repair of the first case.
fn installed(manager: &Manager) -> Option<u32> {
    if manager.case_count() == 0 {
        return None;
    }
    manager.installed(0)
}

/// A run in flight goes on under the version of another run's post.
#[test]
fn a_run_goes_on_under_the_version_of_another_post(rt: HostRuntime) -> Result<(), Fail> {
    let plan = plan_of(rt.alloc())?;
    let book = take_rounds(&rt, rt.alloc(), plan, Order::InTurn, Order::Crossed);
    let manager = book.manager();
    assert!(rt; is_crossed(manager.history()));
    assert!(rt; manager.case_count() == 1);
    assert!(rt; manager.version_count() == 3);
    assert!(rt; installed(manager) == Some(0));
    Ok(())
}

/// Whether two entries are equal.
fn is_same(a: &Entry, b: &Entry) -> bool {
    a.run == b.run
        && a.worker == b.worker
        && a.mode == b.mode
        && a.adopted.as_slice() == b.adopted.as_slice()
        && a.end == b.end
        && a.turns == b.turns
        && a.sites.as_slice() == b.sites.as_slice()
        && a.output.as_slice() == b.output.as_slice()
        && a.tally.as_slice() == b.tally.as_slice()
        && a.fired.as_slice() == b.fired.as_slice()
}

/// Whether two books have the same history of six entries and as many versions.
fn have_same_history(a: &Manager, b: &Manager) -> bool {
    let (first, second) = (a.history(), b.history());
    a.version_count() == b.version_count()
        && first.len() == 6
        && second.len() == 6
        && first.iter().zip(second.iter()).all(|(a, b)| is_same(a, b))
}

/// Where one pass takes all runs, the history is that of the runs in order; so it is where memory is
/// refused to a post, and what comes back is posted once more (docs/PROVING.md, "Refusals one at a
/// time").
#[test]
fn what_a_refused_post_hands_back_is_posted_again(rt: HostRuntime) -> Result<(), Fail> {
    let plan = plan_of(rt.alloc())?;
    let in_order = run_in_order(rt.alloc(), plan.copied(rt.alloc())?)?;
    let book = take_rounds(&rt, rt.alloc(), plan, Order::Alone(2), Order::Alone(4));
    assert!(rt; have_same_history(book.manager(), in_order.manager()));
    Ok(())
}
