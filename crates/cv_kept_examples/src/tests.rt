use crate::calling::plan_of;
use crate::marking::MarkingGate;
use cv_base::{Adopted, End, Entry};
use cv_core::Book;
use cv_edge::{Gate, MemDisk, StepGate};
use cv_resume::{Resumed, run_kept};
use std::alloc::Global;
use std::sync::Wait;
use std::test::Fail;
use std::thread::Threads;

/// The book of all rounds, over a disk that keeps them.
fn book_over<R: Threads + Wait + Sync, G: Gate>(
    rt: &R,
    alloc: Global,
    disk: &mut MemDisk,
    gate: &G,
) -> Result<Book, Fail> {
    match run_kept(rt, alloc, plan_of(alloc)?, disk, gate) {
        Ok(Resumed::Done(book)) => Ok(book),
        _ => Err(Fail::from("all rounds are kept")),
    }
}

/// Whether an entry is that of the loop, which found the version of the other run's post at its third
/// block entry.
fn is_loop_with_new_version(entry: &Entry) -> bool {
    let adopted = [
        Adopted {
            version: 0,
            entries: 2,
        },
        Adopted {
            version: 1,
            entries: 993,
        },
    ];
    entry.run == 2
        && matches!(entry.end, End::Budget)
        && entry.turns == 1000
        && entry.adopted.as_slice() == adopted.as_slice()
}

/// Whether a book has that entry among its four.
fn has_loop(book: &Book) -> bool {
    let history = book.manager().history();
    history.len() == 4 && history.iter().any(is_loop_with_new_version)
}

/// The post of one run falls between the second and the third block entry of the other, which goes on
/// under the version that came of it; and both are kept. A second call goes on from what is kept: the
/// history is the same, and no worker passes its gate.
#[test]
fn rounds_of_two_workers_are_kept(rt: HostRuntime) -> Result<(), Fail> {
    let mut disk = MemDisk::make(rt.alloc());
    let stepping = StepGate::make(rt.alloc(), 100_000_000)?;
    let book = book_over(&rt, rt.alloc(), &mut disk, &stepping)?;
    assert!(rt; has_loop(&book));
    let marking = MarkingGate::make();
    let again = book_over(&rt, rt.alloc(), &mut disk, &marking)?;
    assert!(rt; has_loop(&again));
    assert!(rt; !marking.is_passed());
    Ok(())
}
