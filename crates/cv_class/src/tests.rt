ghost use Rattle.std.specs.Prelude.{◌≡◌, length, IfOk};

use crate::Classes;
use cv_base::{Class, End, Entry, FailureId, FailureKind, Items, Mode, NoMemory, TallyRow};
use std::alloc::Global;
use std::test::Fail;

/// A live run that failed, with this tally.
fn entry_with(alloc: Global, tally: &[TallyRow]) -> Result<Entry, NoMemory> {
    let id = FailureId {
        kind: FailureKind::IllegalTransfer,
        pc: 0x10018,
    };
    let tally = Items::from_slice(alloc, tally)?;
    Ok(Entry {
        run: 2,
        worker: 0,
        mode: Mode::Live,
        adopted: Items::make(alloc),
        end: End::Failure { id, detail: 0 },
        turns: 7,
        sites: Items::make(alloc),
        output: Items::make(alloc),
        tally,
        fired: Items::make(alloc),
    })
}

fn row(case: u32, index: u32, checks: u32, violations: u32, last_held: bool) -> TallyRow {
    TallyRow {
        case,
        index,
        checks,
        violations,
        last_held,
    }
}

/// Seven candidates of case 3, over two entries.
fn seven_candidates(alloc: Global) -> Result<Classes, NoMemory>
    ensures { IfOk result (λ k. length k.marks ≡ 7) }
{
    let first = entry_with(
        alloc,
        &[
            row(2, 4, 2, 1, false),
            row(3, 0, 1, 1, false),
            row(3, 1, 5, 2, false),
            row(3, 2, 3, 1, true),
            row(3, 3, 4, 0, true),
            row(3, 5, 1, 1, false),
            row(3, 6, 2, 2, false),
        ],
    )?;
    let second = entry_with(
        alloc,
        &[
            row(2, 4, 1, 1, false),
            row(3, 0, 2, 1, false),
            row(3, 1, 1, 1, false),
            row(3, 2, 3, 0, true),
            row(3, 3, 4, 0, true),
            row(3, 6, 2, 2, true),
        ],
    )?;
    let mut classes = Classes::make(alloc, 3, 7)?;
    classes.count(&first);
    classes.count(&second);
    Ok(classes)
}

#[test]
fn classes_over_two_entries(rt: HostRuntime) -> Result<(), Fail> {
    let classes = seven_candidates(rt.alloc())?;
    // violated once in each entry, each time at the last check
    assert_eq!(rt; classes.class(0), Class::Highly);
    // twice in one of them
    assert_eq!(rt; classes.class(1), Class::Moderately);
    // its last check held
    assert_eq!(rt; classes.class(2), Class::Slightly);
    // checked, and never violated
    assert_eq!(rt; classes.class(3), Class::Not);
    // no row: those of its number are another case's
    assert_eq!(rt; classes.class(4), Class::Not);
    // a row in the first entry alone
    assert_eq!(rt; classes.class(5), Class::Slightly);
    // its last check held in the second entry
    assert_eq!(rt; classes.class(6), Class::Slightly);
    Ok(())
}
