use crate::calling::{FOUR_FAILURES, LOOP};
use crate::states::{At, steps_through};
use std::test::Fail;

/// A row without frames, of x6, which holds the address that is called.
const fn outside(turn: u32, pc: u32, value: u32, since: Option<u32>) -> At {
    At {
        turn,
        pc,
        frames: 0,
        reg: 6,
        value,
        since,
    }
}

/// A row in one call, of x6.
const fn called(turn: u32, pc: u32, value: u32, since: Option<u32>) -> At {
    At {
        turn,
        pc,
        frames: 1,
        reg: 6,
        value,
        since,
    }
}

/// A live run in which a repair fires before turn 6: forwards, back, and twice to one turn.
#[test]
fn a_repaired_run_is_stepped_through(rt: HostRuntime) -> Result<(), Fail> {
    let rows = [
        called(7, 0x0001_0024, 0x0001_0024, Some(6)),
        outside(10, 0x0001_0020, 0x0001_0024, Some(6)),
        outside(6, 0x0001_0018, 0x0001_0034, Some(5)),
        outside(6, 0x0001_0018, 0x0001_0034, Some(5)),
        outside(1, 0x0001_0004, 0, None),
    ];
    assert!(rt; steps_through(rt.alloc(), FOUR_FAILURES, 5, &rows, 11)?);
    Ok(())
}

/// A learn run, which calls the second procedure.
#[test]
fn a_learn_run_is_stepped_through(rt: HostRuntime) -> Result<(), Fail> {
    let rows = [
        called(8, 0x0001_0030, 0x0001_002c, Some(5)),
        outside(5, 0x0001_0014, 0, None),
    ];
    assert!(rt; steps_through(rt.alloc(), FOUR_FAILURES, 1, &rows, 11)?);
    Ok(())
}

/// A run that ended by a failure, up to its last turn.
#[test]
fn a_failed_run_is_stepped_through(rt: HostRuntime) -> Result<(), Fail> {
    let rows = [outside(6, 0x0001_0018, 0, None)];
    assert!(rt; steps_through(rt.alloc(), FOUR_FAILURES, 2, &rows, 7)?);
    Ok(())
}

/// A run that ended by its budget, with a frame for each call.
#[test]
fn a_looping_run_is_stepped_through(rt: HostRuntime) -> Result<(), Fail> {
    let rows = [
        At {
            turn: 999,
            pc: 0x0001_0018,
            frames: 993,
            reg: 1,
            value: 0x0001_001c,
            since: Some(6),
        },
        outside(6, 0x0001_0018, 0x0001_0018, Some(5)),
    ];
    assert!(rt; steps_through(rt.alloc(), LOOP, 2, &rows, 1000)?);
    Ok(())
}
