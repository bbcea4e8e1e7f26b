use crate::{Did, Event, World};
use cv_base::{Adopted, End, Entry, FiredRow, Plan};
use cv_image::flat;
use cv_job::read_job;
use cv_manager::Manager;
use std::alloc::Global;
use std::test::Fail;

/// Reads an address and a number, calls the address, and loads from the number where that is asked.
const TWO_SLOTS: [u32; 14] = [
    0x0000_0513, // addi x10, x0, 0
    0xff01_0593, // addi x11, x2, -16
    0x0080_0613, // addi x12, x0, 8
    0x03f0_0893, // addi x17, x0, 63
    0x0000_0073, // ecall (read)
    0xff01_2303, // lw x6, -16(x2)
    0xff41_2383, // lw x7, -12(x2)
    0x0003_00e7, // jalr x1, 0(x6)
    0x05d0_0893, // addi x17, x0, 93
    0x0000_0073, // ecall (exit)
    0x0003_a503, // lw x10, 0(x7)
    0x0000_8067, // jalr x0, 0(x1)
    0x0090_0513, // addi x10, x0, 9
    0x0000_8067, // jalr x0, 0(x1)
];

/// Two good runs; then four calls of a bad address, and two with a number that can be loaded.
const JOB: &str = r#"{"image":"two-slots","workers":3,"checks":2,"budget":1000,"rounds":[
{"mode":"learn","inputs":["2800010000000100","3000010000000000"]},
{"mode":"live","inputs":["0000000000000000","0000000000000000","0000000000000000","0000000000000000","0000000000000100","0000000000000100"]}]}"#;

/// The plan of the job.
fn plan_of(alloc: Global) -> Result<Plan, Fail> {
    let mut bytes = Vec::new(alloc);
    for word in &TWO_SLOTS {
        bytes.extend_from_slice(&word.to_le_bytes())?;
    }
    let image = flat(alloc, bytes.as_slice())?;
    Ok(read_job(alloc, JOB.as_bytes())?.into_plan(image))
}

/// Runs what an instance has to its end.
fn run(alloc: Global, world: &mut World, i: u32) -> Result<(), Fail> {
    for _ in 0..100 {
        let entered = world.step(alloc, Event::Enter(i))?;
        let turned = world.step(alloc, Event::Turn(i))?;
        if entered == Did::Disabled && turned == Did::Disabled {
            break;
        }
    }
    Ok(())
}

/// An instance takes the next run, and posts it: whether both were done.
fn take_next(alloc: Global, world: &mut World, i: u32) -> Result<bool, Fail> {
    let begun = world.step(alloc, Event::Begin(i))?;
    let again = world.step(alloc, Event::Begin(i))?;
    run(alloc, world, i)?;
    let posted = world.step(alloc, Event::Post(i))?;
    Ok(begun == Did::Done && again == Did::Disabled && posted == Did::Done)
}

/// Instance 0 takes five runs, one after another: whether all were done.
fn take_five(alloc: Global, world: &mut World) -> Result<bool, Fail> {
    for _ in 0..5 {
        if !take_next(alloc, world, 0)? {
            return Ok(false);
        }
    }
    Ok(true)
}

/// Each of three instances begins a run: whether each did.
fn begin_all(alloc: Global, world: &mut World) -> Result<bool, Fail> {
    for i in 0..3 {
        if world.step(alloc, Event::Begin(i))? == Did::Disabled {
            return Ok(false);
        }
    }
    Ok(true)
}

/// Each runs to its end.
fn run_all(alloc: Global, world: &mut World) -> Result<(), Fail> {
    for i in 0..3 {
        run(alloc, world, i)?;
    }
    Ok(())
}

/// Each posts its run: whether each did.
fn post_all(alloc: Global, world: &mut World) -> Result<bool, Fail> {
    for i in 0..3 {
        if world.step(alloc, Event::Post(i))? == Did::Disabled {
            return Ok(false);
        }
    }
    Ok(true)
}

/// Whether an entry is that of a run that repair 0 of case 0 won under version 2.
fn is_late_win(entry: &Entry) -> bool {
    let adopted = [Adopted {
        version: 2,
        entries: 4,
    }];
    let fired = [FiredRow {
        case: 0,
        index: 0,
        count: 1,
    }];
    matches!(entry.end, End::Exit { code: 1299 })
        && entry.turns == 12
        && entry.adopted.as_slice() == adopted.as_slice()
        && entry.fired.as_slice() == fired.as_slice()
}

/// The installed repair of the first case.
fn installed(manager: &Manager) -> Option<u32> {
    if manager.case_count() == 0 {
        return None;
    }
    manager.installed(0)
}

/// How many of these entries are late wins.
fn late_wins(history: &[Entry]) -> usize {
    let mut wins = 0;
    for entry in history {
        if is_late_win(entry) && wins < 1000 {
            wins += 1;
        }
    }
    wins
}

/// Instance 0 posts runs 0 to 4; then each instance begins one, runs it, and posts it. No run is left
/// then.
fn play(alloc: Global, world: &mut World) -> Result<bool, Fail> {
    let taken = take_five(alloc, world)?;
    let begun = begin_all(alloc, world)?;
    run_all(alloc, world)?;
    let posted = post_all(alloc, world)?;
    let over = world.step(alloc, Event::Begin(0))?;
    Ok(taken && begun && posted && over == Did::Disabled)
}

/// Whether two late wins were posted and repair 1 of the first case stays installed.
fn is_told(manager: &Manager) -> bool {
    let history = manager.history();
    history.len() == 8
        && late_wins(history) == 2
        && manager.changes().len() == 2
        && installed(manager) == Some(1)
}

/// The example of two slots: the first five runs install repair 0 of case 0, and three instances then
/// have runs under it. The first of these fails, so that repair 1 is installed; the late wins of the
/// others lift repair 0 to the same score, and repair 1 stays installed.
#[test]
fn late_wins_leave_the_installed_repair(rt: HostRuntime) -> Result<(), Fail> {
    let plan = plan_of(rt.alloc())?;
    assert!(rt; plan.workers == 3);
    let mut world = World::make(rt.alloc(), plan, 3)?;
    assert!(rt; play(rt.alloc(), &mut world)?);
    assert!(rt; is_told(world.book().manager()));
    Ok(())
}
