use crate::community;
use cv_base::{Adopted, End, Entry, Invariant, Items, Plan};
use cv_core::{Book, run_in_order};
use cv_edge::{OpenGate, StepGate};
use cv_image::flat;
use cv_job::read_job;
use std::alloc::Global;
use std::sync::Wait;
use std::test::Fail;
use std::thread::Threads;

/// Reads an address, and calls it.
const CALLING: [u32; 13] = [
    0x0000_0513, // addi x10, x0, 0
    0xff01_0593, // addi x11, x2, -16
    0x0040_0613, // addi x12, x0, 4
    0x03f0_0893, // addi x17, x0, 63
    0x0000_0073, // ecall (read)
    0xff01_2303, // lw x6, -16(x2)
    0x0003_00e7, // jalr x1, 0(x6)
    0x05d0_0893, // addi x17, x0, 93
    0x0000_0073, // ecall (exit)
    0x0070_0513, // addi x10, x0, 7
    0x0000_8067, // jalr x0, 0(x1)
    0x0090_0513, // addi x10, x0, 9
    0x0000_8067, // jalr x0, 0(x1)
];

/// Reads a number, and exits with it.
const READING: [u32; 9] = [
    0x0000_0513, // addi x10, x0, 0
    0xff01_0593, // addi x11, x2, -16
    0x0040_0613, // addi x12, x0, 4
    0x03f0_0893, // addi x17, x0, 63
    0x0000_0073, // ecall (read)
    0xff01_2303, // lw x6, -16(x2)
    0x0003_0513, // addi x10, x6, 0
    0x05d0_0893, // addi x17, x0, 93
    0x0000_0073, // ecall (exit)
];

/// Two good calls; then one that calls its own call until its turns are used up, and a bad one.
const LOOP_AND_FAILURE: &str = r#"
{"mode":"learn","inputs":["24000100","2C000100"]},
{"mode":"live","inputs":["18000100","00000000"]}"#;

/// Two good calls; then four bad ones.
const FOUR_FAILURES: &str = r#"
{"mode":"learn","inputs":["24000100","2C000100"]},
{"mode":"live","inputs":["00000000","00000000","00000000","00000000"]}"#;

/// Four numbers.
const FOUR_NUMBERS: &str = r#"
{"mode":"learn","inputs":["01000000","02000000","03000000","04000000"]}"#;

/// Five numbers.
const FIVE_NUMBERS: &str = r#"
{"mode":"learn","inputs":["01000000","02000000","03000000","04000000","FFFFFFFF"]}"#;

/// The plan of a program and rounds, with 2 checks and a budget of 1,000 turns.
fn plan_of(alloc: Global, words: &[u32], workers: u32, rounds: &str) -> Result<Plan, Fail> {
    let mut bytes = Vec::new(alloc);
    for word in words {
        bytes.extend_from_slice(&word.to_le_bytes())?;
    }
    let image = flat(alloc, bytes.as_slice())?;
    let job = format!(in alloc;
        r#"{{"image":"program","workers":{workers},"checks":2,"budget":1000,"rounds":[{rounds}]}}"#
    )?;
    Ok(read_job(alloc, job.as_bytes())?.into_plan(image))
}

/// Whether an entry is that of the loop, which found the version of the other run's post at its third
/// block entry.
fn is_loop_with_new_version(entry: &Entry) -> bool {
    let adopted = [
        Adopted {
            version: 0,
            entries: 2,
        },
        Adopted {
            version: 1,
            entries: 993,
        },
    ];
    entry.run == 2
        && matches!(entry.end, End::Budget)
        && entry.adopted.as_slice() == adopted.as_slice()
}

/// The post of one run falls between the second and the third block entry of the other, which goes on
/// under the version that came of it.
#[test]
fn a_run_adopts_a_version_that_came_while_it_ran(rt: HostRuntime) -> Result<(), Fail> {
    let plan = plan_of(rt.alloc(), &CALLING, 2, LOOP_AND_FAILURE)?;
    let gate = StepGate::make(rt.alloc(), 100_000_000)?;
    let book = community(&rt, rt.alloc(), plan, &gate)?;
    assert!(rt;
        book.manager()
            .history()
            .iter()
            .any(is_loop_with_new_version)
    );
    Ok(())
}

/// What so many workers learn of the numbers.
fn learned<R: Threads + Wait + Sync>(
    rt: &R,
    alloc: Global,
    workers: u32,
    numbers: &str,
) -> Result<Items<Invariant>, Fail> {
    let plan = plan_of(alloc, &READING, workers, numbers)?;
    let book = community(rt, alloc, plan, &OpenGate)?;
    Ok(book.manager().learned(alloc)?)
}

/// Whether 1, 2 and 16 workers learn one list of the numbers, in which an invariant stands.
fn all_learn<R: Threads + Wait + Sync>(
    rt: &R,
    alloc: Global,
    numbers: &str,
    invariant: &Invariant,
) -> Result<bool, Fail> {
    let by_one = learned(rt, alloc, 1, numbers)?;
    let by_two = learned(rt, alloc, 2, numbers)?;
    let by_sixteen = learned(rt, alloc, 16, numbers)?;
    Ok(
        by_two.as_slice() == by_one.as_slice()
            && by_sixteen.as_slice() == by_one.as_slice()
            && by_one.as_slice().contains(invariant),
    )
}

/// Up to four values are each named.
#[test]
fn one_two_and_sixteen_workers_learn_the_same_values(rt: HostRuntime) -> Result<(), Fail> {
    let one_of = Invariant::OneOf {
        point: 0x0001_0018,
        reg: 6,
        values: Items::from_slice(rt.alloc(), &[1, 2, 3, 4])?,
    };
    assert!(rt; all_learn(&rt, rt.alloc(), FOUR_NUMBERS, &one_of)?);
    Ok(())
}

/// Of more than four values the least is told.
#[test]
fn one_two_and_sixteen_workers_learn_the_same_bound(rt: HostRuntime) -> Result<(), Fail> {
    let lower = Invariant::Lower {
        point: 0x0001_0018,
        reg: 6,
        bound: 0xffff_ffff,
    };
    assert!(rt; all_learn(&rt, rt.alloc(), FIVE_NUMBERS, &lower)?);
    Ok(())
}

/// Whether two entries are equal.
fn is_same(a: &Entry, b: &Entry) -> bool {
    a.run == b.run
        && a.worker == b.worker
        && a.mode == b.mode
        && a.adopted.as_slice() == b.adopted.as_slice()
        && a.end == b.end
        && a.turns == b.turns
        && a.sites.as_slice() == b.sites.as_slice()
        && a.output.as_slice() == b.output.as_slice()
        && a.tally.as_slice() == b.tally.as_slice()
        && a.fired.as_slice() == b.fired.as_slice()
}

/// Whether two books have the same history of so many entries.
fn have_same_history(a: &Book, b: &Book, count: usize) -> bool {
    let a = a.manager().history();
    let b = b.manager().history();
    a.len() == count && b.len() == count && a.iter().zip(b.iter()).all(|(a, b)| is_same(a, b))
}

/// The example of the four failures, the last of which is repaired.
#[test]
fn one_worker_takes_the_runs_in_order(rt: HostRuntime) -> Result<(), Fail> {
    let plan = plan_of(rt.alloc(), &CALLING, 1, FOUR_FAILURES)?;
    let in_order = run_in_order(rt.alloc(), plan.copied(rt.alloc())?)?;
    let book = community(&rt, rt.alloc(), plan, &OpenGate)?;
    assert!(rt; have_same_history(&book, &in_order, 6));
    Ok(())
}
