// The pieces of the indirect-call example: its report's entry lines, from an independent
// transcription of the rules, as they stand and with one change each.
use crate::{KeptFault, RestoreFail, Restored, Resumed, restore, resume};
use cv_base::{Items, NoMemory, Plan};
use cv_edge::{MemDisk, OpenGate};
use cv_image::flat;
use cv_job::read_job;
use cv_keep::recover;
use std::alloc::Global;
use std::test::Fail;

/// Reads an address, and calls it.
const CALLING: [u32; 13] = [
    0x0000_0513, // addi x10, x0, 0
    0xff01_0593, // addi x11, x2, -16
    0x0040_0613, // addi x12, x0, 4
    0x03f0_0893, // addi x17, x0, 63
    0x0000_0073, // ecall (read)
    0xff01_2303, // lw x6, -16(x2)
    0x0003_00e7, // jalr x1, 0(x6)
    0x05d0_0893, // addi x17, x0, 93
    0x0000_0073, // ecall (exit)
    0x0070_0513, // addi x10, x0, 7
    0x0000_8067, // jalr x0, 0(x1)
    0x0090_0513, // addi x10, x0, 9
    0x0000_8067, // jalr x0, 0(x1)
];

const JOB: &str = r#"{"image":"program","workers":1,"checks":2,"budget":1000,"rounds":[
{"mode":"learn","inputs":["24000100","2C000100"]},
{"mode":"live","inputs":["00000000","00000000","00000000","00000000"]}]}"#;

const LEARNED: &str =
    "entry 0 run 0 worker 0 mode learn adopted - end exit:7 turns 11 sites - output - tally - fired -
entry 1 run 1 worker 0 mode learn adopted - end exit:9 turns 11 sites - output - tally - fired -
";

const LIVE: &str =
    "entry 2 run 2 worker 0 mode live adopted 0:2 end failure:illegal-transfer:00010018:00000000 turns 7 sites 00010018 output - tally - fired -
entry 3 run 3 worker 0 mode live adopted 1:2 end failure:illegal-transfer:00010018:00000000 turns 7 sites 00010018 output - tally 0.0:1:1:failed,0.1:1:0:held,0.2:1:0:held,0.3:1:0:held,0.4:1:0:held,0.6:1:0:held,0.7:1:0:held,0.8:1:0:held,0.9:1:0:held,0.10:1:0:held,0.11:1:0:held,0.12:1:0:held,0.13:1:0:held,0.14:1:0:held,0.15:1:0:held,0.16:1:0:held,0.17:1:0:held,0.18:1:0:held,0.19:1:0:held,0.20:1:0:held,0.32:1:0:held,0.34:1:0:held,0.37:1:0:held,0.38:1:0:held,0.40:1:0:held fired -
entry 4 run 4 worker 0 mode live adopted 1:2 end failure:illegal-transfer:00010018:00000000 turns 7 sites 00010018 output - tally 0.0:1:1:failed,0.1:1:0:held,0.2:1:0:held,0.3:1:0:held,0.4:1:0:held,0.6:1:0:held,0.7:1:0:held,0.8:1:0:held,0.9:1:0:held,0.10:1:0:held,0.11:1:0:held,0.12:1:0:held,0.13:1:0:held,0.14:1:0:held,0.15:1:0:held,0.16:1:0:held,0.17:1:0:held,0.18:1:0:held,0.19:1:0:held,0.20:1:0:held,0.32:1:0:held,0.34:1:0:held,0.37:1:0:held,0.38:1:0:held,0.40:1:0:held fired -
entry 5 run 5 worker 0 mode live adopted 2:4 end exit:7 turns 11 sites - output - tally - fired 0.0:1
";

/// The first run exits with 8 in place of 7.
const OTHER_END: &str =
    "entry 0 run 0 worker 0 mode learn adopted - end exit:8 turns 11 sites - output - tally - fired -
entry 1 run 1 worker 0 mode learn adopted - end exit:9 turns 11 sites - output - tally - fired -
";

/// The first run alone.
const HALF: &str =
    "entry 0 run 0 worker 0 mode learn adopted - end exit:7 turns 11 sites - output - tally - fired -
";

fn calling_plan(alloc: Global) -> Result<Plan, Fail> {
    let mut bytes = Vec::new(alloc);
    for word in CALLING {
        bytes.extend_from_slice(&word.to_le_bytes())?;
    }
    let image = flat(alloc, bytes.as_slice())?;
    Ok(read_job(alloc, JOB.as_bytes())?.into_plan(image))
}

fn pieces_of(alloc: Global, texts: &[&str]) -> Result<Vec<Items<u8>>, NoMemory> {
    let mut pieces = Vec::new(alloc);
    for text in texts {
        pieces.push(Items::from_slice(alloc, text.as_bytes())?)?;
    }
    Ok(pieces)
}

/// How many rounds these pieces hold, or what they are refused for.
fn rounds_in(alloc: Global, texts: &[&str]) -> Result<Result<u32, KeptFault>, Fail> {
    let plan = calling_plan(alloc)?;
    let pieces = pieces_of(alloc, texts)?;
    match restore(alloc, plan, pieces.as_slice()) {
        Ok(restored) => Ok(Ok(restored.rounds)),
        Err(RestoreFail::Refused(fault)) => Ok(Err(fault)),
        Err(RestoreFail::NoMemory) => Err(Fail::from("no memory")),
    }
}

#[test]
fn whole_rounds_are_restored(rt: HostRuntime) -> Result<(), Fail> {
    assert_eq!(rt; rounds_in(rt.alloc(), &[])?, Ok(0));
    assert_eq!(rt; rounds_in(rt.alloc(), &[LEARNED])?, Ok(1));
    assert_eq!(rt; rounds_in(rt.alloc(), &[LEARNED, LIVE])?, Ok(2));
    Ok(())
}

#[test]
fn other_pieces_are_refused(rt: HostRuntime) -> Result<(), Fail> {
    let twice = rounds_in(rt.alloc(), &[LEARNED, LEARNED])?;
    assert_eq!(rt; twice, Err(KeptFault::BadPiece(1)));
    let other_end = rounds_in(rt.alloc(), &[OTHER_END])?;
    assert_eq!(rt; other_end, Err(KeptFault::Wrong(0, 4)));
    let half = rounds_in(rt.alloc(), &[HALF])?;
    assert_eq!(rt; half, Err(KeptFault::Partial(0)));
    Ok(())
}

#[test]
fn each_round_is_kept_as_its_lines(rt: HostRuntime) -> Result<(), Fail> {
    let mut disk = MemDisk::make(rt.alloc());
    let (mut keep, kept) = recover(rt.alloc(), &mut disk)?;
    let Restored { book, rounds } = restore(
        rt.alloc(),
        calling_plan(rt.alloc())?,
        kept.as_slice(),
    )?;
    let resumed = resume(
        &rt,
        rt.alloc(),
        book,
        rounds,
        &mut keep,
        &mut disk,
        &OpenGate,
    )?;
    assert!(rt; matches!(resumed, Resumed::Done(_)));
    let (_, kept) = recover(rt.alloc(), &mut disk)?;
    let wanted = pieces_of(rt.alloc(), &[LEARNED, LIVE])?;
    assert!(rt; kept.as_slice() == wanted.as_slice());
    Ok(())
}
