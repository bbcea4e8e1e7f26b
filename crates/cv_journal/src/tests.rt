// Lines and a whole report of one worker's history from an independent transcription of the rules,
// as they stand and with one change each.
ghost use Rattle.std.specs.Prelude.{◌≤◌, length};

use crate::{JournalFail, read_entries, read_line};
use cv_base::{End, FailureKind, Mode, NoMemory};
use std::alloc::Global;
use std::test::Fail;

const REPORT: &str = "clearview report 2
job workers 1 checks 2 budget 1000 rounds 2 runs 6
entry 0 run 0 worker 0 mode learn adopted - end exit:7 turns 11 sites - output - tally - fired -
entry 1 run 1 worker 0 mode learn adopted - end exit:9 turns 11 sites - output - tally - fired -
entry 2 run 2 worker 0 mode live adopted 0:2 end failure:illegal-transfer:00010018:00000000 turns 7 sites 00010018 output - tally - fired -
version 0 entry - patches 0
";

fn is_line(alloc: Global, line: &str) -> Result<bool, NoMemory> {
    let entry = read_line(alloc, 2, line.as_bytes())?;
    Ok(entry.is_some())
}

#[test]
fn a_report_gives_its_entries(rt: HostRuntime) -> Result<(), Fail> {
    let entries = read_entries(rt.alloc(), REPORT.as_bytes())?;
    let entries = entries.as_slice();
    assert_eq!(rt; entries.len(), 3);
    assert!(rt; entries[1].end == End::Exit { code: 9 });
    let last = &entries[2];
    assert_eq!(rt; last.run, 2);
    assert!(rt; last.mode == Mode::Live);
    assert_eq!(rt; last.turns, 7);
    assert_eq!(rt; last.adopted.len(), 1);
    assert_eq!(rt; last.sites.as_slice(), [0x0001_0018].as_slice());
    let End::Failure { id, detail } = last.end else {
        return Err(Fail::from("no failure"));
    };
    assert!(rt; id.kind == FailureKind::IllegalTransfer);
    assert_eq!(rt; detail, 0);
    Ok(())
}

#[test]
fn what_no_run_has_is_read_too(rt: HostRuntime) -> Result<(), Fail> {
    let unsorted = is_line(
        rt.alloc(),
        "entry 2 run 2 worker 0 mode live adopted 1:2 end budget turns 4294967295 sites - output 0aff tally 0.1:1:0:held,0.0:1:1:failed,0.70:0:0:held fired 0.0:1,0.1:0",
    )?;
    assert!(rt; unsorted);
    let many_sites = is_line(
        rt.alloc(),
        "entry 2 run 2 worker 0 mode live adopted 0:2 end failure:crash-deep:00010018:0000000A turns 7 sites 00010018,00010018,00010018,00010018,00010018,00010018 output - tally - fired -",
    )?;
    assert!(rt; many_sites);
    Ok(())
}

#[test]
fn other_forms_are_no_lines(rt: HostRuntime) -> Result<(), Fail> {
    let number = is_line(
        rt.alloc(),
        "entry 02 run 2 worker 0 mode live adopted - end budget turns 7 sites - output - tally - fired -",
    )?;
    assert!(rt; !number);
    let past_32_bits = is_line(
        rt.alloc(),
        "entry 2 run 4294967296 worker 0 mode live adopted - end budget turns 7 sites - output - tally - fired -",
    )?;
    assert!(rt; !past_32_bits);
    let comma_behind = is_line(
        rt.alloc(),
        "entry 2 run 2 worker 0 mode live adopted 0:2, end budget turns 7 sites - output - tally - fired -",
    )?;
    assert!(rt; !comma_behind);
    let upper_case = is_line(
        rt.alloc(),
        "entry 2 run 2 worker 0 mode live adopted - end budget turns 7 sites - output 0A tally - fired -",
    )?;
    assert!(rt; !upper_case);
    let blank_behind = is_line(
        rt.alloc(),
        "entry 2 run 2 worker 0 mode live adopted - end budget turns 7 sites - output - tally - fired - ",
    )?;
    assert!(rt; !blank_behind);
    Ok(())
}

#[test]
fn faults_are_told_in_words(rt: HostRuntime) -> Result<(), Fail> {
    let alloc = rt.alloc();
    assert!(rt; fault_is(alloc, "", "not-report")?);
    assert!(rt; fault_is(alloc, "clearview report 22", "not-report")?);
    assert!(rt; fault_is(alloc, "clearview report 1", "old-report")?);
    assert!(rt; fault_is(alloc, "clearview report 2\n\nentry 1", "bad-entry 0")?);
    Ok(())
}

fn fault_is(alloc: Global, text: &str, words: &str) -> Result<bool, NoMemory>
    requires { length text.now ≤ 268435456 }
{
    match read_entries(alloc, text.as_bytes()) {
        Err(JournalFail::Refused(fault)) => {
            let told = fault.to_string(alloc)?;
            Ok(told.as_str() == words)
        }
        Ok(_entries) => Ok(false),
        Err(JournalFail::NoMemory) => Err(NoMemory),
    }
}
