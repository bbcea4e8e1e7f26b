ghost use Rattle.std.specs.Prelude.{◌≡◌, ◌++◌, string_bytes, IfOk, OnOk};
ghost use Rattle.cv_histories.specs.Report.{entry_line, entry_lines, line};
ghost use Rattle.cv_report.specs.Pieces.{course_text, outcome_text, run_text};

use crate::lists::list_text;
use crate::texts::{bytes_text, mode_text};
use cv_base::{Addresses, Entry, NoMemory};
use cv_manager::Manager;
use std::alloc::Global;

/// Adds the lines of the entries, in the order of their posts.
pub fn add_entries(alloc: Global, manager: &Manager, text: &mut String) -> Result<(), NoMemory>
    ensures { OnOk result (string_bytes text.new ≡ string_bytes text.old ++ entry_lines manager.now.past) }
{
    let entries = manager.history();
    for (number, entry) in entries.iter().enumerate() {
        let line = numbered_line(alloc, number, entry)?;
        text.push_str(line.as_str())?;
    }
    Ok(())
}

/// The line of an entry under its number in the history, with its line feed (docs/FORMATS.md,
/// "Report"). `cv_journal` reads it back.
pub fn entry_line(alloc: Global, number: u32, entry: &Entry) -> Result<String, NoMemory>
    ensures { IfOk result (λ s. string_bytes s ≡ line (entry_line number entry.now)) }
{
    numbered_line(alloc, number as usize, entry)
}

/// The same under any number: a history is counted by its length.
fn numbered_line(alloc: Global, number: usize, entry: &Entry) -> Result<String, NoMemory>
    ensures { IfOk result (λ s. string_bytes s ≡ line (entry_line number entry.now)) }
{
    let run = run_text(alloc, number, entry)?;
    let course = course_text(alloc, entry)?;
    let outcome = outcome_text(alloc, entry)?;
    Ok(format!(in alloc; "{run}{course}{outcome}\n")?)
}

/// Which run an entry tells of.
fn run_text(alloc: Global, number: usize, entry: &Entry) -> Result<String, NoMemory>
    ensures { IfOk result (λ s. string_bytes s ≡ run_text number entry.now) }
{
    let run = entry.run;
    let worker = entry.worker;
    let mode = mode_text(entry.mode);
    Ok(format!(in alloc; "entry {number} run {run} worker {worker} mode {mode}")?)
}

/// How the run of an entry went.
fn course_text(alloc: Global, entry: &Entry) -> Result<String, NoMemory>
    ensures { IfOk result (λ s. string_bytes s ≡ course_text entry.now) }
{
    let adopted = list_text(alloc, entry.adopted.as_slice())?;
    let end = entry.end;
    let turns = entry.turns;
    let sites = Addresses(entry.sites.as_slice());
    Ok(format!(in alloc; " adopted {adopted} end {end} turns {turns} sites {sites}")?)
}

/// What the run of an entry left.
fn outcome_text(alloc: Global, entry: &Entry) -> Result<String, NoMemory>
    ensures { IfOk result (λ s. string_bytes s ≡ outcome_text entry.now) }
{
    let output = bytes_text(alloc, entry.output.as_slice())?;
    let tally = list_text(alloc, entry.tally.as_slice())?;
    let fired = list_text(alloc, entry.fired.as_slice())?;
    Ok(format!(in alloc; " output {output} tally {tally} fired {fired}")?)
}
