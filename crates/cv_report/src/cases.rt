ghost use Rattle.std.specs.Prelude.{◌≡◌, ◌<◌, ◌≤◌, ◌++◌, length, string_bytes, IfOk, OnOk};
ghost use Rattle.cv_histories.specs.Installed.{is_dropped};
ghost use Rattle.cv_histories.specs.Repairs.{repairs_of};
ghost use Rattle.cv_histories.specs.Report.{candidate_lines, case_line, case_lines, line, repair_lines, state_text};
ghost use Rattle.cv_manager.specs.ManagerOf.{cases_in, seen_in};
ghost use Rattle.cv_report.specs.Pieces.{IsCase, candidate_line, failure_text, lines_of_case, repair_line, repair_text, score_text};

use crate::texts::{action_text, class_text};
use cv_base::{Address, Case, Class, Invariant, NoMemory, Repair};
use cv_manager::Manager;
use std::alloc::Global;

/// Adds the lines of the cases, each with its candidates and repairs.
pub fn add_cases(alloc: Global, manager: &Manager, text: &mut String) -> Result<(), NoMemory>
    ensures { OnOk result (string_bytes text.new ≡ string_bytes text.old ++ case_lines manager.now.plan (seen_in manager.now) 0 (cases_in manager.now)) }
{
    for index in 0..manager.case_count() {
        let case = manager.case(index);
        add_case(alloc, manager, index, case, text)?;
    }
    Ok(())
}

/// Adds the lines of a case.
fn add_case(
    alloc: Global,
    manager: &Manager,
    index: u32,
    case: &Case,
    text: &mut String,
) -> Result<(), NoMemory>
    requires case { IsCase manager.now index case.now }
    requires few { length case.now.candidates ≤ 64 }
    ensures { OnOk result (string_bytes text.new ≡ string_bytes text.old ++ lines_of_case manager.now index case.now) }
{
    let line = case_line(alloc, manager, index, case)?;
    text.push_str(line.as_str())?;
    add_candidates(alloc, manager, index, case, text)?;
    add_repairs(alloc, manager, index, case, text)
}

/// The line of a case.
fn case_line(alloc: Global, manager: &Manager, index: u32, case: &Case) -> Result<String, NoMemory>
    requires { IsCase manager.now index case.now }
    ensures { IfOk result (λ s. string_bytes s ≡ line (case_line manager.now.plan index case.now (seen_in manager.now))) }
{
    let failure = failure_text(alloc, index, case)?;
    let checked = manager.checked(index);
    let state = state_text(alloc, manager, index, case)?;
    Ok(format!(in alloc; "{failure} checked {checked} state {state}\n")?)
}

/// Which failure a case is of, and the entry that opened it.
fn failure_text(alloc: Global, index: u32, case: &Case) -> Result<String, NoMemory>
    ensures { IfOk result (λ s. string_bytes s ≡ failure_text index case.now) }
{
    let id = case.id;
    let kind = id.kind;
    let pc = Address(id.pc);
    let opened = case.opened;
    Ok(format!(in alloc; "case {index} {kind} {pc} opened {opened}")?)
}

/// The state of a case.
fn state_text(alloc: Global, manager: &Manager, index: u32, case: &Case) -> Result<String, NoMemory>
    requires { IsCase manager.now index case.now }
    ensures { IfOk result (λ s. string_bytes s ≡ state_text manager.now.plan index case.now (seen_in manager.now)) }
{
    if is_dropped(manager, index, case) {
        return Ok(String::from_str(alloc, "dropped")?);
    }
    match manager.installed(index) {
        None => Ok(String::from_str(alloc, "checking")?),
        Some(repair) => Ok(format!(in alloc; "installed:{repair}")?),
    }
}

/// Whether a case has no candidates, or is decided and has no repairs.
fn is_dropped(manager: &Manager, index: u32, case: &Case) -> bool
    requires { IsCase manager.now index case.now }
    ensures { result ≡ is_dropped manager.now.plan index case.now (seen_in manager.now) }
{
    if case.candidates.is_empty() {
        return true;
    }
    manager.checked(index) == manager.plan().checks && manager.repairs(index).is_empty()
}

/// Adds the lines of a case's candidates.
fn add_candidates(
    alloc: Global,
    manager: &Manager,
    index: u32,
    case: &Case,
    text: &mut String,
) -> Result<(), NoMemory>
    requires case { IsCase manager.now index case.now }
    requires few { length case.now.candidates ≤ 64 }
    ensures { OnOk result (string_bytes text.new ≡ string_bytes text.old ++ candidate_lines manager.now.plan index case.now (seen_in manager.now) 0 case.now.candidates) }
{
    for (number, candidate) in case.candidates.as_slice().iter().enumerate() {
        let number = number as u32;
        let class = manager.class(index, number);
        let line = candidate_line(alloc, index, number, candidate, class)?;
        text.push_str(line.as_str())?;
    }
    Ok(())
}

/// The line of a candidate.
fn candidate_line(
    alloc: Global,
    case: u32,
    number: u32,
    invariant: &Invariant,
    class: Option<Class>,
) -> Result<String, NoMemory>
    ensures { IfOk result (λ s. string_bytes s ≡ line (candidate_line case number invariant.now class)) }
{
    let class = class_text(class);
    Ok(format!(in alloc; "candidate {case}.{number} {invariant} class {class}\n")?)
}

/// Adds the lines of a case's repairs.
fn add_repairs(
    alloc: Global,
    manager: &Manager,
    index: u32,
    case: &Case,
    text: &mut String,
) -> Result<(), NoMemory>
    requires { IsCase manager.now index case.now }
    ensures { OnOk result (string_bytes text.new ≡ string_bytes text.old ++ repair_lines index case.now (seen_in manager.now) 0 (repairs_of manager.now.plan index case.now (seen_in manager.now))) }
{
    for (number, repair) in manager.repairs(index).iter().enumerate() {
        let line = repair_line(alloc, manager, index, case, number as u32, *repair)?;
        text.push_str(line.as_str())?;
    }
    Ok(())
}

/// The line of a repair.
fn repair_line(
    alloc: Global,
    manager: &Manager,
    index: u32,
    case: &Case,
    number: u32,
    repair: Repair,
) -> Result<String, NoMemory>
    requires case { IsCase manager.now index case.now }
    requires repair { number < length (repairs_of manager.now.plan index case.now (seen_in manager.now)) }
    ensures { IfOk result (λ s. string_bytes s ≡ line (repair_line index case.now (seen_in manager.now) number repair)) }
{
    let name = repair_text(alloc, index, number, repair)?;
    let wins = manager.wins(index, number);
    let fails = manager.fails(index, number);
    let score = manager.score(index, number);
    let scored = score_text(alloc, wins, fails, score)?;
    Ok(format!(in alloc; "{name}{scored}\n")?)
}

/// Which repair a line is of.
fn repair_text(alloc: Global, case: u32, number: u32, repair: Repair) -> Result<String, NoMemory>
    ensures { IfOk result (λ s. string_bytes s ≡ repair_text case number repair) }
{
    let candidate = repair.candidate;
    let action = action_text(alloc, repair.action)?;
    Ok(format!(in alloc; "repair {case}.{number} candidate {candidate} {action}")?)
}

/// The end of a repair's line: what the repair won and failed, and its score.
fn score_text(alloc: Global, wins: u32, fails: u32, score: i64) -> Result<String, NoMemory>
    ensures { IfOk result (λ s. string_bytes s ≡ score_text wins fails score) }
{
    Ok(format!(in alloc; " wins {wins} fails {fails} score {score}")?)
}
