ghost use Rattle.std.specs.Prelude.{◌≡◌, ◌++◌, codes, length, string_bytes, IfOk, OnOk};
ghost use Rattle.std.specs.Fmt.{decimal};
ghost use Rattle.cv_base.specs.PlanText.{job_line};
ghost use Rattle.cv_histories.specs.Installed.{changes};
ghost use Rattle.cv_histories.specs.Report.{change_lines, change_text, line, maker_text, makers, report, version_lines, withdrawn_text};
ghost use Rattle.cv_histories.specs.Seen.{learned_of};
ghost use Rattle.cv_manager.specs.ManagerOf.{ledger_in, seen_in};
ghost use Rattle.cv_report.specs.Pieces.{lines_of_change, version_line};

use crate::cases::add_cases;
use crate::entries::add_entries;
use crate::texts::maker_text;
use cv_base::{Change, NoMemory, Plan};
use cv_job::job_line;
use cv_manager::Manager;
use std::alloc::Global;

/// The report of a plan's history: the plan, the entries, and what they come to (docs/FORMATS.md,
/// "Report").
pub fn report(alloc: Global, manager: &Manager) -> Result<String, NoMemory>
    ensures { IfOk result (λ text. string_bytes text ≡ report manager.now.plan manager.now.past) }
{
    let mut text = first_lines(alloc, manager.plan())?;
    add_entries(alloc, manager, &mut text)?;
    add_versions(alloc, manager, &mut text)?;
    add_cases(alloc, manager, &mut text)?;
    add_changes(alloc, manager, &mut text)?;
    let last = last_lines(alloc, manager)?;
    text.push_str(last.as_str())?;
    Ok(text)
}

/// The line that names the format, and the plan's.
fn first_lines(alloc: Global, plan: &Plan) -> Result<String, NoMemory>
    ensures { IfOk result (λ s. string_bytes s ≡ line (codes "clearview report 2") ++ line (job_line plan.now)) }
{
    let job = job_line(alloc, plan)?;
    Ok(format!(in alloc; "clearview report 2\n{job}\n")?)
}

/// The line with the number of learned invariants, and the last one.
fn last_lines(alloc: Global, manager: &Manager) -> Result<String, NoMemory>
    ensures { IfOk result (λ s. string_bytes s ≡ line (codes "learned " ++ decimal (length (learned_of manager.now.plan (seen_in manager.now)))) ++ line (codes "end")) }
{
    let learned = manager.learned(alloc)?;
    let count = learned.len();
    Ok(format!(in alloc; "learned {count}\nend\n")?)
}

/// Adds the lines of the versions.
fn add_versions(alloc: Global, manager: &Manager, text: &mut String) -> Result<(), NoMemory>
    ensures { OnOk result (string_bytes text.new ≡ string_bytes text.old ++ version_lines 0 (makers manager.now.plan manager.now.past) (ledger_in manager.now).versions) }
{
    let versions = manager.versions();
    for version in 0..manager.version_count() {
        let maker = manager.made_by(version);
        let patches = versions[version as usize].patches.len();
        let line = version_line(alloc, version, maker, patches)?;
        text.push_str(line.as_str())?;
    }
    Ok(())
}

/// The line of a version, of which it has the entry that made it and the number of patches.
fn version_line(
    alloc: Global,
    version: u32,
    maker: Option<u32>,
    patches: usize,
) -> Result<String, NoMemory>
    ensures { IfOk result (λ s. string_bytes s ≡ line (version_line version maker patches)) }
{
    let maker = maker_text(alloc, maker)?;
    Ok(format!(in alloc; "version {version} entry {maker} patches {patches}\n")?)
}

/// Adds the lines of the changes of installed repairs.
fn add_changes(alloc: Global, manager: &Manager, text: &mut String) -> Result<(), NoMemory>
    ensures { OnOk result (string_bytes text.new ≡ string_bytes text.old ++ change_lines (changes manager.now.plan (seen_in manager.now))) }
{
    let changes = manager.changes();
    for change in changes {
        let lines = lines_of_change(alloc, *change)?;
        text.push_str(lines.as_str())?;
    }
    Ok(())
}

/// The lines of a change: the repair that was withdrawn, if any, and the one installed.
fn lines_of_change(alloc: Global, change: Change) -> Result<String, NoMemory>
    ensures { IfOk result (λ s. string_bytes s ≡ lines_of_change change) }
{
    let withdrawn = withdrawn_line(alloc, change)?;
    let installed = change_line(alloc, "install", change, change.installed)?;
    Ok(format!(in alloc; "{withdrawn}{installed}")?)
}

/// The line of the repair that a change withdrew; nothing where it withdrew none.
fn withdrawn_line(alloc: Global, change: Change) -> Result<String, NoMemory>
    ensures { IfOk result (λ s. string_bytes s ≡ withdrawn_text change.entry change.case change.withdrawn) }
{
    match change.withdrawn {
        None => Ok(String::new(alloc)),
        Some(repair) => change_line(alloc, "withdraw", change, repair),
    }
}

/// The line of a repair that a change withdrew or installed.
fn change_line(alloc: Global, word: &str, change: Change, repair: u32) -> Result<String, NoMemory>
    ensures { IfOk result (λ s. string_bytes s ≡ change_text word.now change.entry change.case repair) }
{
    let entry = change.entry;
    let case = change.case;
    Ok(format!(in alloc; "{word} entry {entry} case {case} repair {repair}\n")?)
}
