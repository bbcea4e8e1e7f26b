ghost use Rattle.std.specs.Prelude.{◌≡◌, filter, length, string_bytes, IfOk};
ghost use Rattle.cv_histories.specs.OtherTexts.{drill_text, ends_with, is_budget, is_failed, is_withdrawal};
ghost use Rattle.cv_histories.specs.Seen.{is_exit};
ghost use Rattle.cv_report.specs.Pieces.{ends_text};

use cv_base::{Change, End, Entry, NoMemory};
use cv_manager::Manager;
use std::alloc::Global;

/// What `drill` writes of a plan's history: how much of each there is in it (docs/FORMATS.md, "Texts
/// of the commands").
pub fn drill_text(alloc: Global, manager: &Manager) -> Result<String, NoMemory>
    ensures { IfOk result (λ text. string_bytes text ≡ drill_text manager.now.plan manager.now.past) }
{
    let ends = ends_text(alloc, manager.history())?;
    let cases = manager.case_count();
    let versions = manager.version_count();
    let withdrawals = withdrawals(manager.changes());
    Ok(format!(in alloc; "{ends} cases {cases} versions {versions} withdrawals {withdrawals}\n")?)
}

/// How many entries there are, and how many of them ended in each of the three ways.
fn ends_text(alloc: Global, entries: &[Entry]) -> Result<String, NoMemory>
    ensures { IfOk result (λ s. string_bytes s ≡ ends_text entries.now) }
{
    let runs = entries.len();
    let exits = exits(entries);
    let failures = failures(entries);
    let budgets = budgets(entries);
    Ok(format!(in alloc; "runs {runs} exits {exits} failures {failures} budgets {budgets}")?)
}

/// The entries that ended by exit.
fn exits(entries: &[Entry]) -> usize
    ensures { result ≡ ends_with is_exit entries.now }
{
    entries
        .iter()
        .filter(|entry| matches!(entry.end, End::Exit { .. }))
        .count()
}

/// The entries that ended by failure.
fn failures(entries: &[Entry]) -> usize
    ensures { result ≡ ends_with is_failed entries.now }
{
    entries
        .iter()
        .filter(|entry| matches!(entry.end, End::Failure { .. }))
        .count()
}

/// The entries that ended by budget.
fn budgets(entries: &[Entry]) -> usize
    ensures { result ≡ ends_with is_budget entries.now }
{
    entries
        .iter()
        .filter(|entry| matches!(entry.end, End::Budget))
        .count()
}

/// The changes that withdrew a repair.
fn withdrawals(changes: &[Change]) -> usize
    ensures { result ≡ length (filter is_withdrawal changes.now) }
{
    changes
        .iter()
        .filter(|change| change.withdrawn.is_some())
        .count()
}
