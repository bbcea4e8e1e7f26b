//! A run that a history of its own posted, replayed.
ghost use Rattle.std.specs.Prelude.{◌≡◌, IfOk, map, option_copied};
ghost use Rattle.cv_laws.specs.Statements.{IsHonestIn};
ghost use Rattle.cv_replay_examples.specs.Entries.{entry_for};

use cv_base::{Entry, NoMemory, PatchTable, Plan};
use cv_core::{Book, run_in_order};
use cv_laws::legal_is_honest;
use cv_manager::Manager;
use cv_replay::Replay;
use std::alloc::Global;
use std::sync::Arc;
use std::test::Fail;

/// The run of this number of the plan's serial history, before its first turn.
pub(crate) fn replay_of(alloc: Global, plan: Plan, run: u32) -> Result<Replay, Fail> {
    let book = run_in_order(alloc, plan)?;
    run_of(alloc, &book, run)
}

/// The run of this number of a book, before its first turn.
fn run_of(alloc: Global, book: &Book, run: u32) -> Result<Replay, Fail> {
    legal_is_honest();
    let manager = book.manager();
    match entry_of(manager.history(), run) {
        Some(entry) => Ok(entry_replay(alloc, manager, entry)?),
        None => Err(Fail::from("no such run")),
    }
}

/// The entry of a run.
fn entry_of(entries: &[Entry], run: u32) -> Option<&Entry>
    ensures { option_copied result ≡ entry_for entries.now run }
{
    entries.iter().find(|entry| entry.run == run)
}

/// The run of an entry of a history, before its first turn.
fn entry_replay(alloc: Global, manager: &Manager, entry: &Entry) -> Result<Replay, NoMemory>
    requires { IsHonestIn manager.now.plan manager.now.past entry.now }
{
    let tables = copied(alloc, manager.versions())?;
    Replay::make(alloc, manager.plan(), entry, tables)
}

/// The same tables.
fn copied(
    alloc: Global,
    tables: &[Arc<PatchTable, Global>],
) -> Result<Vec<Arc<PatchTable, Global>>, NoMemory>
    ensures { IfOk result (λ copy. map (λ t. t.value) copy.items ≡ map (λ t. t.value) tables.now) }
{
    let mut copy = Vec::new(alloc);
    for table in tables {
        copy.push(Arc::try_clone(table)?)?;
    }
    Ok(copy)
}
