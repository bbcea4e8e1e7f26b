ghost use Rattle.std.specs.Prelude.{◌≡◌, ◌++◌, ◌<◌, true, length, IfOk, OnOk};
ghost use Rattle.std.specs.List.{AllByRecursion};
ghost use Rattle.cv_base.specs.Patches.{is_table};
ghost use Rattle.cv_histories.specs.Installed.{change_to};
ghost use Rattle.cv_histories.specs.Versions.{checks_from, same_table};
ghost use Rattle.cv_manager.specs.Tables.{HasFew, changes_from, opened_list, patches_from, patches_of};

use crate::decided::Decided;
use crate::progress::Progress;
use cv_base::{Case, Change, Invariant, Items, NoMemory, Patch, PatchTable};
use std::alloc::Global;

/// The table of the cases, of which the last may have been opened just now: of each its checks until
/// it is decided, then its installed repair.
pub(crate) fn table_of(
    alloc: Global,
    cases: &[Case],
    opened: &Option<Case>,
    progress: &[Progress],
) -> Result<PatchTable, NoMemory>
    requires table { is_table (patches_from 0 (cases.now ++ opened_list opened.now) progress.now) ≡ true }
    requires cases { AllByRecursion HasFew (cases.now ++ opened_list opened.now) }
    requires few { length cases.now < 4294967295 }
    requires each { length progress.now ≡ length (cases.now ++ opened_list opened.now) }
    ensures { IfOk result (λ t. t ≡ patches_from 0 (cases.now ++ opened_list opened.now) progress.now) }
{
    let mut list = Vec::new(alloc);
    for (number, case) in cases.iter().enumerate() {
        add_patches(alloc, &mut list, number as u32, case, &progress[number])?;
    }
    if let Some(case) = opened {
        add_patches(
            alloc,
            &mut list,
            cases.len() as u32,
            case,
            &progress[cases.len()],
        )?;
    }
    Ok(PatchTable {
        patches: Items::from_vec(list),
    })
}

/// Adds the patches of a case.
fn add_patches(
    alloc: Global,
    list: &mut Vec<Patch>,
    number: u32,
    case: &Case,
    progress: &Progress,
) -> Result<(), NoMemory>
    requires { HasFew case.now }
    ensures { OnOk result (list.new.items ≡ list.old.items ++ patches_of number case.now progress.now.decided) }
{
    match &progress.decided {
        None => add_checks(alloc, list, number, case.candidates.as_slice()),
        Some(decided) => add_installed(alloc, list, number, case, decided),
    }
}

/// Adds a check of each candidate of a case.
fn add_checks(
    alloc: Global,
    list: &mut Vec<Patch>,
    number: u32,
    candidates: &[Invariant],
) -> Result<(), NoMemory>
    requires { length candidates.now < 4294967296 }
    ensures { OnOk result (list.new.items ≡ list.old.items ++ checks_from number 0 candidates.now) }
{
    for (index, candidate) in candidates.iter().enumerate() {
        let invariant = candidate.copied(alloc)?;
        list.push(Patch::Check {
            case: number,
            index: index as u32,
            invariant,
        })?;
    }
    Ok(())
}

/// Adds the installed repair of a case, if any.
fn add_installed(
    alloc: Global,
    list: &mut Vec<Patch>,
    number: u32,
    case: &Case,
    decided: &Decided,
) -> Result<(), NoMemory>
    ensures { OnOk result (list.new.items ≡ list.old.items ++ patches_of number case.now (Some decided.now)) }
{
    let Some(index) = decided.installed else {
        return Ok(());
    };
    let Some(repair) = decided.repairs.get(index as usize) else {
        return Ok(());
    };
    let Some(candidate) = case.candidates.get(repair.candidate as usize) else {
        return Ok(());
    };
    let invariant = candidate.copied(alloc)?;
    list.push(Patch::Enforce {
        case: number,
        index,
        invariant,
        action: repair.action,
    })?;
    Ok(())
}

/// Whether two tables have the same patches.
pub(crate) fn same_table(a: &PatchTable, b: &PatchTable) -> bool
    ensures { result ≡ same_table a.now b.now }
{
    a.patches == b.patches
}

/// Changes, and after them those of an entry, by the progress of cases before and after it.
pub(crate) fn changes_with(
    alloc: Global,
    changes: &[Change],
    entry: u32,
    before: &[Progress],
    after: &[Progress],
) -> Result<Vec<Change>, NoMemory>
    requires { length before.now < 4294967296 }
    ensures { IfOk result (λ v. v.items ≡ changes.now ++ changes_from entry 0 before.now after.now) }
{
    let mut list = Vec::from_slice(alloc, changes)?;
    for (case, before) in before.iter().enumerate() {
        if let Some(after) = after.get(case) {
            let (before, after) = (before.installed(), after.installed());
            add_change(&mut list, entry, case as u32, before, after)?;
        }
    }
    Ok(list)
}

/// Adds that the installed repair of a case became another one at an entry, where it did.
fn add_change(
    list: &mut Vec<Change>,
    entry: u32,
    case: u32,
    before: Option<u32>,
    after: Option<u32>,
) -> Result<(), NoMemory>
    ensures { OnOk result (list.new.items ≡ list.old.items ++ change_to entry case before after) }
{
    if let Some(installed) = after {
        if before != after {
            list.push(Change {
                entry,
                case,
                withdrawn: before,
                installed,
            })?;
        }
    }
    Ok(())
}
