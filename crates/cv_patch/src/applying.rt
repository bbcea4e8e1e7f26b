ghost use Rattle.std.specs.Prelude.{◌≡◌, ◌==◌, true, List};
ghost use Rattle.cv_base.specs.Invariants.{is_invariant};
ghost use Rattle.cv_base.specs.Patches.{is_action, is_patch};
ghost use Rattle.cv_base.specs.Points.{is_point_in};
ghost use Rattle.cv_histories.specs.Rows.{checks_in, firings_in};
ghost use Rattle.cv_patch.specs.Applied.{applied, left_at};
ghost use Rattle.cv_patch.specs.Counts.{FiredGoesOn, TallyGoesOn, fired_ready, fired_up_to, has_its_fired, has_its_tally, tally_ready, tally_up_to};
ghost use Rattle.cv_patch.specs.Noted.{has_its_check_room, has_its_firing_room, with_checks, with_firings};
ghost use Rattle.cv_patch.specs.OnePatch.{left_by, left_by_action};
ghost use Rattle.cv_runs.specs.Apply.{Note, core_holds, patch_point};

use crate::{Fired, Tally};
use cv_base::{Action, Invariant, Patch, PatchTable, TextRange};
use cv_inv::{holds, point_of};
use cv_shadow::Core;

/// Whether the patches at a pc used up the turn.
#[derive(Clone, Copy, Debug, PartialEq, Eq)]
pub enum Applied {
    /// They did not: the plain turn follows.
    Go,
    /// The instruction was skipped.
    Skipped,
    /// The procedure returned.
    Returned,
}

/// Goes through the patches of a table at the pc, in their order, each on what the earlier ones
/// left, and counts their notes; the plain turn is not done. It takes no memory.
///
/// The tally and the firings have to be prepared for the table, with no count at 2^32 - 1.
pub fn apply(
    table: &PatchTable,
    text: TextRange,
    core: &mut Core,
    tally: &mut Tally,
    fired: &mut Fired,
) -> Applied
    requires point { is_point_in text.base text.count core.old.pc ≡ true }
    requires tally_ready { tally_ready table.now tally.old ≡ true }
    requires fired_ready { fired_ready table.now fired.old ≡ true }
    requires tally_room { tally_up_to 4294967294 tally.old ≡ true }
    requires fired_room { fired_up_to 4294967294 fired.old ≡ true }
    ensures core { core.new ≡ (left_at text table.now core.old).core }
    ensures applied { result ≡ applied core.old (left_at text table.now core.old) }
    ensures tally { TallyGoesOn table.now tally.old tally.new (checks_in (left_at text table.now core.old).notes) }
    ensures fired { FiredGoesOn table.now fired.old fired.new (firings_in (left_at text table.now core.old).notes) }
    ensures point { is_point_in text.base text.count core.new.pc ≡ true }
{
    let pc = core.pc;
    for patch in table.patches.as_slice() {
        if !stands_at(patch, pc) {
            continue;
        }
        match apply_one(patch, text, core, tally, fired) {
            Applied::Go => {}
            used => return used,
        }
    }
    Applied::Go
}

/// Whether a patch stands at the pc.
pub(crate) fn stands_at(patch: &Patch, pc: u32) -> bool
    ensures { result ≡ (patch_point patch.now == pc) }
{
    point_of_patch(patch) == pc
}

/// The point of a patch.
pub(crate) fn point_of_patch(patch: &Patch) -> u32
    ensures { result ≡ patch_point patch.now }
{
    match patch {
        Patch::Check { invariant, .. } | Patch::Enforce { invariant, .. } => point_of(invariant),
    }
}

/// Does one patch, and counts what it notes.
pub(crate) fn apply_one(
    patch: &Patch,
    text: TextRange,
    core: &mut Core,
    tally: &mut Tally,
    fired: &mut Fired,
) -> Applied
    requires patch { is_patch patch.now ≡ true }
    requires tally_row { has_its_tally tally.old patch.now ≡ true }
    requires tally_room { has_its_check_room tally.old patch.now ≡ true }
    requires fired_row { has_its_fired fired.old patch.now ≡ true }
    requires fired_room { has_its_firing_room fired.old patch.now ≡ true }
    ensures core { core.new ≡ (left_by text patch.now core.old).core }
    ensures applied { result ≡ applied core.old (left_by text patch.now core.old) }
    ensures tally { tally.new ≡ with_checks (checks_in (left_by text patch.now core.old).notes) tally.old }
    ensures fired { fired.new ≡ with_firings (firings_in (left_by text patch.now core.old).notes) fired.old }
{
    match patch {
        Patch::Check {
            case,
            index,
            invariant,
        } => {
            let held = core_holds(invariant, core);
            tally.check(*case, *index, held);
            Applied::Go
        }
        Patch::Enforce {
            case,
            index,
            invariant,
            action,
        } => {
            if core_holds(invariant, core) {
                return Applied::Go;
            }
            fired.fire(*case, *index);
            act(*action, text, core)
        }
    }
}

/// Whether an invariant holds of a core.
fn core_holds(invariant: &Invariant, core: &Core) -> bool
    requires { is_invariant invariant.now ≡ true }
    ensures { result ≡ core_holds invariant.now core.now }
{
    holds(invariant, &core.regs, core.frames.sp())
}

/// Does an action.
fn act(action: Action, text: TextRange, core: &mut Core) -> Applied
    requires { is_action action ≡ true }
    ensures core { (notes : List Note) → core.new ≡ (left_by_action text action core.old notes).core }
    ensures applied { (notes : List Note) → result ≡ applied core.old (left_by_action text action core.old notes) }
{
    match action {
        Action::SetConst { reg, value } => {
            core.regs.set(reg, value);
            Applied::Go
        }
        Action::SetCopy { reg, source } => {
            let value = core.regs.get(source);
            core.regs.set(reg, value);
            Applied::Go
        }
        Action::SetSp { offset } => {
            let sp = core.frames.sp().wrapping_add(offset);
            core.regs.set(2, sp);
            Applied::Go
        }
        Action::Skip => skip(text, core),
        Action::Return { offset } => return_early(offset, text, core),
    }
}

/// Passes over the instruction, where the next one is in the text.
fn skip(text: TextRange, core: &mut Core) -> Applied
    ensures core { (notes : List Note) → core.new ≡ (left_by_action text Action.Skip core.old notes).core }
    ensures applied { (notes : List Note) → result ≡ applied core.old (left_by_action text Action.Skip core.old notes) }
{
    let next = core.pc.wrapping_add(4);
    if !text.is_point(next) {
        return Applied::Go;
    }
    core.pc = next;
    Applied::Skipped
}

/// Returns to the address of the top frame, where it is in the text, with x2 (sp) less an offset.
fn return_early(offset: u32, text: TextRange, core: &mut Core) -> Applied
    ensures core { (notes : List Note) → core.new ≡ (left_by_action text (Action.Return offset) core.old notes).core }
    ensures applied { (notes : List Note) → result ≡ applied core.old (left_by_action text (Action.Return offset) core.old notes) }
{
    let Some(top) = core.frames.from_top(0) else {
        return Applied::Go;
    };
    if !text.is_point(top.back) {
        return Applied::Go;
    }
    let sp = core.regs.get(2).wrapping_sub(offset);
    core.pc = top.back;
    core.regs.set(2, sp);
    let _top = core.frames.drop_top();
    Applied::Returned
}
