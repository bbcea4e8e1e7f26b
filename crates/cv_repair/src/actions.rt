ghost use Rattle.std.specs.Prelude.{◌≡◌, ◌<◌, ◌++◌, ◌∷◌, [], ℕ, true, List, length, map, slice_get, IfOk, OnOk, IsTrue};
ghost use Rattle.std.specs.List.{AllByRecursion, list_all};
ghost use Rattle.cv_base.specs.declared.invariants.Invariant.{Invariant};
ghost use Rattle.cv_base.specs.declared.patches.Action.{Action};
ghost use Rattle.cv_base.specs.Picture.{is_point};
ghost use Rattle.cv_histories.specs.Repairs.{Judged, sets_of, skips_of, offset_at, early_returns, is_named_call, repairs_for};
ghost use Rattle.cv_isa.specs.Uses.{has};
ghost use Rattle.cv_repair.specs.Chosen.{AreChosen};
ghost use Rattle.cv_repair.specs.Numbered.{repairs_by, repairs_at};
ghost use Rattle.cv_runs.specs.Invariants.{point_of};
ghost use Rattle.cv_runs.specs.Text.{inst_at};

use cv_base::{Action, Case, Invariant, Items, NoMemory, Repair};
use cv_blocks::TextMap;
use cv_inv::{names, point_of};
use cv_isa::{Inst, Op, RegSet};
use std::alloc::Global;

/// Adds an action for a candidate.
fn add(list: &mut Vec<Repair>, candidate: u32, action: Action) -> Result<(), NoMemory>
    ensures { OnOk result (list.new.items ≡ list.old.items ++ repairs_by candidate (action ∷ [])) }
{
    list.push(Repair { candidate, action })?;
    Ok(())
}

/// Adds, for each value, that the register becomes it.
fn add_values(
    list: &mut Vec<Repair>,
    candidate: u32,
    reg: u8,
    values: &[u32],
) -> Result<(), NoMemory>
    ensures { OnOk result (list.new.items ≡ list.old.items ++ repairs_by candidate (map (Action.SetConst reg) values.now)) }
{
    for value in values {
        add(list, candidate, Action::SetConst { reg, value: *value })?;
    }
    Ok(())
}

/// Whether a register, of any number, is in the set.
fn is_in(set: RegSet, reg: u8) -> bool
    ensures { result ≡ has set reg }
{
    let bits = set.bits;
    reg < 32 && (bits >> reg) & 1 == 1
}

/// Adds what restores the candidate.
fn add_sets(
    list: &mut Vec<Repair>,
    candidate: u32,
    invariant: &Invariant,
    map: &TextMap,
) -> Result<(), NoMemory>
    requires { IsTrue (is_point map.now (point_of invariant.now)) }
    ensures { OnOk result (list.new.items ≡ list.old.items ++ repairs_by candidate (sets_of map.now invariant.now)) }
{
    match invariant {
        Invariant::OneOf { reg, values, .. } => {
            add_values(list, candidate, *reg, values.as_slice())
        }
        Invariant::Lower { reg, bound, .. } => {
            let (reg, value) = (*reg, *bound);
            add(list, candidate, Action::SetConst { reg, value })
        }
        Invariant::LessThan { point, low, high } => {
            let (reg, source) = if is_in(map.reads(*point), *low) {
                (*low, *high)
            } else {
                (*high, *low)
            };
            add(list, candidate, Action::SetCopy { reg, source })
        }
        Invariant::SpOffset { offset, .. } => {
            add(list, candidate, Action::SetSp { offset: *offset })
        }
    }
}

/// Whether the instruction is a call by a register that the invariant names.
fn is_named_call(invariant: &Invariant, inst: &Inst) -> bool
    ensures { result ≡ is_named_call invariant.now inst.now inst.now.op }
{
    inst.op == Op::Jalr && (inst.rd == 1 || inst.rd == 5) && names(invariant, inst.rs1)
}

/// Adds that a call by a register that the candidate names is passed over.
fn add_skip(
    list: &mut Vec<Repair>,
    candidate: u32,
    invariant: &Invariant,
    inst: &Option<Inst>,
) -> Result<(), NoMemory>
    ensures { OnOk result (list.new.items ≡ list.old.items ++ repairs_by candidate (skips_of invariant.now inst.now)) }
{
    match inst {
        Some(inst) if is_named_call(invariant, inst) => add(list, candidate, Action::Skip),
        _ => Ok(()),
    }
}

/// The offset of sp at a point, where some candidate tells it.
fn offset_at(point: u32, candidates: &[Invariant]) -> Option<u32>
    ensures { result ≡ offset_at point candidates.now }
{
    for candidate in candidates {
        if let Invariant::SpOffset { point: at, offset } = candidate {
            if *at == point {
                return Some(*offset);
            }
        }
    }
    None
}

/// Adds that the procedure returns, where the offset of sp is known.
fn add_return(
    list: &mut Vec<Repair>,
    candidate: u32,
    invariant: &Invariant,
    candidates: &[Invariant],
) -> Result<(), NoMemory>
    ensures { OnOk result (list.new.items ≡ list.old.items ++ repairs_by candidate (early_returns candidates.now invariant.now)) }
{
    if let Invariant::SpOffset { .. } = invariant {
        return Ok(());
    }
    match offset_at(point_of(invariant), candidates) {
        Some(offset) => add(list, candidate, Action::Return { offset }),
        None => Ok(()),
    }
}

/// Adds the repairs of the candidate with this number: its sets, then the skip, then the early
/// return.
fn add_repairs(
    list: &mut Vec<Repair>,
    number: u32,
    candidates: &[Invariant],
    map: &TextMap,
) -> Result<(), NoMemory>
    requires within { number < length candidates.now }
    requires points { list_all (λ (k : Invariant). is_point map.now (point_of k)) candidates.now ≡ true }
    ensures { OnOk result (list.new.items ≡ list.old.items ++ repairs_at map.now candidates.now number (slice_get candidates.now number)) }
{
    let invariant = &candidates[number as usize];
    add_sets(list, number, invariant, map)?;
    add_skip(list, number, invariant, &map.inst(point_of(invariant)))?;
    add_return(list, number, invariant, candidates)
}

/// The repairs that the chosen candidates of a case give, given by their numbers, in their order: of
/// each its sets, then the skip, then the early return.
pub fn repairs(
    alloc: Global,
    case: &Case,
    chosen: &[u32],
    map: &TextMap,
) -> Result<Items<Repair>, NoMemory>
    requires chosen { AllByRecursion (λ (x : ℕ). x < length case.now.candidates) chosen.now }
    requires points { list_all (λ (k : Invariant). is_point map.now (point_of k)) case.now.candidates ≡ true }
    ensures { (judged : List Judged) → AreChosen case.now.candidates chosen.now judged → IfOk result (λ r. r ≡ repairs_for map.now case.now.candidates judged) }
{
    let candidates = case.candidates.as_slice();
    let mut list = Vec::new(alloc);
    for number in chosen {
        add_repairs(&mut list, *number, candidates, map)?;
    }
    Ok(Items::from_vec(list))
}
