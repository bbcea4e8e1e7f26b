ghost use Rattle.std.specs.Prelude.{◌≡◌, [], IfOk};

use crate::{Invariant, Items, NoMemory};
use std::alloc::Global;
use std::marker::Model;

/// What a repair does where its invariant is false (docs/REPAIR.md, "Patches").
#[derive(Clone, Copy, Debug, PartialEq, Eq)]
pub enum Action {
    /// The register becomes the value.
    SetConst { reg: u8, value: u32 },
    /// The register takes the value of another.
    SetCopy { reg: u8, source: u8 },
    /// x2 (sp) becomes the frame's sp plus the offset.
    SetSp { offset: u32 },
    /// The instruction is passed over.
    Skip,
    /// The procedure returns, after x2 (sp) went down by the offset.
    Return { offset: u32 },
}

/// What is done at a point before its instruction. It belongs to a candidate, or to a repair, of
/// a case: `index` is its number there.
#[derive(Debug, Drop, PartialEq, Eq)]
pub enum Patch {
    /// Notes whether the candidate's invariant holds.
    Check {
        case: u32,
        index: u32,
        invariant: Invariant,
    },
    /// Does the repair's action where its invariant is false.
    Enforce {
        case: u32,
        index: u32,
        invariant: Invariant,
        action: Action,
    },
}

/// The patches of a version, in their order, which contracts see as their list. Registers are
/// numbered from 1 to 31; no candidate is checked twice, and no repair is enforced twice.
#[derive(Debug, Drop)]
pub struct PatchTable {
    pub patches: Items<Patch>,
}

impl Model for PatchTable {
    ghost use Rattle.std.specs.Prelude.{◌≡◌, true, List};
    ghost use Rattle.cv_base.specs.declared.patches.Patch.{Patch};
    ghost use Rattle.cv_base.specs.Patches.{is_table};

    ghost Value = { List Patch };

    ghost view = { λ t. t.patches };

    ghost invariant = { λ t. is_table t.patches ≡ true };
}

impl Patch {
    /// An equal patch.
    pub fn copied(&self, alloc: Global) -> Result<Patch, NoMemory>
        ensures { IfOk result (λ p. p ≡ self.now) }
    {
        Ok(match self {
            Patch::Check {
                case,
                index,
                invariant,
            } => Patch::Check {
                case: *case,
                index: *index,
                invariant: invariant.copied(alloc)?,
            },
            Patch::Enforce {
                case,
                index,
                invariant,
                action,
            } => Patch::Enforce {
                case: *case,
                index: *index,
                invariant: invariant.copied(alloc)?,
                action: *action,
            },
        })
    }
}

impl PatchTable {
    /// The table without a patch. It takes no memory.
    pub fn make(alloc: Global) -> PatchTable
        ensures { result ≡ [] }
    {
        PatchTable {
            patches: Items::make(alloc),
        }
    }

    /// An equal table.
    pub fn copied(&self, alloc: Global) -> Result<PatchTable, NoMemory>
        ensures { IfOk result (λ t. t ≡ self.now) }
    {
        let mut copies = Vec::new(alloc);
        for patch in self.patches.as_slice() {
            copies.push(patch.copied(alloc)?)?;
        }
        Ok(PatchTable {
            patches: Items::from_vec(copies),
        })
    }
}
