ghost use Rattle.std.specs.Prelude.{◌≡◌, IfOk};

use crate::{Address, Addresses, Items, NoMemory};
use std::alloc::Global;
use std::fmt;

/// A fact about the registers before the instruction at a point (docs/REPAIR.md, "Invariants").
/// Registers are numbered from 1 to 31.
#[derive(Debug, Drop, PartialEq, Eq)]
pub enum Invariant {
    /// The register is one of 1 to 4 values, in ascending unsigned order.
    OneOf {
        point: u32,
        reg: u8,
        values: Items<u32>,
    },
    /// The bound is at most the register, signed.
    Lower {
        point: u32,
        reg: u8,
        bound: u32,
    },
    /// Register `low` is at most register `high`, signed; the two differ.
    LessThan {
        point: u32,
        low: u8,
        high: u8,
    },
    /// x2 (sp) less the frame's sp is the offset, modulo 2^32.
    SpOffset {
        point: u32,
        offset: u32,
    },
}

impl Invariant {
    /// An equal invariant.
    pub fn copied(&self, alloc: Global) -> Result<Invariant, NoMemory>
        ensures { IfOk result (λ i. i ≡ self.now) }
    {
        Ok(match self {
            Invariant::OneOf { point, reg, values } => Invariant::OneOf {
                point: *point,
                reg: *reg,
                values: Items::from_slice(alloc, values.as_slice())?,
            },
            Invariant::Lower { point, reg, bound } => Invariant::Lower {
                point: *point,
                reg: *reg,
                bound: *bound,
            },
            Invariant::LessThan { point, low, high } => Invariant::LessThan {
                point: *point,
                low: *low,
                high: *high,
            },
            Invariant::SpOffset { point, offset } => Invariant::SpOffset {
                point: *point,
                offset: *offset,
            },
        })
    }
}

impl fmt::Display for Invariant {
    ghost use Rattle.std.specs.Prelude.{Some};
    ghost use Rattle.cv_base.specs.InvariantText.{invariant_text};

    ghost output = { λ k. Some (invariant_text k) };

    fn fmt<W: fmt::Write>(&self, f: &mut fmt::Formatter<W>) -> fmt::Result {
        match self {
            Invariant::OneOf { point, reg, values } => {
                let point = Address(*point);
                let values = Addresses(values.as_slice());
                write!(f, "one-of {point} x{reg} {values}")
            }
            Invariant::Lower { point, reg, bound } => {
                let point = Address(*point);
                let bound = Address(*bound);
                write!(f, "lower {point} x{reg} {bound}")
            }
            Invariant::LessThan { point, low, high } => {
                let point = Address(*point);
                write!(f, "less-than {point} x{low} x{high}")
            }
            Invariant::SpOffset { point, offset } => {
                let point = Address(*point);
                let offset = Address(*offset);
                write!(f, "sp-offset {point} {offset}")
            }
        }
    }
}
