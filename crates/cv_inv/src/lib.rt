//! Invariants: whether one holds of a run's registers, their order, and their text
//! (docs/REPAIR.md, "Invariants").
#![tactic(auto)]

mod holding;
mod ordering;
mod text;

pub use holding::{holds, names, point_of};
pub use ordering::{compare, equal_order_is_equality, order_is_total};
pub use text::text_of;
