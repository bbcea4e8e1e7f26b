//! The report of a plan's history, and the line that `drill` writes of it (docs/FORMATS.md, "Report"
//! and "Texts of the commands").
#![tactic(auto)]

mod cases;
mod drill;
mod entries;
mod lists;
mod texts;
mod whole;

pub use drill::drill_text;
pub use entries::entry_line;
pub use lists::{Row, list_text};
pub use texts::bytes_text;
pub use whole::report;
