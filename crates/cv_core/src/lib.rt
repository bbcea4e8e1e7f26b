//! A plan's history, legal at every moment, and the history in which its runs are taken in order
//! (docs/REPAIR.md, "Legal histories" and "The serial history").
#![tactic(auto)]

mod book;
mod newest;
mod serial;

pub use book::{Book, Unbooked};
pub use serial::run_in_order;
