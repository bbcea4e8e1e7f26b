//! The book under the office's lock, and the passes of an office: they draw runs of a round, enter
//! block entries under the newest version, fetch its table, and post the records of their runs
//! (docs/REPAIR.md, "The office").
#![tactic(auto)]

mod adopter;
mod desk;
mod making;
mod office;
mod pass;
mod rounds;

pub use adopter::Seated;
pub use desk::{Desk, Unposted};
pub use making::{Making, Setting};
pub use office::{Draft, Office, Unmade};
pub use pass::{Pass, Ticket};
