//! The outside: where files come from and where text goes, as traits; both in memory, for tests;
//! and both over the operating system, which is trusted. And gates, at which a test holds instances.
#![tactic(auto)]

mod counts;
mod disk;
#[cfg(test)]
mod disk_tests;
mod file_disk;
mod file_store;
mod gate;
mod mem_disk;
mod mem_sink;
mod mem_store;
mod sink;
mod std_sink;
mod step_gate;
mod store;
mod sure_sink;
#[cfg(test)]
mod tests;

pub use disk::{Disk, DiskFail};
pub use file_disk::FileDisk;
pub use file_store::FileStore;
pub use gate::{Gate, Moment, OpenGate};
pub use mem_disk::{MemDisk, Row};
pub use mem_sink::MemSink;
pub use mem_store::MemStore;
pub use sink::{Failed, Sink, write_all};
pub use std_sink::StdSink;
pub use step_gate::StepGate;
pub use store::{FetchFail, Fetched, Store};
pub use sure_sink::SureSink;
