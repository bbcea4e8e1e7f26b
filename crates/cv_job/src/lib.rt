//! Reads a job, which says what is to be run: a JSON file with an image's name, the workers, checks
//! and budget, and the rounds of inputs (docs/FORMATS.md, "Job").
#![tactic(auto)]

mod count;
mod fields;
mod job;
mod json;
mod line;
mod reader;
mod rounds;
#[cfg(test)]
mod tests;

pub use count::runs_in;
pub use job::{Job, JobFail, JobFault, JobField};
pub use line::job_line;
pub use reader::{fault_names_first_broken_field, read_job};
