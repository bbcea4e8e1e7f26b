ghost use Rattle.cv_job.specs.Answers.{ReadsJson};
ghost use Rattle.cv_job.specs.Json.{json_of};

use crate::job::{JobFail, JobFault};
use serde_json::Value;
use std::alloc::Global;

// The value that the bytes are the text of.
#[tactic(auto, using(crate::proofs::Views::json_some, crate::proofs::Views::json_none))]
pub(crate) fn read_json(alloc: Global, bytes: &[u8]) -> Result<Value, JobFail>
    ensures { ReadsJson (json_of bytes.now) result }
{
    match Value::from_slice(alloc, bytes) {
        Ok(value) => Ok(value),
        Err(error) => {
            if error.is_memory() {
                Err(JobFail::NoMemory)
            } else {
                Err(JobFail::Refused(JobFault::NotJson))
            }
        }
    }
}
