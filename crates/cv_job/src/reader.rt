ghost use Rattle.std.specs.Prelude.{◌≡◌, ◌↔◌, Some, Err, IfOk};
ghost use Rattle.serde_json.specs.Data.{Data};
ghost use Rattle.serde_json.specs.View.{view};
ghost use Rattle.cv_job.specs.Answers.{Answers};
ghost use Rattle.cv_job.specs.FirstBroken.{first_broken, rules_of};
ghost use Rattle.cv_job.specs.JobOf.{IsJob};
ghost use Rattle.cv_job.specs.Reading.{fields_of, reading_of};
ghost use Rattle.cv_job.specs.declared.job.JobField.{JobField as FieldName};
ghost use Rattle.cv_job.specs.declared.job.JobFail.TheVariants as fail;
ghost use Rattle.cv_job.specs.declared.job.JobFault.TheVariants as fault;

use crate::count::are_few;
use crate::fields::{number_in, text_in};
use crate::job::{Job, JobFail, JobFault, JobField};
use crate::json::read_json;
use crate::rounds::rounds_in;
use cv_base::Text;
use serde_json::Value;
use std::alloc::Global;

/// The job that a file's bytes are (docs/FORMATS.md, "Job"). `Refused` has the first fault: the
/// bytes are no JSON, the value is no object, a field's rule fails, or there are too many runs. Of
/// equal keys the last stands, and other fields are ignored. `NoMemory` is that memory was refused.
pub fn read_job(alloc: Global, bytes: &[u8]) -> Result<Job, JobFail>
    ensures reading { Answers (reading_of bytes.now) result }
    ensures limits { IfOk result IsJob }
{
    let value = read_json(alloc, bytes)?;
    if !value.is_object() {
        return Err(JobFail::Refused(JobFault::NotObject));
    }
    read_fields(alloc, &value)
}

fn read_fields(alloc: Global, value: &Value) -> Result<Job, JobFail>
    ensures reading { Answers (fields_of (view value.now)) result }
    ensures limits { IfOk result IsJob }
{
    let Some(name) = text_in(value, "image", 1, 4096) else {
        return Err(broken(JobField::Image));
    };
    let Some(workers) = number_in(value, "workers", 1, 16) else {
        return Err(broken(JobField::Workers));
    };
    let Some(checks) = number_in(value, "checks", 2, 8) else {
        return Err(broken(JobField::Checks));
    };
    let Some(budget) = number_in(value, "budget", 1, 10_000_000) else {
        return Err(broken(JobField::Budget));
    };
    let Some(rounds) = rounds_in(alloc, value)? else {
        return Err(broken(JobField::Rounds));
    };
    if !are_few(rounds.as_slice()) {
        return Err(JobFail::Refused(JobFault::TooManyRuns));
    }
    let image = Text::from_str(alloc, name)?;
    Ok(Job {
        image,
        workers,
        checks,
        budget,
        rounds,
    })
}

fn broken(field: JobField) -> JobFail
    ensures { result ≡ fail.Refused (fault.Field field) }
{
    JobFail::Refused(JobFault::Field(field))
}

/// A law of the definitions, with nothing to run: the fault of a field names the first field, in
/// the order image, workers, checks, budget, rounds, whose rule fails.
pub fn fault_names_first_broken_field()
    ensures { (d : Data) (f : FieldName)
        → (fields_of d ≡ Err (fault.Field f)) ↔ (first_broken (rules_of d) ≡ Some f) }
{}
