ghost use Rattle.std.specs.Prelude.{◌≡◌};
ghost use Rattle.cv_job.specs.JobOf.{plan_of};

use cv_base::{Image, Items, NoMemory, Plan, Round, Text};
use std::fmt;
use std::marker::Model;

/// A field of a job, in the order in which they are tested.
#[derive(Clone, Copy, Debug, PartialEq, Eq)]
pub enum JobField {
    /// The image's name: a string of 1 to 4,096 bytes.
    Image,
    /// A whole number from 1 to 16.
    Workers,
    /// A whole number from 2 to 8.
    Checks,
    /// Turns: a whole number from 1 to 10,000,000.
    Budget,
    /// 1 to 64 rounds, each with a mode, and inputs of at most 65,536 bytes.
    Rounds,
}

/// Why a file is no job (docs/FORMATS.md, "Job").
#[derive(Clone, Copy, Debug, PartialEq, Eq)]
pub enum JobFault {
    /// The bytes are not the text of one JSON value.
    NotJson,
    /// The value is no object.
    NotObject,
    /// The first field whose rule fails.
    Field(JobField),
    /// The rounds have more than 1,024 inputs in all.
    TooManyRuns,
}

/// Why no job was read.
#[derive(Clone, Copy, Debug, PartialEq, Eq)]
pub enum JobFail {
    /// The file is no job: the first fault.
    Refused(JobFault),
    /// Memory was refused.
    NoMemory,
}

/// What a job's file says: the image's name in 1 to 4,096 bytes, 1 to 16 workers, 2 to 8 checks, a
/// budget of 1 to 10,000,000 turns, and 1 to 64 rounds with 1 to 1,024 inputs in all. Each round
/// has an input, and an input has at most 65,536 bytes.
#[derive(Debug, Drop)]
pub struct Job {
    pub image: Text,
    pub workers: u32,
    pub checks: u32,
    pub budget: u32,
    pub rounds: Items<Round>,
}

impl Model for Job {
    ghost use Rattle.cv_job.specs.JobOf.{IsJob, JobOf, job_with};

    ghost Value = { JobOf };

    ghost view = { λ j. job_with j.image j.workers j.checks j.budget j.rounds };

    ghost invariant = { λ j. IsJob (job_with j.image j.workers j.checks j.budget j.rounds) };
}

impl Job {
    /// The plan that runs the job's image, fetched by its name. It takes no memory.
    pub fn into_plan(self, image: Image) -> Plan
        ensures { result ≡ plan_of self image }
    {
        Plan {
            image,
            workers: self.workers,
            checks: self.checks,
            budget: self.budget,
            rounds: self.rounds,
        }
    }
}

impl From<NoMemory> for JobFail {
    ghost use Rattle.std.specs.Prelude.{◌≡◌};
    ghost use Rattle.cv_job.specs.declared.job.JobFail.TheVariants as fail;

    ghost from_gives = { λ _ r. r ≡ fail.NoMemory };

    fn from(_error: NoMemory) -> JobFail {
        JobFail::NoMemory
    }
}

impl fmt::Display for JobField {
    ghost use Rattle.std.specs.Prelude.{Some};
    ghost use Rattle.cv_job.specs.JobFaultText.{field_text};

    ghost output = { λ f. Some (field_text f) };

    fn fmt<W: fmt::Write>(&self, f: &mut fmt::Formatter<W>) -> fmt::Result {
        f.write_str(match self {
            JobField::Image => "image",
            JobField::Workers => "workers",
            JobField::Checks => "checks",
            JobField::Budget => "budget",
            JobField::Rounds => "rounds",
        })
    }
}

impl fmt::Display for JobFault {
    ghost use Rattle.std.specs.Prelude.{Some};
    ghost use Rattle.cv_job.specs.JobFaultText.{fault_text};

    ghost output = { λ f. Some (fault_text f) };

    fn fmt<W: fmt::Write>(&self, f: &mut fmt::Formatter<W>) -> fmt::Result {
        match self {
            JobFault::NotJson => write!(f, "not-json"),
            JobFault::NotObject => write!(f, "not-object"),
            JobFault::Field(name) => write!(f, "field {name}"),
            JobFault::TooManyRuns => write!(f, "too-many-runs"),
        }
    }
}
