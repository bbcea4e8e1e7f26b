ghost use Rattle.std.specs.Prelude.{◌≡◌, ◌≢◌, ◌≤◌, length, IfErr, IfOk, IfSome, IsErrOf};
ghost use Rattle.cv_asm.specs.Source.{source_of};
ghost use Rattle.cv_journal.specs.JournalOf.{journal_of};
ghost use Rattle.cv_edge.specs.Edge.{FetchesOnce, FetchesUpTo, HasCause};
ghost use Rattle.clearview.specs.Gives.{Gives, IsEarly, IsUnread, bytes_in, plan_by, report_told};
ghost use Rattle.clearview.specs.Verdict.{image_in, image_reading, job_in, plan_in, refused, report_in, source_in};
ghost use Rattle.clearview.specs.Words.{a_plan, a_report, a_source, an_image};
ghost use Rattle.clearview.specs.declared.cause.Cause.TheVariants as cause;

use crate::cause::Cause;
use cv_asm::assemble;
use cv_base::{Entry, Image, Items, Plan};
use cv_edge::{Fetched, Store};
use cv_elf::elf;
use cv_image::flat;
use cv_job::{Job, read_job};
use cv_journal::read_entries;
use std::alloc::Global;

/// The most bytes that an image's file may have.
const IMAGE_LIMIT: u32 = 4_194_304;

/// The most bytes that a job's file may have.
const JOB_LIMIT: u32 = 16_777_216;

/// The most bytes that a source's file may have.
const SOURCE_LIMIT: u32 = 4_194_304;

/// The most bytes that a report's file may have.
const REPORT_LIMIT: u32 = 268_435_456;

/// A report's text, and the entries of its journal.
#[derive(Drop)]
pub struct Journal {
    pub text: Items<u8>,
    pub entries: Items<Entry>,
}

/// The plan of the job that a file holds, with the image that the job names, or the cause against
/// it (docs/FORMATS.md, "Causes and statuses"). It fetches the job, and then the image.
#[tactic(auto, using(crate::proofs::Fetching::plan_went_on, crate::proofs::Fetching::plan_stopped, crate::proofs::Commands::fetches_more, crate::proofs::Commands::fetches_twice))]
pub fn plan_of<S: Store>(alloc: Global, store: &mut S, name: &str) -> Result<Plan, Cause>
    ensures gives { IfSome (S.told store.old) (λ held. Gives (plan_in held.file name.now) result) }
    ensures early { IfErr result (λ c. IsEarly a_plan c) }
    ensures fault { HasCause (S.faults store.old) (S.faults store.new) (IsErrOf result Cause.StoreFault) }
    ensures fetches { FetchesUpTo 2 (S.told store.old) (S.told store.new) }
{
    let job = job_of(alloc, store, name)?;
    job_plan(alloc, store, job)
}

/// The plan of a job, whose image is fetched by its name, or the cause against it.
#[tactic(auto, using(crate::proofs::Fetching::plan_made, crate::proofs::Fetching::plan_against, crate::proofs::Early::image_of_plan))]
fn job_plan<S: Store>(alloc: Global, store: &mut S, job: Job) -> Result<Plan, Cause>
    ensures gives { IfSome (S.told store.old) (λ held. Gives (plan_by job held.file) result) }
    ensures early { IfErr result (λ c. IsEarly a_plan c) }
    ensures fault { HasCause (S.faults store.old) (S.faults store.new) (IsErrOf result Cause.StoreFault) }
    ensures fetches { FetchesOnce (S.told store.old) (S.told store.new) }
{
    let image = image_of(alloc, store, job.image.as_str())?;
    Ok(job.into_plan(image))
}

/// The image that a file holds, or the cause against it (docs/FORMATS.md, "Causes and statuses").
/// It fetches once.
#[tactic(auto, using(crate::proofs::Fetching::image_read, crate::proofs::Fetching::image_unread, crate::proofs::Early::unread_image))]
pub fn image_of<S: Store>(alloc: Global, store: &mut S, name: &str) -> Result<Image, Cause>
    ensures gives { IfSome (S.told store.old) (λ held. Gives (image_in (held.file name.now)) result) }
    ensures early { IfErr result (λ c. IsEarly an_image c) }
    ensures fault { HasCause (S.faults store.old) (S.faults store.new) (IsErrOf result Cause.StoreFault) }
    ensures fetches { FetchesOnce (S.told store.old) (S.told store.new) }
{
    let bytes = bytes_of(alloc, store, name, IMAGE_LIMIT, Cause::ImageLong)?;
    read_image(alloc, bytes.as_slice())
}

/// The job that a file holds, or the cause against it (docs/FORMATS.md, "Causes and statuses"). It
/// fetches once.
#[tactic(auto, using(crate::proofs::Fetching::job_read, crate::proofs::Fetching::job_unread, crate::proofs::Early::unread_job))]
pub fn job_of<S: Store>(alloc: Global, store: &mut S, name: &str) -> Result<Job, Cause>
    ensures gives { IfSome (S.told store.old) (λ held. Gives (job_in (held.file name.now)) result) }
    ensures early { IfErr result (λ c. IsEarly a_plan c) }
    ensures fault { HasCause (S.faults store.old) (S.faults store.new) (IsErrOf result Cause.StoreFault) }
    ensures fetches { FetchesOnce (S.told store.old) (S.told store.new) }
{
    let bytes = bytes_of(alloc, store, name, JOB_LIMIT, Cause::JobLong)?;
    Ok(read_job(alloc, bytes.as_slice())?)
}

/// The words of the source that a file holds, or the cause against them (docs/FORMATS.md, "Causes
/// and statuses"). It fetches once.
#[tactic(auto, using(crate::proofs::Fetching::source_read, crate::proofs::Fetching::source_unread, crate::proofs::Early::unread_source))]
pub fn source_words<S: Store>(alloc: Global, store: &mut S, name: &str) -> Result<Items<u32>, Cause>
    ensures gives { IfSome (S.told store.old) (λ held. Gives (source_in (held.file name.now)) result) }
    ensures early { IfErr result (λ c. IsEarly a_source c) }
    ensures fault { HasCause (S.faults store.old) (S.faults store.new) (IsErrOf result Cause.StoreFault) }
    ensures fetches { FetchesOnce (S.told store.old) (S.told store.new) }
{
    let bytes = bytes_of(alloc, store, name, SOURCE_LIMIT, Cause::AsmLong)?;
    read_source(alloc, bytes.as_slice())
}

/// The report that a file holds with its journal, or the cause against it (docs/FORMATS.md, "Causes
/// and statuses"). It fetches once.
#[tactic(auto, using(crate::proofs::Fetching::report_read, crate::proofs::Fetching::report_refused, crate::proofs::Fetching::report_unread, crate::proofs::Early::unread_report))]
pub fn journal_of<S: Store>(alloc: Global, store: &mut S, name: &str) -> Result<Journal, Cause>
    ensures gives { IfSome (S.told store.old) (λ held. Gives (report_in (held.file name.now)) (report_told result)) }
    ensures early { IfErr result (λ c. IsEarly a_report c) }
    ensures fault { HasCause (S.faults store.old) (S.faults store.new) (IsErrOf result Cause.StoreFault) }
    ensures fetches { FetchesOnce (S.told store.old) (S.told store.new) }
{
    let text = bytes_of(alloc, store, name, REPORT_LIMIT, Cause::ReportLong)?;
    let entries = read_journal(alloc, text.as_slice())?;
    Ok(Journal { text, entries })
}

/// The bytes of a file, or the cause against them: `longer` where there are more than `limit`.
fn bytes_of<S: Store>(
    alloc: Global,
    store: &mut S,
    name: &str,
    limit: u32,
    longer: Cause,
) -> Result<Items<u8>, Cause>
    requires refusal { longer ≢ Cause.StoreFault }
    ensures gives { IfSome (S.told store.old) (λ held. Gives (bytes_in limit longer (held.file name.now)) result) }
    ensures few { IfOk result (λ bytes. length bytes ≤ limit) }
    ensures early { IfErr result (λ c. IsUnread longer c) }
    ensures fault { HasCause (S.faults store.old) (S.faults store.new) (IsErrOf result Cause.StoreFault) }
    ensures fetches { FetchesOnce (S.told store.old) (S.told store.new) }
{
    match store.fetch(alloc, name, limit)? {
        Fetched::Missing => Err(Cause::FileMissing),
        Fetched::Whole(bytes) => Ok(bytes),
        Fetched::Longer(_) => Err(longer),
    }
}

/// The image that bytes are: a file that begins as ELF files do is read as ELF, every other as
/// words.
fn read_image(alloc: Global, bytes: &[u8]) -> Result<Image, Cause>
    ensures gives { Gives (refused (λ f. Cause.ImageRefused f) (image_reading bytes.now)) result }
    ensures early { IfErr result (λ c. IsEarly an_image c) }
    ensures refusal { IfErr result (λ c. c ≢ Cause.StoreFault) }
{
    if bytes.starts_with(&[0x7f, 0x45, 0x4c, 0x46]) {
        Ok(elf(alloc, bytes)?)
    } else {
        Ok(flat(alloc, bytes)?)
    }
}

/// The words of a source, or why it is refused.
fn read_source(alloc: Global, text: &[u8]) -> Result<Items<u32>, Cause>
    requires { length text.now ≤ 4194304 }
    ensures gives { Gives (refused (λ f. Cause.AsmRefused f) (source_of text.now)) result }
    ensures early { IfErr result (λ c. IsEarly a_source c) }
    ensures refusal { IfErr result (λ c. c ≢ Cause.StoreFault) }
{
    let words = assemble(alloc, text)?;
    Ok(Items::from_vec(words))
}

/// The entries of a report's journal, or why there is none.
fn read_journal(alloc: Global, text: &[u8]) -> Result<Items<Entry>, Cause>
    requires { length text.now ≤ 268435456 }
    ensures gives { Gives (refused (λ f. Cause.ReportRefused f) (journal_of text.now)) result }
    ensures early { IfErr result (λ c. IsEarly a_report c) }
    ensures refusal { IfErr result (λ c. c ≢ Cause.StoreFault) }
{
    Ok(read_entries(alloc, text)?)
}
