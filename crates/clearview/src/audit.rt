ghost use Rattle.std.specs.Prelude.{◌≡◌, [], ◌++◌, Some, codes, string_bytes, IfErr, IfOk, IfSome, IsErrOf};
ghost use Rattle.std.specs.Fmt.{decimal};
ghost use Rattle.std.specs.Str.{bytes_eq};
ghost use Rattle.cv_edge.specs.Edge.{FetchesUpTo, HasCause};
ghost use Rattle.cv_histories.specs.Report.{line, report};
ghost use Rattle.clearview.specs.Causes.{status_of};
ghost use Rattle.clearview.specs.Gives.{Gives, IsEarly, found_told, text_told};
ghost use Rattle.clearview.specs.Headline.{Comes, outside};
ghost use Rattle.clearview.specs.Judged.{IsJudged, judgement_text, same_line};
ghost use Rattle.clearview.specs.Verdict.{IsFound, files_for, verdict_by};
ghost use Rattle.clearview.specs.Views.{charge_view};
ghost use Rattle.clearview.specs.Words.{a_report};
ghost use Rattle.clearview.specs.declared.judgement.Judgement.TheVariants as judgement;

use crate::cause::{Cause, Finish};
use crate::files::{Journal, journal_of, plan_of};
use crate::judgement::{Judgement, Told};
use crate::texts::in_bytes;
use crate::tool::written;
use crate::words::Charge;
use cv_audit::{Verdict, audit as judge};
use cv_base::{NoMemory, Plan};
use cv_core::Book;
use cv_edge::{Sink, Store};
use cv_report::report;
use std::alloc::Global;

/// Judges a report against its job, and writes what is found (docs/REPAIR.md, "Audit").
pub fn audit<S: Store, K: Sink>(
    alloc: Global,
    charge: &Charge<'_>,
    store: &mut S,
    sink: &mut K,
) -> Finish
    ensures status { result.status ≡ status_of result.cause }
    ensures comes { Comes (Some (charge_view charge.now)) (outside (S.told store.old) (S.faults store.old) (K.written sink.old) (K.faults sink.old)) (outside (S.told store.new) (S.faults store.new) (K.written sink.new) (K.faults sink.new)) result.cause result.book result.found }
{
    match judged(alloc, charge, store) {
        Ok(told) => {
            let cause = written(sink, told.text.as_slice());
            Finish {
                status: cause.status(),
                cause,
                book: None,
                found: Some(told.found),
            }
        }
        Err(cause) => Finish {
            status: cause.status(),
            cause,
            book: None,
            found: None,
        },
    }
}

/// What is found of a report, with its text, or the cause against it. It fetches the job, the image and
/// the report.
#[tactic(auto, using(crate::proofs::Auditing::audit_judged, crate::proofs::Auditing::audit_found, crate::proofs::Auditing::audit_no_plan, crate::proofs::Auditing::audit_no_report, crate::proofs::Auditing::fetches_thrice, crate::proofs::Auditing::fetches_fewer, crate::proofs::Early::plan_of_report))]
fn judged<S: Store>(alloc: Global, charge: &Charge<'_>, store: &mut S) -> Result<Told, Cause>
    ensures gives { IfSome (files_for (Some (charge_view charge.now)) (S.told store.old)) (λ file. Gives (verdict_by (Some (charge_view charge.now)) file [] (found_told result)) (text_told result)) }
    ensures found { IfSome (files_for (Some (charge_view charge.now)) (S.told store.old)) (λ file. IfSome (found_told result) (IsFound (Some (charge_view charge.now)) file)) }
    ensures early { IfErr result (λ c. IsEarly a_report c) }
    ensures fault { HasCause (S.faults store.old) (S.faults store.new) (IsErrOf result Cause.StoreFault) }
    ensures fetches { FetchesUpTo 3 (S.told store.old) (S.told store.new) }
{
    let plan = plan_of(alloc, store, charge.job)?;
    let journal = journal_of(alloc, store, charge.report)?;
    Ok(judgement_of(alloc, plan, &journal)?)
}

/// What is found of a report of a plan, with its text.
fn judgement_of(alloc: Global, plan: Plan, journal: &Journal) -> Result<Told, NoMemory>
    ensures found { IfOk result (λ told. IsJudged plan journal.now.entries told.found) }
    ensures text { IfOk result (λ told. told.text ≡ judgement_text plan journal.now.text journal.now.entries told.found) }
{
    match judge(alloc, plan, journal.entries.as_slice())? {
        Verdict::Sound(book) => {
            let text = sound_text(alloc, &book, journal.text.as_slice())?;
            Ok(told(Judgement::Sound, text))
        }
        Verdict::Wrong { at, clause } => {
            let text = wrong_text(alloc, at, clause)?;
            Ok(told(Judgement::Wrong { at, clause }, text))
        }
        Verdict::Missing { run } => {
            let text = format!(in alloc; "missing run {run}\n")?;
            Ok(told(Judgement::Missing { run }, text))
        }
    }
}

/// What was found, with its text.
pub(crate) fn told(found: Judgement, text: String) -> Told
    ensures { result ≡ record { found = found; text = string_bytes text } }
{
    let text = in_bytes(text);
    Told { found, text }
}

/// What is written of a report with a wrong entry.
pub(crate) fn wrong_text(alloc: Global, number: u32, clause: u32) -> Result<String, NoMemory>
    ensures { IfOk result (λ s. string_bytes s ≡ codes "wrong entry " ++ decimal number ++ codes " clause " ++ decimal clause ++ codes "\n") }
{
    Ok(format!(in alloc; "wrong entry {number} clause {clause}\n")?)
}

/// What is written of a report whose entries are the whole history of a book.
fn sound_text(alloc: Global, book: &Book, text: &[u8]) -> Result<String, NoMemory>
    ensures { IfOk result (λ s. string_bytes s ≡ line (codes "sound") ++ same_line (bytes_eq text.now (report book.now.plan book.now.past))) }
{
    let own = report(alloc, book.manager())?;
    if text == own.as_bytes() {
        Ok(format!(in alloc; "sound\ntext same\n")?)
    } else {
        Ok(format!(in alloc; "sound\ntext differs\n")?)
    }
}
