ghost use Rattle.std.specs.Prelude.{◌≡◌, [], ◌≢◌, ◌⊎◌, ◌↔◌, ◌≤◌, Ok, Some, None, false, length, map, string_bytes, IfErr, IfSome, IsErrOf, IsTrue};
ghost use Rattle.cv_edge.specs.Edge.{FetchesOnce, FetchesUpTo, HasCause, Rose};
ghost use Rattle.clearview.specs.Causes.{status_of, concerns, Completes, Ends, Silent, Writes};
ghost use Rattle.clearview.specs.Gives.{Gives, IsEarly};
ghost use Rattle.clearview.specs.Headline.{Comes, outside};
ghost use Rattle.clearview.specs.Verdict.{files_for, told_files, verdict_by};
ghost use Rattle.clearview.specs.Views.{command_view};
ghost use Rattle.clearview.specs.Words.{command_of, a_plan, an_image, files_named, judges_report, keeps_book, reads_of, IsShort, Plain, Check, Infer};

use crate::asm::asm;
use crate::cause::{Cause, Finish};
use crate::files::{image_of, plan_of};
use crate::infer::infer_text;
use crate::list::list;
use crate::plain::plain_text;
use crate::texts::{check_text, in_bytes};
use crate::words::{Command, read};
use cv_base::Items;
use cv_edge::{Failed, Sink, Store, write_all};
use std::alloc::Global;

/// Does the command that words are, which posts no runs to a book and judges no report: fetches the
/// files that it names, and writes its text whole (docs/FORMATS.md, "Causes and statuses").
pub fn tool<S: Store, K: Sink>(
    alloc: Global,
    words: &[String],
    store: &mut S,
    sink: &mut K,
) -> Finish
    requires book { keeps_book (command_of (map string_bytes words.now)) ≡ false }
    requires report { judges_report (command_of (map string_bytes words.now)) ≡ false }
    ensures none { result.book ≡ None }
    ensures unjudged { result.found ≡ None }
    ensures status { result.status ≡ status_of result.cause }
    ensures comes { Comes (command_of (map string_bytes words.now)) (outside (S.told store.old) (S.faults store.old) (K.written sink.old) (K.faults sink.old)) (outside (S.told store.new) (S.faults store.new) (K.written sink.new) (K.faults sink.new)) result.cause result.book result.found }
{
    let cause = carried_out(alloc, words, store, sink);
    Finish {
        status: cause.status(),
        cause,
        book: None,
        found: None,
    }
}

/// Does such a command: how it ended.
fn carried_out<S: Store, K: Sink>(
    alloc: Global,
    words: &[String],
    store: &mut S,
    sink: &mut K,
) -> Cause
    requires book { keeps_book (command_of (map string_bytes words.now)) ≡ false }
    requires report { judges_report (command_of (map string_bytes words.now)) ≡ false }
    ensures usage { (result ≡ Cause.Usage) ↔ (command_of (map string_bytes words.now) ≡ None) }
    ensures reads { IsTrue (concerns (reads_of (command_of (map string_bytes words.now))) result) }
    ensures ends { IfSome (files_for (command_of (map string_bytes words.now)) (S.told store.old)) (λ file. Ends (verdict_by (command_of (map string_bytes words.now)) file [] None) result) }
    ensures writes { IfSome (files_for (command_of (map string_bytes words.now)) (S.told store.old)) (λ file. Writes (verdict_by (command_of (map string_bytes words.now)) file [] None) result (K.written sink.old) (K.written sink.new)) }
    ensures complete { IfSome (files_for (command_of (map string_bytes words.now)) (S.told store.old)) (λ file. Completes (verdict_by (command_of (map string_bytes words.now)) file [] None) (Rose (S.faults store.old) (S.faults store.new)) (Rose (K.faults sink.old) (K.faults sink.new)) result) }
    ensures silent { Silent result (K.written sink.old) (K.written sink.new) }
    ensures store_fault { HasCause (S.faults store.old) (S.faults store.new) (result ≡ Cause.StoreFault) }
    ensures sink_fault { HasCause (K.faults sink.old) (K.faults sink.new) (result ≡ Cause.SinkFault) }
    ensures fetches { FetchesUpTo (files_named (command_of (map string_bytes words.now))) (S.told store.old) (S.told store.new) }
{
    match text_of(alloc, words, store) {
        Ok(text) => written(sink, text.as_slice()),
        Err(cause) => cause,
    }
}

/// Writes a text whole: Done, or SinkFault where the sink failed.
pub(crate) fn written<K: Sink>(sink: &mut K, text: &[u8]) -> Cause
    ensures ends { (result ≡ Cause.Done) ⊎ (result ≡ Cause.SinkFault) }
    ensures writes { Writes (Ok text.now) result (K.written sink.old) (K.written sink.new) }
    ensures fault { HasCause (K.faults sink.old) (K.faults sink.new) (result ≡ Cause.SinkFault) }
{
    match write_all(sink, text) {
        Ok(()) => Cause::Done,
        Err(Failed) => Cause::SinkFault,
    }
}

/// The text of the command that words are, or the cause against it.
#[tactic(auto, using(crate::proofs::Commands::fetches_none))]
fn text_of<S: Store>(alloc: Global, words: &[String], store: &mut S) -> Result<Items<u8>, Cause>
    requires book { keeps_book (command_of (map string_bytes words.now)) ≡ false }
    requires report { judges_report (command_of (map string_bytes words.now)) ≡ false }
    ensures gives { IfSome (files_for (command_of (map string_bytes words.now)) (S.told store.old)) (λ file. Gives (verdict_by (command_of (map string_bytes words.now)) file [] None) result) }
    ensures usage { IsErrOf result Cause.Usage ↔ (command_of (map string_bytes words.now) ≡ None) }
    ensures done { IfErr result (λ c. (c ≢ Cause.Done) × (c ≢ Cause.SinkFault)) }
    ensures reads { IfErr result (λ c. IsTrue (concerns (reads_of (command_of (map string_bytes words.now))) c)) }
    ensures fault { HasCause (S.faults store.old) (S.faults store.new) (IsErrOf result Cause.StoreFault) }
    ensures fetches { FetchesUpTo (files_named (command_of (map string_bytes words.now))) (S.told store.old) (S.told store.new) }
{
    match read(alloc, words) {
        Ok(Some(command)) => command_text(alloc, &command, store),
        Ok(None) => Err(Cause::Usage),
        Err(error) => Err(error.into()),
    }
}

fn command_text<S: Store>(
    alloc: Global,
    command: &Command<'_>,
    store: &mut S,
) -> Result<Items<u8>, Cause>
    requires { IsShort (command_view command.now) }
    ensures gives { IfSome (files_for (Some (command_view command.now)) (S.told store.old)) (λ file. Gives (verdict_by (Some (command_view command.now)) file [] None) result) }
    ensures early { IfErr result (λ c. IsEarly (reads_of (Some (command_view command.now))) c) }
    ensures fault { HasCause (S.faults store.old) (S.faults store.new) (IsErrOf result Cause.StoreFault) }
    ensures fetches { FetchesUpTo (files_named (Some (command_view command.now))) (S.told store.old) (S.told store.new) }
{
    match command {
        Command::Plain {
            image,
            budget,
            input,
        } => plain(alloc, store, image, *budget, input.as_slice()),
        Command::Check { job } => check(alloc, store, job),
        Command::Infer { job } => infer(alloc, store, job),
        Command::Asm { source } => asm(alloc, store, source),
        Command::Listing { image } => list(alloc, store, image),
    }
}

#[tactic(auto, using(crate::proofs::Commands::plain_ran, crate::proofs::Commands::plain_against))]
fn plain<S: Store>(
    alloc: Global,
    store: &mut S,
    image: &str,
    budget: u32,
    input: &[u8],
) -> Result<Items<u8>, Cause>
    requires { length input.now ≤ 65536 }
    ensures gives { IfSome (told_files (S.told store.old)) (λ file. Gives (verdict_by (Some (Plain image.now budget input.now)) file [] None) result) }
    ensures early { IfErr result (λ c. IsEarly an_image c) }
    ensures fault { HasCause (S.faults store.old) (S.faults store.new) (IsErrOf result Cause.StoreFault) }
    ensures fetches { FetchesOnce (S.told store.old) (S.told store.new) }
{
    let image = image_of(alloc, store, image)?;
    let text = plain_text(alloc, &image, input, budget)?;
    Ok(in_bytes(text))
}

#[tactic(auto, using(crate::proofs::Commands::check_ran, crate::proofs::Commands::check_against))]
fn check<S: Store>(alloc: Global, store: &mut S, job: &str) -> Result<Items<u8>, Cause>
    ensures gives { IfSome (told_files (S.told store.old)) (λ file. Gives (verdict_by (Some (Check job.now)) file [] None) result) }
    ensures early { IfErr result (λ c. IsEarly a_plan c) }
    ensures fault { HasCause (S.faults store.old) (S.faults store.new) (IsErrOf result Cause.StoreFault) }
    ensures fetches { FetchesUpTo 2 (S.told store.old) (S.told store.new) }
{
    let plan = plan_of(alloc, store, job)?;
    let text = check_text(alloc, &plan)?;
    Ok(in_bytes(text))
}

#[tactic(auto, using(crate::proofs::Commands::infer_ran, crate::proofs::Commands::infer_against))]
fn infer<S: Store>(alloc: Global, store: &mut S, job: &str) -> Result<Items<u8>, Cause>
    ensures gives { IfSome (told_files (S.told store.old)) (λ file. Gives (verdict_by (Some (Infer job.now)) file [] None) result) }
    ensures early { IfErr result (λ c. IsEarly a_plan c) }
    ensures fault { HasCause (S.faults store.old) (S.faults store.new) (IsErrOf result Cause.StoreFault) }
    ensures fetches { FetchesUpTo 2 (S.told store.old) (S.told store.new) }
{
    let plan = plan_of(alloc, store, job)?;
    let text = infer_text(alloc, &plan)?;
    Ok(in_bytes(text))
}
