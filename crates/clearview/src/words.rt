ghost use Rattle.std.specs.Prelude.{◌≡◌, ◌≤◌, ◌^◌, ◌&&◌, ℕ, List, Ok, Some, None, false, true, is_some, length, map, nat_lt, string_bytes, IfOk, IfSome, IsErr, IsSome, if◌then◌else◌};
ghost use Rattle.std.specs.Char.{is_ascii_hexdigit};
ghost use Rattle.std.specs.List.{list_all};
ghost use Rattle.std.specs.Option.{option_map};
ghost use Rattle.clearview.specs.Words.{command_of, Audit, IsShort, Kept, few_digits, keeps_rounds, replay_of, shows_turn, file_command, judges_report, pair_command, plain_of, is_digit, is_name, number_from, budget_of, input_of, drill_number, drill_of, drill_runs, keeps_book};
ghost use Rattle.clearview.specs.Views.{charge_view, command_view, order_view, visit_view};

use cv_base::{Items, NoMemory};
use hex::FromHexError;
use std::alloc::Global;

/// The highest budget, in turns.
const MAX_BUDGET: u64 = 10_000_000;

/// The most live runs of a drill.
const MAX_RUNS: u64 = 1_022;

/// The most hexadecimal digits of an input: two for each of 65,536 bytes.
const MAX_INPUT_DIGITS: usize = 131_072;

/// What a list of words asks for, where no runs are posted to a book and no report is judged
/// (docs/FORMATS.md, "Words").
#[derive(Debug, Drop)]
pub enum Command<'a> {
    /// To run an image for at most `budget` turns, 1 to 10,000,000, with an input of at most
    /// 65,536 bytes.
    Plain {
        image: &'a str,
        budget: u32,
        input: Items<u8>,
    },
    /// To say what a job and its image hold.
    Check {
        job: &'a str,
    },
    /// To learn from a job's learn runs.
    Infer {
        job: &'a str,
    },
    /// To make a flat image of a source of assembly.
    Asm {
        source: &'a str,
    },
    /// To list the words of an image's text.
    Listing {
        image: &'a str,
    },
}

/// What a list of words asks for, where the runs are posted to a book (docs/FORMATS.md, "Words").
#[derive(Clone, Copy, Debug)]
pub enum Order<'a> {
    /// To run a job.
    Run { job: &'a str },
    /// To run the plan that is made of a number, with 1 to 1,022 live runs.
    Drill { number: u64, runs: u32 },
}

/// A report to be judged against its job.
#[derive(Clone, Copy, Debug)]
pub struct Charge<'a> {
    pub job: &'a str,
    pub report: &'a str,
}

/// A turn of a run to be shown, where a report of a job tells of the run.
#[derive(Clone, Copy, Debug)]
pub struct Visit<'a> {
    pub job: &'a str,
    pub report: &'a str,
    pub run: u32,
    pub turn: u32,
}

/// The job whose rounds words ask to keep; None where they ask for something else (docs/FORMATS.md,
/// "Words").
pub fn kept_in(words: &[String]) -> Option<&str>
    ensures some { IfSome result (λ job. command_of (map string_bytes words.now) ≡ Some (Kept job.now)) }
    ensures none { result ≡ None → keeps_rounds (command_of (map string_bytes words.now)) ≡ false }
{
    match words {
        [name, job] => kept_job(name.as_str(), job.as_str()),
        _ => None,
    }
}

/// The job whose rounds two words ask to keep.
fn kept_job<'a>(name: &str, job: &'a str) -> Option<&'a str>
    ensures some { IfSome result (λ j. file_command name.now job.now ≡ Some (Kept j.now)) }
    ensures none { result ≡ None → keeps_rounds (file_command name.now job.now) ≡ false }
{
    if name == "kept" && is_name(job) {
        return Some(job);
    }
    None
}

/// What words that keep no rounds ask for, where the runs are posted to a book; None where they ask
/// for something else (docs/FORMATS.md, "Words").
pub fn order_in(words: &[String]) -> Option<Order<'_>>
    requires { keeps_rounds (command_of (map string_bytes words.now)) ≡ false }
    ensures some { IfSome result (λ o. command_of (map string_bytes words.now) ≡ Some (order_view o)) }
    ensures none { result ≡ None → keeps_book (command_of (map string_bytes words.now)) ≡ false }
    ensures short { IfSome result (λ o. IsShort (order_view o)) }
{
    match words {
        [name, job] => run_in(name.as_str(), job.as_str()),
        [name, number, runs] => drill_order(name.as_str(), number.as_str(), runs.as_str()),
        _ => None,
    }
}

/// The run that two words ask for.
fn run_in<'a>(name: &str, job: &'a str) -> Option<Order<'a>>
    requires { keeps_rounds (file_command name.now job.now) ≡ false }
    ensures some { IfSome result (λ o. file_command name.now job.now ≡ Some (order_view o)) }
    ensures none { result ≡ None → keeps_book (file_command name.now job.now) ≡ false }
    ensures short { IfSome result (λ o. IsShort (order_view o)) }
{
    if name == "run" && is_name(job) {
        return Some(Order::Run { job });
    }
    None
}

/// The drill that three words ask for.
#[tactic(auto, using(crate::proofs::Orders::keeps_pair))]
fn drill_order<'a>(name: &str, number: &str, runs: &str) -> Option<Order<'a>>
    ensures some { IfSome result (λ o. pair_command name.now number.now runs.now ≡ Some (order_view o)) }
    ensures none { result ≡ None → keeps_book (pair_command name.now number.now runs.now) ≡ false }
    ensures short { IfSome result (λ o. IsShort (order_view o)) }
{
    if name != "drill" {
        return None;
    }
    drill_in(number, runs)
}

/// The drill that words ask for.
fn drill_in<'a>(number: &str, runs: &str) -> Option<Order<'a>>
    ensures value { option_map order_view result ≡ drill_of number.now runs.now }
    ensures short { IfSome result (λ o. IsShort (order_view o)) }
{
    let number = drill_number_in(number)?;
    let runs = drill_runs_in(runs)?;
    Some(Order::Drill { number, runs })
}

/// The report that words that show no turn ask to judge, and its job; None where they ask for
/// something else (docs/FORMATS.md, "Words").
pub fn charge_in(words: &[String]) -> Option<Charge<'_>>
    requires { shows_turn (command_of (map string_bytes words.now)) ≡ false }
    ensures some { IfSome result (λ c. command_of (map string_bytes words.now) ≡ Some (charge_view c)) }
    ensures none { result ≡ None → judges_report (command_of (map string_bytes words.now)) ≡ false }
{
    match words {
        [name, job, report] => charge_of(name.as_str(), job.as_str(), report.as_str()),
        _ => None,
    }
}

/// The report that three words ask to judge.
fn charge_of<'a>(name: &str, job: &'a str, report: &'a str) -> Option<Charge<'a>>
    ensures some { IfSome result (λ c. pair_command name.now job.now report.now ≡ Some (charge_view c)) }
    ensures none { result ≡ None → judges_report (pair_command name.now job.now report.now) ≡ false }
{
    if is_charge(name, job, report) {
        return Some(Charge { job, report });
    }
    None
}

/// Whether three words ask to judge a report.
#[tactic(auto, using(crate::proofs::Orders::audit_asked, crate::proofs::Orders::audit_unasked))]
fn is_charge(name: &str, job: &str, report: &str) -> bool
    ensures asked { result ≡ true → pair_command name.now job.now report.now ≡ Some (Audit job.now report.now) }
    ensures none { result ≡ false → judges_report (pair_command name.now job.now report.now) ≡ false }
{
    let audits = name == "audit";
    let names = is_name(job) && is_name(report);
    audits && names
}

/// The turn that words ask to see, with its run and the report that tells of it; None where they ask
/// for something else (docs/FORMATS.md, "Words").
pub fn visit_in(words: &[String]) -> Option<Visit<'_>>
    ensures some { IfSome result (λ v. command_of (map string_bytes words.now) ≡ Some (visit_view v)) }
    ensures none { result ≡ None → shows_turn (command_of (map string_bytes words.now)) ≡ false }
{
    match words {
        [name, job, report, run, turn] => {
            if name.as_str() != "replay" {
                return None;
            }
            visit_of(job.as_str(), report.as_str(), run.as_str(), turn.as_str())
        }
        _ => None,
    }
}

/// The turn that four words behind `replay` ask to see.
fn visit_of<'a>(job: &'a str, report: &'a str, run: &str, turn: &str) -> Option<Visit<'a>>
    ensures { option_map visit_view result ≡ replay_of job.now report.now run.now turn.now }
{
    if !(is_name(job) && is_name(report)) {
        return None;
    }
    let run = few_digits_in(run, 4)?;
    let turn = few_digits_in(turn, 8)?;
    Some(Visit {
        job,
        report,
        run,
        turn,
    })
}

/// The number that decimal digits write, where there are at most so many.
#[tactic(auto, using(crate::proofs::Numbers::few_is, crate::proofs::Numbers::few_small))]
fn few_digits_in(word: &str, most: usize) -> Option<u32>
    requires { most ≤ 8 }
    ensures { result ≡ few_digits most word.now }
{
    let digits = word.as_bytes();
    if digits.is_empty() || digits.len() > most {
        return None;
    }
    let value = number_in(digits)?;
    Some(value as u32)
}

/// The command that words are, which posts no runs to a book and judges no report; None where they are
/// none (docs/FORMATS.md, "Words"). Memory is taken only for the input of a command.
pub fn read<'a>(alloc: Global, words: &'a [String]) -> Result<Option<Command<'a>>, NoMemory>
    requires book { keeps_book (command_of (map string_bytes words.now)) ≡ false }
    requires report { judges_report (command_of (map string_bytes words.now)) ≡ false }
    ensures value { IfOk result (λ o. option_map command_view o ≡ command_of (map string_bytes words.now)) }
    ensures short { IfOk result (λ o. IfSome o (λ c. IsShort (command_view c))) }
    ensures memory { IsErr result → IsSome (command_of (map string_bytes words.now)) }
{
    match words {
        [name, file] => Ok(file_command(name.as_str(), file.as_str())),
        [name, image, budget, input] => {
            if name.as_str() == "plain" {
                return read_plain(alloc, image.as_str(), budget.as_str(), input.as_str());
            }
            Ok(None)
        }
        _ => Ok(None),
    }
}

/// The command on one file.
fn file_command<'a>(name: &str, file: &'a str) -> Option<Command<'a>>
    requires { keeps_book (file_command name.now file.now) ≡ false }
    ensures value { option_map command_view result ≡ file_command name.now file.now }
    ensures short { IfSome result (λ c. IsShort (command_view c)) }
{
    if !is_name(file) {
        return None;
    }
    match name {
        "check" => Some(Command::Check { job: file }),
        "infer" => Some(Command::Infer { job: file }),
        "asm" => Some(Command::Asm { source: file }),
        "list" => Some(Command::Listing { image: file }),
        _ => None,
    }
}

fn read_plain<'a>(
    alloc: Global,
    image: &'a str,
    budget: &str,
    input: &str,
) -> Result<Option<Command<'a>>, NoMemory>
    ensures value { IfOk result (λ o. option_map command_view o ≡ plain_of image.now budget.now input.now) }
    ensures short { IfOk result (λ o. IfSome o (λ c. IsShort (command_view c))) }
    ensures memory { IsErr result → IsSome (plain_of image.now budget.now input.now) }
{
    if !is_name(image) {
        return Ok(None);
    }
    let Some(budget) = budget_in(budget) else {
        return Ok(None);
    };
    if !is_input(input) {
        return Ok(None);
    }
    let input = input_in(alloc, input)?;
    Ok(Some(Command::Plain {
        image,
        budget,
        input,
    }))
}

fn is_name(word: &str) -> bool
    ensures { result ≡ is_name word.now }
{
    match word.as_bytes() {
        [] => false,
        [first, ..] => *first != b'-',
    }
}

fn budget_in(word: &str) -> Option<u32>
    ensures { result ≡ budget_of word.now }
{
    let digits = word.as_bytes();
    if digits.is_empty() || digits.len() > 8 {
        return None;
    }
    let value = number_in(digits)?;
    if value == 0 || value > MAX_BUDGET {
        return None;
    }
    Some(value as u32)
}

/// The number of a drill.
fn drill_number_in(word: &str) -> Option<u64>
    ensures { result ≡ drill_number word.now }
{
    let digits = word.as_bytes();
    if digits.is_empty() || digits.len() > 20 {
        return None;
    }
    number_in(digits)
}

/// The number of a drill's live runs.
fn drill_runs_in(word: &str) -> Option<u32>
    ensures { result ≡ drill_runs word.now }
{
    let digits = word.as_bytes();
    if digits.is_empty() || digits.len() > 4 {
        return None;
    }
    let value = number_in(digits)?;
    if value == 0 || value > MAX_RUNS {
        return None;
    }
    Some(value as u32)
}

/// The number that decimal digits write; None where one is no digit, or the number is 2^64 or more.
fn number_in(digits: &[u8]) -> Option<u64>
    ensures { result ≡ (if list_all is_digit digits.now && nat_lt (number_from 0 digits.now) (2 ^ 64) then Some (number_from 0 digits.now) else None) }
{
    let mut value = 0u64;
    for digit in digits {
        if !digit.is_ascii_digit() {
            return None;
        }
        value = value
            .checked_mul(10)?
            .checked_add(u64::from(*digit - b'0'))?;
    }
    Some(value)
}

/// Whether a word is an input; `input_in` has its bytes.
#[tactic(auto, using(crate::proofs::Inputs::input_test))]
fn is_input(word: &str) -> bool
    ensures { result ≡ is_some (input_of word.now) }
{
    if word == "none" {
        return true;
    }
    let digits = word.as_bytes();
    if digits.len() < 2 || digits.len() > MAX_INPUT_DIGITS || digits.len() % 2 != 0 {
        return false;
    }
    are_hex_digits(digits)
}

fn are_hex_digits(digits: &[u8]) -> bool
    ensures { result ≡ list_all is_ascii_hexdigit digits.now }
{
    digits.iter().all(|digit| digit.is_ascii_hexdigit())
}

#[tactic(auto, using(crate::proofs::Inputs::decoded_short))]
fn input_in(alloc: Global, word: &str) -> Result<Items<u8>, NoMemory>
    requires { IsSome (input_of word.now) }
    ensures value { IfOk result (λ bytes. input_of word.now ≡ Some bytes) }
    ensures short { IfOk result (λ bytes. length bytes ≤ 65536) }
{
    if word == "none" {
        return Ok(Items::make(alloc));
    }
    match hex::decode(alloc, word) {
        Ok(bytes) => Ok(Items::from_vec(bytes)),
        // The digits were tested.
        Err(_) => Err(NoMemory),
    }
}
