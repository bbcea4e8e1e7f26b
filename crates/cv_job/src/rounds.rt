ghost use Rattle.std.specs.Prelude.{◌≡◌, ◌≤◌, true, codes, length, IfOk, IfSome};
ghost use Rattle.serde_json.specs.Find.{get};
ghost use Rattle.serde_json.specs.View.{view};
ghost use Rattle.cv_base.specs.PlanOf.{is_round};
ghost use Rattle.cv_job.specs.Rounds.{input_of, inputs_of, mode_of, round_of, rounds_of};
ghost use Rattle.cv_job.specs.Limits.{IsInputs, IsRounds};

use crate::fields::elements;
use cv_base::{Items, Mode, NoMemory, Round};
use hex::FromHexError;
use serde_json::Value;
use std::alloc::Global;

const MAX_ROUNDS: usize = 64;

const MAX_INPUT_BYTES: usize = 65_536;

// The rounds in the field `rounds`. None is that its rule fails; so below.
pub(crate) fn rounds_in(alloc: Global, value: &Value) -> Result<Option<Items<Round>>, NoMemory>
    ensures value { IfOk result (λ o. o ≡ rounds_of (get (codes "rounds") (view value.now))) }
    ensures limits { IfOk result (λ o. IfSome o IsRounds) }
{
    let Some(values) = elements(value, "rounds") else {
        return Ok(None);
    };
    if values.is_empty() || values.len() > MAX_ROUNDS {
        return Ok(None);
    }
    let mut rounds = Vec::new(alloc);
    for value in values {
        let Some(round) = round_in(alloc, value)? else {
            return Ok(None);
        };
        rounds.push(round)?;
    }
    Ok(Some(Items::from_vec(rounds)))
}

fn round_in(alloc: Global, value: &Value) -> Result<Option<Round>, NoMemory>
    ensures value { IfOk result (λ o. o ≡ round_of (view value.now)) }
    ensures limits { IfOk result (λ o. IfSome o (λ r. is_round r ≡ true)) }
{
    let Some(mode) = mode_in(value) else {
        return Ok(None);
    };
    let Some(inputs) = inputs_in(alloc, value)? else {
        return Ok(None);
    };
    Ok(Some(Round { mode, inputs }))
}

fn mode_in(value: &Value) -> Option<Mode>
    ensures { result ≡ mode_of (get (codes "mode") (view value.now)) }
{
    match value.get("mode")?.as_str()? {
        "learn" => Some(Mode::Learn),
        "live" => Some(Mode::Live),
        _ => None,
    }
}

fn inputs_in(alloc: Global, value: &Value) -> Result<Option<Items<Items<u8>>>, NoMemory>
    ensures value { IfOk result (λ o. o ≡ inputs_of (get (codes "inputs") (view value.now))) }
    ensures limits { IfOk result (λ o. IfSome o IsInputs) }
{
    let Some(values) = elements(value, "inputs") else {
        return Ok(None);
    };
    if values.is_empty() {
        return Ok(None);
    }
    let mut inputs = Vec::new(alloc);
    for value in values {
        let Some(input) = input_in(alloc, value)? else {
            return Ok(None);
        };
        inputs.push(input)?;
    }
    Ok(Some(Items::from_vec(inputs)))
}

fn input_in(alloc: Global, value: &Value) -> Result<Option<Items<u8>>, NoMemory>
    ensures value { IfOk result (λ o. o ≡ input_of (view value.now)) }
    ensures limit { IfOk result (λ o. IfSome o (λ input. length input ≤ 65536)) }
{
    let Some(digits) = value.as_str() else {
        return Ok(None);
    };
    match hex::decode(alloc, digits) {
        Ok(input) => {
            if input.len() > MAX_INPUT_BYTES {
                return Ok(None);
            }
            Ok(Some(Items::from_vec(input)))
        }
        Err(FromHexError::OutOfMemory) => Err(NoMemory),
        Err(_) => Ok(None),
    }
}
