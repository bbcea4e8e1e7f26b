ghost use Rattle.std.specs.Prelude.{◌≡◌, ◌≤◌, length, map, IfSome, option_map};
ghost use Rattle.serde_json.specs.Find.{get};
ghost use Rattle.serde_json.specs.View.{view};
ghost use Rattle.cv_job.specs.Fields as spec;

use serde_json::Value;

// The whole number in a field, where it lies in the range.
pub(crate) fn number_in(value: &Value, name: &str, low: u32, high: u32) -> Option<u32>
    ensures value { result ≡ spec.number_in low high (get name.now (view value.now)) }
    ensures in_range { IfSome result (λ n. (low ≤ n) × (n ≤ high)) }
{
    let number = value.get(name)?.as_u64()?;
    if number < u64::from(low) || u64::from(high) < number {
        return None;
    }
    Some(number as u32)
}

// The string in a field, where its number of bytes lies in the range.
pub(crate) fn text_in<'v>(value: &'v Value, name: &str, low: usize, high: usize) -> Option<&'v str>
    ensures value { option_map (λ s. s.now) result
        ≡ spec.text_in low high (get name.now (view value.now)) }
    ensures in_range { IfSome result (λ s. (low ≤ length s.now) × (length s.now ≤ high)) }
{
    let text = value.get(name)?.as_str()?;
    if text.len() < low || high < text.len() {
        return None;
    }
    Some(text)
}

// The elements of the array in a field.
#[tactic(auto, using(crate::proofs::Views::listed_view))]
pub(crate) fn elements<'v>(value: &'v Value, name: &str) -> Option<&'v [Value]>
    ensures { option_map (λ vs. map view vs.now) result
        ≡ spec.elements_of (get name.now (view value.now)) }
{
    let list = value.get(name)?.as_array()?;
    Some(list.as_slice())
}
