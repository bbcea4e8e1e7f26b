ghost use Rattle.std.specs.Prelude.{◌≡◌, ◌++◌, codes, string_bytes, IfOk};
ghost use Rattle.cv_histories.specs.Report.{maker_text};
ghost use Rattle.cv_histories.specs.Texts.{action_text, class_text, mode_text};
ghost use Rattle.cv_runs.specs.PlainText.{bytes_text};

use cv_base::{Action, Address, Class, Mode, NoMemory};
use std::alloc::Global;

/// Bytes as lower-case hexadecimal digits, `-` where there is none.
#[tactic(auto, using(crate::proofs::HexText::encoded))]
pub fn bytes_text(alloc: Global, bytes: &[u8]) -> Result<String, NoMemory>
    ensures { IfOk result (λ s. string_bytes s ≡ bytes_text bytes.now) }
{
    if bytes.is_empty() {
        return Ok(String::from_str(alloc, "-")?);
    }
    Ok(hex::encode(alloc, bytes)?)
}

/// The word for a mode.
pub fn mode_text(mode: Mode) -> &'static str
    ensures { result.now ≡ mode_text mode }
{
    match mode {
        Mode::Learn => "learn",
        Mode::Live => "live",
    }
}

/// The word for a class, `pending` where there is none yet.
pub fn class_text(class: Option<Class>) -> &'static str
    ensures { result.now ≡ class_text class }
{
    match class {
        None => "pending",
        Some(Class::Highly) => "highly",
        Some(Class::Moderately) => "moderately",
        Some(Class::Slightly) => "slightly",
        Some(Class::Not) => "not",
    }
}

/// The text of an action.
pub fn action_text(alloc: Global, action: Action) -> Result<String, NoMemory>
    ensures { IfOk result (λ s. string_bytes s ≡ action_text action) }
{
    let text = match action {
        Action::SetConst { reg, value } => {
            let value = Address(value);
            format!(in alloc; "set x{reg} {value}")?
        }
        Action::SetCopy { reg, source } => format!(in alloc; "copy x{reg} x{source}")?,
        Action::SetSp { offset } => {
            let offset = Address(offset);
            format!(in alloc; "set-sp {offset}")?
        }
        Action::Skip => String::from_str(alloc, "skip")?,
        Action::Return { offset } => {
            let offset = Address(offset);
            format!(in alloc; "return {offset}")?
        }
    };
    Ok(text)
}

/// The number of the entry that made a version, `-` where none did.
pub fn maker_text(alloc: Global, maker: Option<u32>) -> Result<String, NoMemory>
    ensures { IfOk result (λ s. string_bytes s ≡ maker_text maker) }
{
    match maker {
        None => Ok(String::from_str(alloc, "-")?),
        Some(entry) => Ok(format!(in alloc; "{entry}")?),
    }
}
