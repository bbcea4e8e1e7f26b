ghost use Rattle.std.specs.Prelude.{◌≡◌, ◌++◌, codes, string_bytes, IfOk};
ghost use Rattle.std.specs.Fmt.{decimal};
ghost use Rattle.cv_base.specs.EndText.{end_text};
ghost use Rattle.cv_runs.specs.PlainText.{bytes_text};
ghost use Rattle.clearview.specs.CheckText.{check_text, text_line};

use cv_base::{Address, End, Image, Items, NoMemory, Plan};
use cv_job::job_line;
use cv_report::bytes_text;
use std::alloc::Global;

/// What `check` writes of a plan (docs/FORMATS.md, "Texts of the commands").
pub fn check_text(alloc: Global, plan: &Plan) -> Result<String, NoMemory>
    ensures { IfOk result (λ s. string_bytes s ≡ check_text plan.now) }
{
    let job = job_line(alloc, plan)?;
    let text = text_line(alloc, &plan.image)?;
    Ok(format!(in alloc; "{job}\n{text}\n")?)
}

fn text_line(alloc: Global, image: &Image) -> Result<String, NoMemory>
    ensures { IfOk result (λ s. string_bytes s ≡ text_line image.now) }
{
    let base = Address(image.text_base);
    let count = image.words.len();
    let entry = Address(image.entry);
    Ok(format!(in alloc; "text {base} {count} entry {entry}")?)
}

/// What `plain` writes of how a run ended, its turns and its output.
pub fn run_text(alloc: Global, end: End, turns: u32, output: &[u8]) -> Result<String, NoMemory>
    ensures { IfOk result (λ s. string_bytes s ≡ codes "end " ++ end_text end ++ codes "\nturns " ++ decimal turns ++ codes "\noutput " ++ bytes_text output.now ++ codes "\n") }
{
    let output = bytes_text(alloc, output)?;
    Ok(format!(in alloc; "end {end}\nturns {turns}\noutput {output}\n")?)
}

/// The bytes of a text.
pub fn in_bytes(text: String) -> Items<u8>
    ensures { result ≡ string_bytes text }
{
    Items::from_vec(text.into_bytes())
}
