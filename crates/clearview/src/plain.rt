ghost use Rattle.std.specs.Prelude.{◌≡◌, ◌≤◌, length, string_bytes, IfOk};
ghost use Rattle.cv_runs.specs.PlainText.{plain_text};

use crate::texts::run_text;
use cv_base::{Image, NoMemory};
use cv_machine::{Machine, run};
use std::alloc::Global;

/// What `plain` writes of a run of an image with an input of at most 65,536 bytes, for at most
/// `budget` turns (docs/FORMATS.md, "Texts of the commands").
pub fn plain_text(
    alloc: Global,
    image: &Image,
    input: &[u8],
    budget: u32,
) -> Result<String, NoMemory>
    requires { length input.now ≤ 65536 }
    ensures { IfOk result (λ s. string_bytes s ≡ plain_text image.now input.now budget) }
{
    let mut machine = Machine::make(alloc, image)?;
    machine.begin(alloc, input)?;
    let (end, turns) = run(&mut machine, budget);
    run_text(alloc, end, turns, machine.output())
}
