ghost use Rattle.std.specs.Prelude.{◌≡◌, ◌≤◌, [], ◌∷◌, IfOk};
ghost use Rattle.cv_histories.specs.DrillPlan.{drill_plan, first_input, second_input};

use crate::inputs::{FIRST_INPUT, SECOND_INPUT, live_inputs};
use crate::program::calling_image;
use cv_base::{Items, Mode, NoMemory, Plan, Round};
use std::alloc::Global;

/// The plan that `drill` makes of a number, with 1 to 1,022 live runs: the calling program is run
/// by one worker, with 2 checks and 1,000 turns at most, first on two good inputs that are learned
/// from, and then on those that the generator chooses (docs/FORMATS.md, "The generator of drill").
pub fn drill_plan(alloc: Global, number: u64, runs: u32) -> Result<Plan, NoMemory>
    requires some { 1 ≤ runs }
    requires few { runs ≤ 1022 }
    ensures { IfOk result (λ plan. plan ≡ drill_plan number runs) }
{
    let image = calling_image(alloc)?;
    let learn = Round {
        mode: Mode::Learn,
        inputs: good_inputs(alloc)?,
    };
    let live = Round {
        mode: Mode::Live,
        inputs: live_inputs(alloc, number, runs)?,
    };
    let rounds = Items::from_vec(vec![in alloc; learn, live]?);
    Ok(Plan {
        image,
        workers: 1,
        checks: 2,
        budget: 1000,
        rounds,
    })
}

/// The two inputs that call a function.
fn good_inputs(alloc: Global) -> Result<Items<Items<u8>>, NoMemory>
    ensures { IfOk result (λ inputs. inputs ≡ first_input ∷ second_input ∷ []) }
{
    let first = Items::from_slice(alloc, &FIRST_INPUT)?;
    let second = Items::from_slice(alloc, &SECOND_INPUT)?;
    Ok(Items::from_vec(vec![in alloc; first, second]?))
}
