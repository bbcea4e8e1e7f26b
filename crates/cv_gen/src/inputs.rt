ghost use Rattle.std.specs.Prelude.{◌≡◌, IfOk};
ghost use Rattle.cv_histories.specs.DrillPlan.{chosen_input, first_input, live_inputs, next_number, second_input};

use cv_base::{Items, NoMemory};
use std::alloc::Global;

/// The factor of the generator.
const MULTIPLIER: u64 = 6_364_136_223_846_793_005;

/// What the generator adds.
const INCREMENT: u64 = 1_442_695_040_888_963_407;

/// The address of the first function of the calling program.
pub const FIRST_INPUT: [u8; 4] = [0x24, 0, 1, 0];

/// The address of its second function.
pub const SECOND_INPUT: [u8; 4] = [0x2c, 0, 1, 0];

/// The inputs of as many live runs as are asked for, chosen from a number on.
pub fn live_inputs(alloc: Global, number: u64, runs: u32) -> Result<Items<Items<u8>>, NoMemory>
    ensures { IfOk result (λ inputs. inputs ≡ live_inputs runs number) }
{
    let mut inputs = Vec::new(alloc);
    let mut now = number;
    for _ in 0..runs {
        now = next_number(now);
        inputs.push(Items::from_slice(alloc, &chosen_input(now >> 62))?)?;
    }
    Ok(Items::from_vec(inputs))
}

/// The number that follows a number in the generator.
fn next_number(number: u64) -> u64
    ensures { result ≡ next_number number }
{
    number.wrapping_mul(MULTIPLIER).wrapping_add(INCREMENT)
}

/// The input that the top two bits of a number choose.
fn chosen_input(top: u64) -> [u8; 4]
    ensures { result ≡ chosen_input top }
{
    match top {
        0 => FIRST_INPUT,
        1 => SECOND_INPUT,
        2 => [0, 0, 0, 0],
        _ => [2, 0, 1, 0],
    }
}
