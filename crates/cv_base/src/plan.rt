ghost use Rattle.std.specs.Prelude.{◌≡◌, IfOk};

use crate::{Image, Items, NoMemory};
use std::alloc::Global;
use std::marker::Model;

/// Whether a round's runs are learned from, or run under patches.
#[derive(Clone, Copy, Debug, PartialEq, Eq)]
pub enum Mode {
    Learn,
    Live,
}

/// A round of runs: one for each input, of at most 65,536 bytes.
#[derive(Debug, Drop)]
pub struct Round {
    pub mode: Mode,
    pub inputs: Items<Items<u8>>,
}

impl Round {
    /// An equal round.
    pub fn copied(&self, alloc: Global) -> Result<Round, NoMemory>
        ensures { IfOk result (λ r. r ≡ self.now) }
    {
        let mut copies = Vec::new(alloc);
        for input in self.inputs.as_slice() {
            copies.push(Items::from_slice(alloc, input.as_slice())?)?;
        }
        Ok(Round {
            mode: self.mode,
            inputs: Items::from_vec(copies),
        })
    }
}

/// What is to be run: an image, how many workers run it, how many checked failures a case waits
/// for, the turns that a run may take, and the rounds of runs.
///
/// There are 1 to 16 workers, 2 to 8 checks, a budget of 1 to 10,000,000 turns, 1 to 64 rounds,
/// and 1 to 1,024 runs in all, numbered from 0 through the rounds in order. Each round has an
/// input.
#[derive(Debug, Drop)]
pub struct Plan {
    pub image: Image,
    pub workers: u32,
    pub checks: u32,
    pub budget: u32,
    pub rounds: Items<Round>,
}

impl Model for Plan {
    ghost use Rattle.cv_base.specs.PlanOf.{PlanOf, IsPlan};

    ghost Value = { PlanOf };

    ghost view = { λ p. record { image = p.image; workers = p.workers; checks = p.checks; budget = p.budget; rounds = p.rounds } };

    ghost invariant = { λ p. IsPlan (record { image = p.image; workers = p.workers; checks = p.checks; budget = p.budget; rounds = p.rounds }) };
}

impl Plan {
    /// An equal plan.
    pub fn copied(&self, alloc: Global) -> Result<Plan, NoMemory>
        ensures { IfOk result (λ p. p ≡ self.now) }
    {
        let image = self.image.copied(alloc)?;
        let rounds = copied_rounds(alloc, self.rounds.as_slice())?;
        Ok(Plan {
            image,
            workers: self.workers,
            checks: self.checks,
            budget: self.budget,
            rounds,
        })
    }
}

fn copied_rounds(alloc: Global, rounds: &[Round]) -> Result<Items<Round>, NoMemory>
    ensures { IfOk result (λ copies. copies ≡ rounds.now) }
{
    let mut copies = Vec::new(alloc);
    for round in rounds {
        copies.push(round.copied(alloc)?)?;
    }
    Ok(Items::from_vec(copies))
}
