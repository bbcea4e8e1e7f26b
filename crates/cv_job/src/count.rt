ghost use Rattle.std.specs.Prelude.{◌≡◌, ◌≤◌, nat_le};
ghost use Rattle.cv_base.specs.PlanOf.{runs_of};

use cv_base::Round;

const MAX_RUNS: usize = 1024;

/// The number of runs of some rounds, one for each input. There are at most 1,024.
pub fn runs_in(rounds: &[Round]) -> u32
    requires { runs_of rounds.now ≤ 1024 }
    ensures { result ≡ runs_of rounds.now }
{
    let mut runs = 0;
    for round in rounds {
        runs += round.inputs.len();
    }
    runs as u32
}

// Whether the rounds have at most 1,024 runs. It counts down, so that no sum wraps.
pub(crate) fn are_few(rounds: &[Round]) -> bool
    ensures { result ≡ nat_le (runs_of rounds.now) 1024 }
{
    let mut left = MAX_RUNS;
    for round in rounds {
        let runs = round.inputs.len();
        if runs > left {
            return false;
        }
        left -= runs;
    }
    true
}
