//! Laws on the rounds of a plan and the numbers of their runs.
ghost use Rattle.cv_laws.specs.RoundStatements.{CurrentIsOfPlan, EarlierIsBelow, NumbersAreOfRound, NumbersRise, RunsAreCounted};

/// The runs of a plan are as many as its rounds have together.
pub fn runs_are_counted()
    ensures { RunsAreCounted }
{}

/// A run of an earlier round has a lower number.
pub fn earlier_is_below()
    ensures { EarlierIsBelow }
{}

/// Each number of a round is that of a run of the round.
pub fn numbers_are_of_round()
    ensures { NumbersAreOfRound }
{}

/// The numbers of a round rise.
pub fn numbers_rise()
    ensures { NumbersRise }
{}

/// The current round is one of the plan's.
pub fn current_is_of_plan()
    ensures { CurrentIsOfPlan }
{}
