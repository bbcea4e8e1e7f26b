//! Laws on the turns of plain and patched runs.
ghost use Rattle.cv_laws.specs.TurnStatements.{NoPlainTurn, PatchedTurnFirst, PlainTurnFirst, UnderTables};

/// A plain run of no turns has no steps.
pub fn no_plain_turn()
    ensures { NoPlainTurn }
{}

/// A plain run is its first turn and what follows it.
pub fn plain_turn_first()
    ensures { PlainTurnFirst }
{}

/// A patched run is its first turn and what follows it.
pub fn patched_turn_first()
    ensures { PatchedTurnFirst }
{}

/// A run under tables is the run from its start on, with as many block entries.
pub fn under_tables()
    ensures { UnderTables }
{}
