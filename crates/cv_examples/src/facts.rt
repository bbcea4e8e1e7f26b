ghost use Rattle.cv_examples.specs.Blocks.{LongEntries, LoopEntries, StraightEntries};
ghost use Rattle.cv_examples.specs.Drills.{DrillBad, DrillGood, DrillThree};
ghost use Rattle.cv_examples.specs.Runs.{AfterFree, Breaks, CallsFirst, CallsNoPoint, ClearsBitZero, DamagedReturn, Exits, Illegal, InsideBlock, IntoCode, Misaligned, NoFrame, OutOfBudget, OverBlockEnd, PastBlock, ReadsPastBlock, Unreadable, Unwritable, Writes};
ghost use Rattle.cv_examples.specs.TwoSlotsFacts.{FirstLateWin, LateEntries, LateWins, StandsAfterSeven, WithdrawnAndOpened};
ghost use Rattle.cv_examples.specs.Values.{FiveValues, FourValues};

/// Two slots: the repair that fails elsewhere is withdrawn, and the next exits.
pub fn withdrawn_and_opened()
    ensures { WithdrawnAndOpened }
{}

/// Two slots: versions, candidates, changes and scores after seven entries.
pub fn stands_after_seven()
    ensures { StandsAfterSeven }
{}

/// Two slots: a late win of the withdrawn repair counts.
pub fn first_late_win()
    ensures { FirstLateWin }
{}

/// Two slots: at equal scores the installed repair stays.
pub fn late_wins()
    ensures { LateWins }
{}

/// Two slots: the entries of the late wins.
pub fn late_entries()
    ensures { LateEntries }
{}

/// Four values at a point: a one-of.
pub fn four_values()
    ensures { FourValues }
{}

/// Five values at a point: a lower bound, signed.
pub fn five_values()
    ensures { FiveValues }
{}

/// A loop of one jump: each turn is a block entry.
pub fn loop_entries()
    ensures { LoopEntries }
{}

/// A straight run: its 64th turn is a block entry.
pub fn straight_entries()
    ensures { StraightEntries }
{}

/// A long straight run: block entries 64 turns apart.
pub fn long_entries()
    ensures { LongEntries }
{}

/// One good live run.
pub fn drill_good()
    ensures { DrillGood }
{}

/// One bad live run.
pub fn drill_bad()
    ensures { DrillBad }
{}

/// Three bad live runs.
pub fn drill_three()
    ensures { DrillThree }
{}

/// A plain run: a plain exit.
pub fn exits()
    ensures { Exits }
{}

/// A plain run: the indirect call, to the first target.
pub fn calls_first()
    ensures { CallsFirst }
{}

/// A plain run: the indirect call, with bit 0 set.
pub fn clears_bit_zero()
    ensures { ClearsBitZero }
{}

/// A plain run: the indirect call, to no point.
pub fn calls_no_point()
    ensures { CallsNoPoint }
{}

/// A plain run: a misaligned load.
pub fn misaligned()
    ensures { Misaligned }
{}

/// A plain run: an unreadable load.
pub fn unreadable()
    ensures { Unreadable }
{}

/// A plain run: an unwritable store.
pub fn unwritable()
    ensures { Unwritable }
{}

/// A plain run: a store into the text.
pub fn into_code()
    ensures { IntoCode }
{}

/// A plain run: a break.
pub fn breaks()
    ensures { Breaks }
{}

/// A plain run: a word that is no instruction.
pub fn illegal()
    ensures { Illegal }
{}

/// A plain run: a store to the last byte of a block.
pub fn inside_block()
    ensures { InsideBlock }
{}

/// A plain run: a store past a block.
pub fn past_block()
    ensures { PastBlock }
{}

/// A plain run: a store that begins inside a block and ends past it.
pub fn over_block_end()
    ensures { OverBlockEnd }
{}

/// A plain run: a store into a freed block.
pub fn after_free()
    ensures { AfterFree }
{}

/// A plain run: a read past a block.
pub fn reads_past_block()
    ensures { ReadsPastBlock }
{}

/// A plain run: a return to another address.
pub fn damaged_return()
    ensures { DamagedReturn }
{}

/// A plain run: a return without a call.
pub fn no_frame()
    ensures { NoFrame }
{}

/// A plain run: a loop that the budget ends.
pub fn out_of_budget()
    ensures { OutOfBudget }
{}

/// A plain run: bytes to the output.
pub fn writes()
    ensures { Writes }
{}
