//! Laws on runs in order.
ghost use Rattle.cv_laws.specs.Statements.{BelowIsWhole, LearnEntryIsLearn, NextMayFollow};

/// The entry of a learn run in order is what the plain run says.
pub fn learn_entry_is_learn()
    ensures { LearnEntryIsLearn }
{}

/// The next entry in order may follow those of the runs below it.
pub fn next_may_follow()
    ensures { NextMayFollow }
{}

/// The entries of all runs in order are whole.
pub fn below_is_whole()
    ensures { BelowIsWhole }
{}
