ghost use Rattle.std.specs.Prelude.{◌≡◌, IfOk, ◌<◌, ◌+◌, is_some};
ghost use Rattle.cv_exec.specs.InFlightStands.{BeginsIn, IsSame, ending_of, has_run_ended, learns_by, started_turns, wants_in, with_end};

use crate::patched::Patched;
use cv_base::{End, Mode, NoMemory, TextRange};
use std::alloc::Global;

/// A run that was started and not finished.
#[derive(Clone, Copy, Debug)]
pub(crate) struct Started {
    pub(crate) run: u32,
    pub(crate) worker: u32,
    /// The turns so far.
    pub(crate) turns: u32,
    /// How the run has ended, once it has.
    pub(crate) end: Option<End>,
}

impl Started {
    /// One turn more, with which the run ends so, if it does: whether it does.
    pub(crate) fn took(&mut self, end: Option<End>) -> bool
        requires { self.old.turns < 4294967295 }
        ensures turn { self.new ≡ record self.old { turns = self.old.turns + 1; end = end } }
        ensures ended { result ≡ is_some end }
    {
        self.turns += 1;
        self.end = end;
        end.is_some()
    }
}

/// What is going on.
#[derive(Drop)]
pub(crate) enum Flying {
    Nothing,
    Learning(Started),
    /// A live run, with what it keeps beside the machine.
    Living(Started, Patched),
}

impl Flying {
    /// Whether a run has ended.
    pub(crate) fn ended(&self) -> bool
        ensures { result ≡ has_run_ended self.now }
    {
        match self {
            Flying::Nothing => false,
            Flying::Learning(started) => started.end.is_some(),
            Flying::Living(started, _) => started.end.is_some(),
        }
    }

    /// Whether a live run that has not ended wants a version before its next turn.
    pub(crate) fn wants_entry(&self) -> bool
        ensures { result ≡ wants_in self.now }
    {
        match self {
            Flying::Nothing | Flying::Learning(_) => false,
            Flying::Living(started, patched) => started.end.is_none() && patched.wants_entry(),
        }
    }

    /// Whether it is a learn run.
    pub(crate) fn learns(&self) -> bool
        ensures { result ≡ learns_by self.now }
    {
        matches!(self, Flying::Learning(_))
    }

    /// The turns so far.
    pub(crate) fn turns(&self) -> u32
        ensures { result ≡ started_turns self.now }
    {
        match self {
            Flying::Nothing => 0,
            Flying::Learning(started) => started.turns,
            Flying::Living(started, _) => started.turns,
        }
    }

    /// The same once more.
    pub(crate) fn copied(&self) -> Result<Flying, NoMemory>
        ensures { IfOk result (IsSame self.now) }
    {
        match self {
            Flying::Nothing => Ok(Flying::Nothing),
            Flying::Learning(started) => Ok(Flying::Learning(*started)),
            Flying::Living(started, patched) => Ok(Flying::Living(*started, patched.copied()?)),
        }
    }

    /// A run that has ended, and how.
    pub(crate) fn ending(&self) -> Option<(Started, End)>
        ensures { result ≡ ending_of self.now }
    {
        match self {
            Flying::Nothing => None,
            Flying::Learning(started) => with_end(*started),
            Flying::Living(started, _) => with_end(*started),
        }
    }
}

/// A run with its end, where it has one.
fn with_end(started: Started) -> Option<(Started, End)>
    ensures { result ≡ with_end started }
{
    match started.end {
        Some(end) => Some((started, end)),
        None => None,
    }
}

/// A run of this mode before its first turn.
pub(crate) fn flying_for(
    alloc: Global,
    mode: Option<Mode>,
    text: TextRange,
    run: u32,
    worker: u32,
) -> Flying
    ensures { BeginsIn text mode run worker result }
{
    let started = Started {
        run,
        worker,
        turns: 0,
        end: None,
    };
    match mode {
        Some(Mode::Live) => Flying::Living(started, Patched::make(alloc, text)),
        _ => Flying::Learning(started),
    }
}
