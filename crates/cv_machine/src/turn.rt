use cv_base::End;

/// The outcome of a turn.
#[derive(Clone, Copy, Debug, PartialEq, Eq)]
pub enum Turn {
    /// The run goes on; `transfer` says whether the instruction was a transfer.
    Next { transfer: bool },
    /// The run has ended, and the turn changed nothing.
    Ended(End),
}

/// Whether the run goes on. How it ended stands elsewhere, so that this fits in a register.
#[derive(Clone, Copy)]
pub(crate) enum Went {
    On { transfer: bool },
    Over,
}
