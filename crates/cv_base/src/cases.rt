use crate::{Action, FailureId, Invariant, Items};

/// A failure that is worked on: its identity, the entry that opened it, and the invariants that
/// may go with it (docs/REPAIR.md, "Cases").
#[derive(Debug, Drop)]
pub struct Case {
    pub id: FailureId,
    pub opened: u32,
    pub candidates: Items<Invariant>,
}

/// How closely a candidate goes with its case's failure (docs/REPAIR.md, "Classes").
#[derive(Clone, Copy, Debug, PartialEq, Eq)]
pub enum Class {
    Highly,
    Moderately,
    Slightly,
    Not,
}

/// A way to restore a candidate, or to leave its instruction or procedure (docs/REPAIR.md,
/// "Repairs").
#[derive(Clone, Copy, Debug, PartialEq, Eq)]
pub struct Repair {
    pub candidate: u32,
    pub action: Action,
}

/// At an entry the installed repair of a case became another one.
#[derive(Clone, Copy, Debug, PartialEq, Eq)]
pub struct Change {
    pub entry: u32,
    pub case: u32,
    pub withdrawn: Option<u32>,
    pub installed: u32,
}
