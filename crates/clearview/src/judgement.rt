use cv_base::Items;

/// What `audit` has found of a report's journal (docs/REPAIR.md, "Audit").
#[derive(Clone, Copy, Debug, PartialEq, Eq)]
pub enum Judgement {
    /// The entries are a legal history of the plan, with each of its runs.
    Sound,
    /// The entries before place `at`, counted from 0, are legal; the one at that place breaks this
    /// clause first.
    Wrong { at: u32, clause: u32 },
    /// The entries are a legal history of the plan, in which this run has no entry; it is the least.
    Missing { run: u32 },
}

/// What was found, and its text.
#[derive(Drop)]
pub struct Told {
    pub found: Judgement,
    pub text: Items<u8>,
}
