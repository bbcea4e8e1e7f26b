//! Runs of the indirect-call example, stepped through: forwards, backwards and twice to one turn
//! (docs/REPAIR.md, "Replay").
#![tactic(auto)]

#[cfg(test)]
mod calling;
#[cfg(test)]
mod posted;
#[cfg(test)]
mod states;
#[cfg(test)]
mod tests;
