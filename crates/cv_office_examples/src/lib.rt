//! The office's worked example in one thread: two passes of one office take the runs of a round
//! (docs/REPAIR.md, "The office").
#![tactic(auto)]

#[cfg(test)]
mod calling;
#[cfg(test)]
mod flights;
#[cfg(test)]
mod offices;
#[cfg(test)]
mod scene;
#[cfg(test)]
mod tests;
