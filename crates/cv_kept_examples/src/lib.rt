//! Kept rounds with two workers, of which one is held at a block entry until the other has posted
//! (docs/FORMATS.md, "Kept rounds").
#![tactic(auto)]

#[cfg(test)]
mod calling;
#[cfg(test)]
mod marking;
#[cfg(test)]
mod tests;
