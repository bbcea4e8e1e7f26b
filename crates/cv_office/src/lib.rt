//! The office's table: two shared words under the office's rule, and the steps of its seats
//! (docs/REPAIR.md, "The office").
#![tactic(auto)]

mod board;
mod seats;

pub use board::{
    Announces, Board, Books, Draws, Enters, GivesBack, Law, Named, Notes, Opens, Place, Renews,
    Seats, Sends,
};
pub use seats::{announce, book, close, draw, end, enter, give_back, hear, open, seat, send, tell};
