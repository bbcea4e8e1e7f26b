//! The office's rule as plain data: what is true of the number of versions, the number of draws
//! and the views of all seats between any two steps (docs/REPAIR.md, "The office").
#![tactic(auto)]

mod laws;
mod view;

pub use laws::{
    announce_keeps, book_keeps, booked_is_found, close_has_runs, draw_keeps, draws_are_few,
    end_keeps, enter_keeps, give_back_keeps, loaded_may_be_posted, longer_begins, news_keeps,
    note_keeps, past_runs, post_settles, renew_keeps, renewed_stays, row_may_be_posted, seat_keeps,
    send_keeps, start_is_ruled, take_back_keeps, take_keeps, within_grows,
};
pub use view::{Known, Opening, Post, Posted, Role, Row, View};
