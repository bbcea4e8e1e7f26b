//! Each kind of step keeps the rule, and what it tells. `M` is what there was at the making, and
//! `T` the tables of the versions.
ghost use Rattle.cv_rule.specs.Laws.{StartIsRuled, SeatKeeps, EnterKeeps, RenewKeeps, RenewedStays, LongerBegins, WithinGrows, BookKeeps, AnnounceKeeps, DrawKeeps, DrawsAreFew, NoteKeeps, SendKeeps, GiveBackKeeps, TakeKeeps, NewsKeeps, TakeBackKeeps, EndKeeps, PastRuns, CloseHasRuns, RowMayBePosted, LoadedMayBePosted, PostSettles, BookedIsFound};

/// The rule holds at the start.
pub fn start_is_ruled<M, T>()
    ensures { StartIsRuled M T }
{}

/// A pass's seat is made from the master's.
pub fn seat_keeps<M, T>()
    ensures { SeatKeeps M T }
{}

/// A pass loads word 0 at a block entry.
pub fn enter_keeps<M, T>()
    ensures { EnterKeeps M T }
{}

/// A seat loads word 0 after a join.
pub fn renew_keeps<M, T>()
    ensures { RenewKeeps M T }
{}

/// What a load after a join leaves as it was.
pub fn renewed_stays<M, T>()
    ensures { RenewedStays M T }
{}

/// A list begins the longer of it and another.
pub fn longer_begins<T>()
    ensures { LongerBegins T }
{}

/// Loaded versions are within each higher bound.
pub fn within_grows()
    ensures { WithinGrows }
{}

/// The master loads word 0 in a post without a new version.
pub fn book_keeps<M, T>()
    ensures { BookKeeps M T }
{}

/// The master adds 1 to word 0 in a post with a new version.
pub fn announce_keeps<M, T>()
    ensures { AnnounceKeeps M T }
{}

/// A pass adds 1 to word 1.
pub fn draw_keeps<M, T>()
    ensures { DrawKeeps M T }
{}

/// Word 1 stays small.
pub fn draws_are_few<M, T>()
    ensures { DrawsAreFew M T }
{}

/// A note without a row is split from a seat.
pub fn note_keeps<M, T>()
    ensures { NoteKeeps M T }
{}

/// A note takes the row of a pass.
pub fn send_keeps<M, T>()
    ensures { SendKeeps M T }
{}

/// A note takes the row of the master.
pub fn give_back_keeps<M, T>()
    ensures { GiveBackKeeps M T }
{}

/// The master takes a note.
pub fn take_keeps<M, T>()
    ensures { TakeKeeps M T }
{}

/// A pass takes a note without a row.
pub fn news_keeps<M, T>()
    ensures { NewsKeeps M T }
{}

/// A pass takes its own row back.
pub fn take_back_keeps<M, T>()
    ensures { TakeBackKeeps M T }
{}

/// The master takes a pass.
pub fn end_keeps<M, T>()
    ensures { EndKeeps M T }
{}

/// A row that is no run tells that all runs were drawn.
pub fn past_runs<M, T>()
    ensures { PastRuns M T }
{}

/// A closed office's book list has the round's runs.
pub fn close_has_runs<M, T>()
    ensures { CloseHasRuns M T }
{}

/// What the master knows of the row that it is to post.
pub fn row_may_be_posted<M, T>()
    ensures { RowMayBePosted M T }
{}

/// What a pass's loaded versions meet in the master's book list.
pub fn loaded_may_be_posted<M, T>()
    ensures { LoadedMayBePosted M T }
{}

/// After a post, a note and a load leave nothing on its way for the pass.
pub fn post_settles<M, T>()
    ensures { PostSettles M T }
{}

/// The entry of a post is found by its draw.
pub fn booked_is_found()
    ensures { BookedIsFound }
{}
