//! Laws on histories: whatever instances do and in whatever order, what they post is legal; the
//! history of the runs in order is legal and whole, and by worker 0 alone it is the only one
//! (docs/REPAIR.md, "Laws on histories").
#![tactic(auto)]

ghost use Rattle.cv_laws.specs.Statements.{EndedMayFollow, EveryWorldIsLegal, FlownIsHonest, FlownIsOf, FlownIsPlain, FollowedHasRoom, LegalIsFew, LegalIsHonest, LegalIsOfPlan, LegalIsPlain, OneWorkerIsSerial, RowsAreJoined, SerialIsLegal, UnfiredIsPlain, WorkerZeroIsSerial, WorldsStand};

mod rounds;
mod serial;
mod turns;
mod versions;

pub use rounds::{
    current_is_of_plan, earlier_is_below, numbers_are_of_round, numbers_rise, runs_are_counted,
};
pub use serial::{below_is_whole, learn_entry_is_learn, next_may_follow};
pub use turns::{no_plain_turn, patched_turn_first, plain_turn_first, under_tables};
pub use versions::{floor_is_below, floor_stays, newest_is_last, some_version, tables_stay};

/// Every list of events leaves a legal history.
pub fn every_world_is_legal()
    ensures { EveryWorldIsLegal }
{}

/// What stays true of a world is so at its start, and through any event.
pub fn worlds_stand()
    ensures { WorldsStand }
{}

/// The entry of a run in flight that has ended may follow what was posted.
pub fn ended_may_follow()
    ensures { EndedMayFollow }
{}

/// The entry of a run that is told by its turns and its adoptions is honest at its end.
pub fn flown_is_honest()
    ensures { FlownIsHonest }
{}

/// A run that is told by its turns and its adoptions has its number and its run at every moment.
pub fn flown_is_of()
    ensures { FlownIsOf }
{}

/// The steps of a learn run at its end are those of the plain run, and its entry is of these.
pub fn flown_is_plain()
    ensures { FlownIsPlain }
{}

/// Rows of adopted versions are the joined form of the versions that they write out.
pub fn rows_are_joined()
    ensures { RowsAreJoined }
{}

/// An honest entry in which no repair fired says what the plain run did: end, turns, output and sites
/// are those of the run without patches (docs/REPAIR.md, "Patched runs").
pub fn unfired_is_plain()
    ensures { UnfiredIsPlain }
{}

/// So does each such entry of a legal history.
pub fn legal_is_plain()
    ensures { LegalIsPlain }
{}

/// Each entry of a legal history is honest under the versions of the whole history, its worker is the
/// plan's, and its adopted versions never fall.
pub fn legal_is_honest()
    ensures { LegalIsHonest }
{}

/// The serial history of a plan is legal and whole.
pub fn serial_is_legal()
    ensures { SerialIsLegal }
{}

/// Where worker 0 alone takes runs, a legal and whole history is the serial one.
pub fn worker_zero_is_serial()
    ensures { WorkerZeroIsSerial }
{}

/// With one worker, a legal and whole history is the serial one.
pub fn one_worker_is_serial()
    ensures { OneWorkerIsSerial }
{}

/// The runs of a legal history are the plan's.
pub fn legal_is_of_plan()
    ensures { LegalIsOfPlan }
{}

/// A legal history has no more entries than the plan has runs.
pub fn legal_is_few()
    ensures { LegalIsFew }
{}

/// A legal history has fewer entries than the plan has runs, where one more may follow.
pub fn followed_has_room()
    ensures { FollowedHasRoom }
{}
