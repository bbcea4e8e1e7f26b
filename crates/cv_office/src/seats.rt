//! Single steps of seats. Each calls the laws by which its steps keep the office's rule.
ghost use Rattle.std.specs.Prelude.{◌≡◌, ◌<◌, ◌≤◌, ◌-◌, ◌^◌, [], length, None, IfOk};
ghost use Rattle.cv_rule.specs.declared.view.Opening.{Opening};
ghost use Rattle.cv_rule.specs.declared.view.Role.TheVariants.{Master};
ghost use Rattle.cv_office.specs.Told.{HasRun, HasRunsOnce, IsAlone, IsHolding, IsIdle, IsMaster, IsOwnRow, IsPass, IsPostable, IsStart, IsToldBoth, IsWaiting};
ghost use Rattle.cv_rule.specs.Steps.{announced, booked, drawn, entered, giving_back, joined, master_at_start, new_pass, note_of, renewed, seating, sending};

use crate::board::{
    Announces, Board, Books, Draws, Enters, GivesBack, Notes, Opens, Place, Renews, Seats, Sends,
};
use atomic_table::Table;
use cv_rule::{
    announce_keeps, book_keeps, close_has_runs, draw_keeps, draws_are_few, end_keeps, enter_keeps,
    give_back_keeps, news_keeps, note_keeps, past_runs, renew_keeps, renewed_stays,
    row_may_be_posted, seat_keeps, send_keeps, start_is_ruled, take_back_keeps, take_keeps,
    within_grows,
};
use std::alloc::{AllocError, Global};

/// The table at the start, and the master's seat. `versions` is how many versions the history at
/// the making has.
pub fn open<M, T, C: Opens<M, T>>(
    alloc: Global,
    about: &C,
    versions: u64,
) -> Result<(Board<M, T, C>, Place<M, T>), AllocError>
    requires start { IsStart (C.opening about.now) (C.versions about.now) (C.workers about.now) }
    requires versions { versions ≡ length (C.versions about.now) }
    ensures board { IfOk result (λ t. (t.0.shared.table_id.words ≡ 2) × (t.0.shared.table_id.slots ≡ 0) × (t.1.table_id ≡ t.0.shared.table_id) × (t.0.shared.key ≡ about.now)) }
    ensures master { IfOk result (λ t. t.1.me ≡ (master_at_start (C.opening about.now) (C.versions about.now) (C.workers about.now), [])) }
{
    start_is_ruled::<M, T>();
    Table::of_words(alloc, &[versions, 0], about)
}

/// A seat for the first worker without a pass.
pub fn seat<M, T, C: Opens<M, T>>(board: &Board<M, T, C>, master: &mut Place<M, T>) -> Place<M, T>
    requires board { (board.now.shared.table_id.words ≡ 2) × (master.old.table_id ≡ board.now.shared.table_id) }
    requires master { IsMaster master.old.me.0 }
    requires absent { 0 < length master.old.me.0.absent }
    ensures master { (master.new.table_id ≡ master.old.table_id) × (master.new.id ≡ master.old.id) × (master.new.me ≡ (seating master.old.me.0, master.old.me.1)) }
    ensures seat { (result.table_id ≡ master.old.table_id) × (result.me ≡ (new_pass master.old.me.0, [])) }
    ensures pass { IsPass result.me.0 }
{
    seat_keeps::<M, T>();
    board.shared.split_seat::<Seats>(master)
}

/// The newest version, by one load of word 0.
pub fn enter<M, T, C: Opens<M, T>>(board: &Board<M, T, C>, pass: &mut Place<M, T>) -> u32
    requires board { (board.now.shared.table_id.words ≡ 2) × (pass.old.table_id ≡ board.now.shared.table_id) }
    requires pass { IsPass pass.old.me.0 }
    ensures seat { (pass.new.table_id ≡ pass.old.table_id) × (pass.new.id ≡ pass.old.id) × (pass.new.me.1 ≡ pass.old.me.1) }
    ensures entered { pass.new.me.0 ≡ entered pass.old.me.0 result }
    ensures pass { IsPass pass.new.me.0 }
    ensures rises { (pass.old.me.0.reach ≤ result) × (pass.old.me.0.floor ≤ result) × (result ≤ 1024) }
{
    enter_keeps::<M, T>();
    within_grows();
    (board.shared.load::<Enters>(pass, 0) - 1) as u32
}

/// The next number, by one add to word 1.
pub fn draw<M, T, C: Opens<M, T>>(board: &Board<M, T, C>, pass: &mut Place<M, T>) -> u64
    requires board { (board.now.shared.table_id.words ≡ 2) × (pass.old.table_id ≡ board.now.shared.table_id) }
    requires pass { IsPass pass.old.me.0 }
    requires waiting { IsWaiting pass.old.me.0 }
    ensures seat { (pass.new.table_id ≡ pass.old.table_id) × (pass.new.id ≡ pass.old.id) × (pass.new.me.1 ≡ pass.old.me.1) }
    ensures drawn { pass.new.me.0 ≡ drawn pass.old.me.0 result }
    ensures pass { IsPass pass.new.me.0 }
    ensures few { result < 2 ^ 32 }
{
    draw_keeps::<M, T>();
    draws_are_few::<M, T>();
    board.shared.fetch_add::<Draws>(pass, 1, 1)
}

/// The master takes over what the pass knows, and loads word 0.
pub fn hear<M, T, C: Opens<M, T>>(
    board: &Board<M, T, C>,
    master: &mut Place<M, T>,
    pass: &mut Place<M, T>,
)
    requires board { (board.now.shared.table_id.words ≡ 2) × (pass.old.table_id ≡ board.now.shared.table_id) × (master.old.table_id ≡ board.now.shared.table_id) }
    requires master { IsMaster master.old.me.0 }
    requires pass { IsPass pass.old.me.0 }
    ensures pass { (pass.new.table_id ≡ pass.old.table_id) × (pass.new.id ≡ pass.old.id) × (pass.new.me ≡ pass.old.me) }
    ensures master { (master.new.table_id ≡ master.old.table_id) × (master.new.id ≡ master.old.id) × (master.new.me.1 ≡ master.old.me.1) }
    ensures heard { master.new.me.0 ≡ renewed (joined master.old.me.0 (note_of pass.old.me.0 [])) }
    ensures empty { IsMaster master.new.me.0 }
    ensures told { IsToldBoth (joined master.old.me.0 (note_of pass.old.me.0 [])) }
    ensures known { master.new.me.0.known ≡ master.old.me.0.known }
    ensures reach { pass.old.me.0.reach < length master.old.me.0.known.versions }
{
    note_keeps::<M, T>();
    take_keeps::<M, T>();
    renew_keeps::<M, T>();
    row_may_be_posted::<M, T>();
    renewed_stays::<M, T>();
    let note = board.shared.split_seat::<Notes>(pass);
    board.shared.join_seat::<Notes>(master, note);
    board.shared.load::<Renews>(master, 0);
}

/// The pass takes over what the master knows, and loads word 0.
pub fn tell<M, T, C: Opens<M, T>>(
    board: &Board<M, T, C>,
    master: &mut Place<M, T>,
    pass: &mut Place<M, T>,
)
    requires board { (board.now.shared.table_id.words ≡ 2) × (pass.old.table_id ≡ board.now.shared.table_id) × (master.old.table_id ≡ board.now.shared.table_id) }
    requires master { IsMaster master.old.me.0 }
    requires pass { IsPass pass.old.me.0 }
    ensures master { (master.new.table_id ≡ master.old.table_id) × (master.new.id ≡ master.old.id) × (master.new.me ≡ master.old.me) }
    ensures pass { (pass.new.table_id ≡ pass.old.table_id) × (pass.new.id ≡ pass.old.id) × (pass.new.me.1 ≡ pass.old.me.1) }
    ensures told { pass.new.me.0 ≡ renewed (joined pass.old.me.0 (note_of master.old.me.0 [])) }
    ensures both { IsToldBoth (joined pass.old.me.0 (note_of master.old.me.0 [])) }
    ensures seated { IsPass pass.new.me.0 }
{
    note_keeps::<M, T>();
    news_keeps::<M, T>();
    renew_keeps::<M, T>();
    row_may_be_posted::<M, T>();
    renewed_stays::<M, T>();
    within_grows();
    let note = board.shared.split_seat::<Notes>(master);
    board.shared.join_seat::<Notes>(pass, note);
    board.shared.load::<Renews>(pass, 0);
}

/// The master takes the pass's row, and loads word 0: what it may then post, and the number of
/// versions that it found.
pub fn send<M, T, C: Opens<M, T>>(
    board: &Board<M, T, C>,
    master: &mut Place<M, T>,
    pass: &mut Place<M, T>,
) -> u64
    requires board { (board.now.shared.table_id.words ≡ 2) × (pass.old.table_id ≡ board.now.shared.table_id) × (master.old.table_id ≡ board.now.shared.table_id) }
    requires master { IsMaster master.old.me.0 }
    requires pass { IsPass pass.old.me.0 }
    requires row { HasRun pass.old.me.0 }
    ensures pass { (pass.new.table_id ≡ pass.old.table_id) × (pass.new.id ≡ pass.old.id) × (pass.new.me ≡ (sending pass.old.me.0, pass.old.me.1)) }
    ensures master { (master.new.table_id ≡ master.old.table_id) × (master.new.id ≡ master.old.id) × (master.new.me.1 ≡ master.old.me.1) }
    ensures heard { master.new.me.0 ≡ renewed (joined master.old.me.0 (note_of pass.old.me.0 pass.old.me.0.hand)) }
    ensures holding { IsHolding pass.old.me.0.hand master.new.me.0 }
    ensures told { IsToldBoth (joined master.old.me.0 (note_of pass.old.me.0 pass.old.me.0.hand)) }
    ensures may { IsPostable (joined master.old.me.0 (note_of pass.old.me.0 pass.old.me.0.hand)) pass.old.me.0.hand result }
    ensures known { master.new.me.0.known ≡ master.old.me.0.known }
{
    send_keeps::<M, T>();
    take_keeps::<M, T>();
    renew_keeps::<M, T>();
    row_may_be_posted::<M, T>();
    renewed_stays::<M, T>();
    let note = board.shared.split_seat::<Sends>(pass);
    board.shared.join_seat::<Notes>(master, note);
    board.shared.load::<Renews>(master, 0)
}

/// The master's row goes to its book list, with the newest version, where the post made none.
pub fn book<M, T, C: Opens<M, T>>(board: &Board<M, T, C>, master: &mut Place<M, T>) -> u64
    requires board { (board.now.shared.table_id.words ≡ 2) × (master.old.table_id ≡ board.now.shared.table_id) }
    requires holding { IsHolding master.old.me.0.hand master.old.me.0 }
    ensures master { (master.new.table_id ≡ master.old.table_id) × (master.new.id ≡ master.old.id) × (master.new.me.1 ≡ master.old.me.1) }
    ensures booked { master.new.me.0 ≡ booked master.old.me.0 (result - 1) }
    ensures long { result ≡ length master.old.me.0.known.versions }
{
    book_keeps::<M, T>();
    board.shared.load::<Books>(master, 0)
}

/// The master's row goes to its book list with a new version, whose table is announced by adding 1
/// to word 0. `count` is how many versions there were; there are at most 1,025 afterwards.
pub fn announce<M, T, C: Opens<M, T>>(
    board: &Board<M, T, C>,
    master: &mut Place<M, T>,
    count: u64,
    table: &T,
)
    requires board { (board.now.shared.table_id.words ≡ 2) × (master.old.table_id ≡ board.now.shared.table_id) }
    requires holding { IsHolding master.old.me.0.hand master.old.me.0 }
    requires count { count ≡ length master.old.me.0.known.versions }
    requires room { count < 1025 }
    ensures master { (master.new.table_id ≡ master.old.table_id) × (master.new.id ≡ master.old.id) × (master.new.me.1 ≡ master.old.me.1) }
    ensures announced { master.new.me.0 ≡ announced master.old.me.0 table.now }
{
    announce_keeps::<M, T>();
    board
        .shared
        .compare_exchange_with::<Announces>(master, 0, count, count + 1, table);
}

/// Where the book refused, the row goes back to the pass, which then takes over what the master
/// knows.
pub fn give_back<M, T, C: Opens<M, T>>(
    board: &Board<M, T, C>,
    master: &mut Place<M, T>,
    pass: &mut Place<M, T>,
)
    requires board { (board.now.shared.table_id.words ≡ 2) × (pass.old.table_id ≡ board.now.shared.table_id) × (master.old.table_id ≡ board.now.shared.table_id) }
    requires master { IsHolding master.old.me.0.hand master.old.me.0 }
    requires pass { IsPass pass.old.me.0 }
    requires own { IsOwnRow master.old.me.0 pass.old.me.0 }
    ensures master { (master.new.table_id ≡ master.old.table_id) × (master.new.id ≡ master.old.id) × (master.new.me ≡ (giving_back master.old.me.0, master.old.me.1)) }
    ensures pass { (pass.new.table_id ≡ pass.old.table_id) × (pass.new.id ≡ pass.old.id) × (pass.new.me.1 ≡ pass.old.me.1) }
    ensures back { pass.new.me.0 ≡ renewed (joined pass.old.me.0 (note_of master.old.me.0 master.old.me.0.hand)) }
    ensures seated { IsPass pass.new.me.0 }
{
    give_back_keeps::<M, T>();
    take_back_keeps::<M, T>();
    renew_keeps::<M, T>();
    row_may_be_posted::<M, T>();
    renewed_stays::<M, T>();
    within_grows();
    let note = board.shared.split_seat::<GivesBack>(master);
    board.shared.join_seat::<Notes>(pass, note);
    board.shared.load::<Renews>(pass, 0);
}

/// The master takes a pass whose draws are all posted, and loads word 0.
pub fn end<M, T, C: Opens<M, T>>(
    board: &Board<M, T, C>,
    master: &mut Place<M, T>,
    pass: Place<M, T>,
)
    requires board { (board.now.shared.table_id.words ≡ 2) × (pass.table_id ≡ board.now.shared.table_id) × (master.old.table_id ≡ board.now.shared.table_id) }
    requires master { master.old.me.0.role ≡ Master }
    requires pass { IsPass pass.me.0 × (pass.me.1 ≡ []) }
    requires done { (pass.me.0.on_its_way ≡ None) × IsIdle pass.me.0 }
    ensures master { (master.new.table_id ≡ master.old.table_id) × (master.new.id ≡ master.old.id) × (master.new.me.1 ≡ master.old.me.1) }
    ensures ended { master.new.me.0 ≡ renewed (joined master.old.me.0 pass.me.0) }
    ensures told { IsToldBoth (joined master.old.me.0 pass.me.0) }
    ensures known { master.new.me.0.known ≡ master.old.me.0.known }
{
    end_keeps::<M, T>();
    renew_keeps::<M, T>();
    row_may_be_posted::<M, T>();
    board.shared.join_seat::<Notes>(master, pass);
    board.shared.load::<Renews>(master, 0);
}

/// Closes the table. With all passes joined, of which one met the end of the round, the master's
/// book list has each run of the round once, and no other.
pub fn close<M, T, C: Opens<M, T>>(board: Board<M, T, C>, master: Place<M, T>)
    requires board { (board.shared.table_id.slots ≡ 0) × (master.table_id ≡ board.shared.table_id) }
    ensures { (o : Opening M) → IsAlone o master.me.0 → HasRunsOnce o master.me.0 }
{
    past_runs::<M, T>();
    close_has_runs::<M, T>();
    let closed = board.close_with(master);
    closed.free();
}
