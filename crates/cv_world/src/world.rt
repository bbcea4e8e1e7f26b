ghost use Rattle.std.specs.Prelude.{◌≡◌, ◌≤◌, None, Some, replicate, IfOk, OnErr};
ghost use Rattle.cv_histories.specs.Legal.{IsLegal};
ghost use Rattle.cv_histories.specs.Versions.{ledger, newest, newest_of};
ghost use Rattle.cv_histories.specs.World.{Begin, Enter, Turn, Post, current_round, event, next_draw, start_world};
ghost use Rattle.cv_world.specs.Events.{event_of};
ghost use Rattle.cv_world.specs.WorldOf.{world_of};

use crate::draws::{current_round, run_of};
use crate::instance::Instance;
use cv_base::{NoMemory, PatchTable, Plan};
use cv_core::Book;
use cv_laws::{
    current_is_of_plan, ended_may_follow, newest_is_last, numbers_are_of_round, runs_are_counted,
    some_version, tables_stay, worlds_stand,
};
use std::alloc::Global;
use std::marker::Model;
use std::sync::Arc;

/// What an instance, by its number, may do.
#[derive(Clone, Copy, Debug)]
pub enum Event {
    /// It takes the next run of the current round.
    Begin(u32),
    /// Its live run enters a block under the newest version.
    Enter(u32),
    /// Its run takes a turn.
    Turn(u32),
    /// The entry of its run, which has ended, is posted.
    Post(u32),
}

/// Whether an event happened; one that is disabled changes nothing.
#[derive(Clone, Copy, Debug, PartialEq, Eq)]
pub enum Did {
    Done,
    Disabled,
}

/// A book and the instances that run its plan, one for each of some workers. What they post, in
/// whatever order, is a legal history.
#[derive(Drop)]
pub struct World {
    book: Book,
    /// The runs drawn in the current round.
    drawn: u32,
    instances: Vec<Instance>,
}

impl Model for World {
    ghost use Rattle.cv_world.specs.Stands.{IsWorld, world_with};
    ghost use Rattle.cv_world.specs.WorldOf.{WorldOf};

    ghost Value = { WorldOf };

    ghost view = { λ w. world_with w.book w.drawn w.instances.items };

    ghost invariant = { λ w. IsWorld w.book w.drawn w.instances.items };
}

impl World {
    /// The world of a plan at its start, with 1 to as many instances as the plan has workers.
    pub fn make(alloc: Global, plan: Plan, instances: u32) -> Result<World, NoMemory>
        requires some { 1 ≤ instances }
        requires few { instances ≤ plan.workers }
        ensures plan { IfOk result (λ w. w.plan ≡ plan) }
        ensures start { IfOk result (λ w. world_of w ≡ start_world instances) }
    {
        worlds_stand();
        let instances = idle(alloc, &plan, instances)?;
        let book = Book::make(alloc, plan)?;
        Ok(World {
            book,
            drawn: 0,
            instances,
        })
    }

    /// One event. Where memory is refused the world is as it was.
    pub fn step(&mut self, alloc: Global, next: Event) -> Result<Did, NoMemory>
        ensures done { IfOk result (λ did. did ≡ Did.Done → event self.old.plan (world_of self.old) (event_of next) ≡ Some (world_of self.new)) }
        ensures disabled { IfOk result (λ did. did ≡ Did.Disabled → event self.old.plan (world_of self.old) (event_of next) ≡ None) }
        ensures nothing { IfOk result (λ did. did ≡ Did.Disabled → self.new ≡ self.old) }
        ensures plan { self.new.plan ≡ self.old.plan }
        ensures err { OnErr result (self.new ≡ self.old) }
    {
        match next {
            Event::Begin(i) => self.begin(alloc, i),
            Event::Enter(i) => self.enter(i),
            Event::Turn(i) => self.turn(i),
            Event::Post(i) => self.post(alloc, i),
        }
    }

    /// What was posted so far.
    pub fn book(&self) -> &Book
        ensures plan { result.now.plan ≡ self.now.plan }
        ensures history { result.now.past ≡ self.now.history }
        ensures legal { IsLegal self.now.plan self.now.history }
    {
        &self.book
    }

    /// An instance takes the next run of the current round, where it has none and one is left.
    fn begin(&mut self, alloc: Global, i: u32) -> Result<Did, NoMemory>
        ensures done { IfOk result (λ did. did ≡ Did.Done → event self.old.plan (world_of self.old) (Begin i) ≡ Some (world_of self.new)) }
        ensures disabled { IfOk result (λ did. did ≡ Did.Disabled → event self.old.plan (world_of self.old) (Begin i) ≡ None) }
        ensures nothing { IfOk result (λ did. did ≡ Did.Disabled → self.new ≡ self.old) }
        ensures plan { self.new.plan ≡ self.old.plan }
        ensures err { OnErr result (self.new ≡ self.old) }
    {
        worlds_stand();
        numbers_are_of_round();
        runs_are_counted();
        if i as usize >= self.instances.len() || self.instances[i as usize].has_run() {
            return Ok(Did::Disabled);
        }
        let Some(run) = self.next_run() else {
            return Ok(Did::Disabled);
        };
        self.instances[i as usize].begin(alloc, self.book.plan(), run, i)?;
        self.drawn += 1;
        Ok(Did::Done)
    }

    /// The next run of the current round, where one is left to draw.
    fn next_run(&self) -> Option<u32>
        ensures { result ≡ next_draw self.now.plan (world_of self.now) (current_round self.now.plan self.now.history) }
    {
        current_is_of_plan();
        let round = round_of(&self.book)?;
        run_of(self.book.plan(), round, self.drawn)
    }

    /// The live run of an instance enters a block under the newest version, where it stands before one
    /// and has not entered.
    fn enter(&mut self, i: u32) -> Result<Did, NoMemory>
        ensures done { IfOk result (λ did. did ≡ Did.Done → event self.old.plan (world_of self.old) (Enter i) ≡ Some (world_of self.new)) }
        ensures disabled { IfOk result (λ did. did ≡ Did.Disabled → event self.old.plan (world_of self.old) (Enter i) ≡ None) }
        ensures nothing { IfOk result (λ did. did ≡ Did.Disabled → self.new ≡ self.old) }
        ensures plan { self.new.plan ≡ self.old.plan }
        ensures err { OnErr result (self.new ≡ self.old) }
    {
        worlds_stand();
        some_version();
        newest_is_last();
        if i as usize >= self.instances.len() || !self.instances[i as usize].wants_entry() {
            return Ok(Did::Disabled);
        }
        let (version, table) = newest_of(&self.book)?;
        self.instances[i as usize].adopt(version, table)?;
        Ok(Did::Done)
    }

    /// The run of an instance takes a turn, where it has not ended and wants no version first.
    fn turn(&mut self, i: u32) -> Result<Did, NoMemory>
        ensures done { IfOk result (λ did. did ≡ Did.Done → event self.old.plan (world_of self.old) (Turn i) ≡ Some (world_of self.new)) }
        ensures disabled { IfOk result (λ did. did ≡ Did.Disabled → event self.old.plan (world_of self.old) (Turn i) ≡ None) }
        ensures nothing { IfOk result (λ did. did ≡ Did.Disabled → self.new ≡ self.old) }
        ensures plan { self.new.plan ≡ self.old.plan }
        ensures err { OnErr result (self.new ≡ self.old) }
    {
        worlds_stand();
        if i as usize >= self.instances.len() || !self.instances[i as usize].may_turn() {
            return Ok(Did::Disabled);
        }
        self.instances[i as usize].turn()?;
        Ok(Did::Done)
    }

    /// The entry of an instance's run is posted, where that has ended.
    fn post(&mut self, alloc: Global, i: u32) -> Result<Did, NoMemory>
        ensures done { IfOk result (λ did. did ≡ Did.Done → event self.old.plan (world_of self.old) (Post i) ≡ Some (world_of self.new)) }
        ensures disabled { IfOk result (λ did. did ≡ Did.Disabled → event self.old.plan (world_of self.old) (Post i) ≡ None) }
        ensures nothing { IfOk result (λ did. did ≡ Did.Disabled → self.new ≡ self.old) }
        ensures plan { self.new.plan ≡ self.old.plan }
        ensures err { OnErr result (self.new ≡ self.old) }
    {
        worlds_stand();
        ended_may_follow();
        tables_stay();
        if i as usize >= self.instances.len() || !self.instances[i as usize].ended() {
            return Ok(Did::Disabled);
        }
        let before = round_of(&self.book);
        self.instances[i as usize].post(alloc, &mut self.book)?;
        if round_of(&self.book) != before {
            self.drawn = 0;
        }
        Ok(Did::Done)
    }
}

/// So many instances of a plan, without runs.
fn idle(alloc: Global, plan: &Plan, count: u32) -> Result<Vec<Instance>, NoMemory>
    ensures { IfOk result (λ v. v.items ≡ replicate count (record { plan = plan.now; going = None })) }
{
    let mut instances = Vec::new(alloc);
    for _ in 0..count {
        let instance = Instance::make(alloc, plan)?;
        instances.push(instance)?;
    }
    Ok(instances)
}

/// The current round of a book.
fn round_of(book: &Book) -> Option<u32>
    ensures { result ≡ current_round book.now.plan book.now.past }
{
    let manager = book.manager();
    current_round(manager.plan(), manager.history())
}

/// The newest version of a book, with its table.
fn newest_of(book: &Book) -> Result<(u32, Arc<PatchTable, Global>), NoMemory>
    ensures number { IfOk result (λ v. v.0 ≡ newest book.now.plan book.now.past) }
    ensures table { IfOk result (λ v. v.1.value ≡ newest_of (ledger book.now.plan book.now.past).versions) }
{
    let manager = book.manager();
    let newest = manager.version_count() - 1;
    let table = Arc::try_clone(&manager.versions()[newest as usize])?;
    Ok((newest, table))
}
