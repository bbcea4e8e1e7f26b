//! The rounds of the plan, each at an office of its own.
ghost use Rattle.std.specs.Prelude.{◌≡◌, ◌<◌, ◌+◌, ◌∷◌, [], length};
ghost use Rattle.cv_desk.specs.Openings.{IsUpTo, SettingOf};
ghost use Rattle.cv_desk.specs.Standing.{IsClosed};
ghost use Rattle.cv_office_examples.specs.Taking.{AreEnded, AreTwo, IsReady, IsSameOffice, MayRun};

use crate::scene::{Ran, Scene};
use cv_base::{Adopted, Plan};
use cv_core::Book;
use cv_desk::{Draft, Office, Pass, Ticket};
use cv_exec::{Arena, Record};
use cv_office::Named;
use std::alloc::Global;
use std::marker::Brand;
use std::process::Abort;
use std::sync::Wait;

/// How the two passes of a round take its runs.
#[derive(Clone, Copy, Drop)]
pub(crate) enum Order {
    /// The first one takes a run, and then the second one.
    InTurn,
    /// Each has a run in flight, and the second one's ends and is posted first; then one more run
    /// each, in turn.
    Crossed,
    /// The first one takes so many runs, and the second one none.
    Alone(u32),
}

/// The two passes of an office.
#[derive(Drop)]
pub(crate) struct Two<N: Named> {
    pub(crate) first: Pass<N>,
    pub(crate) second: Pass<N>,
}

/// Takes all runs of a plan of two rounds, each in its order: the book has the runs of both.
#[tactic(auto, using(crate::proofs::Ends::none_up_to))]
pub(crate) fn take_rounds<R: Abort + Wait>(
    rt: &R,
    alloc: Global,
    plan: Plan,
    first: Order,
    second: Order,
) -> Book
    ensures plan { result.plan ≡ plan }
    ensures all { IsUpTo result.plan 2 result.past }
{
    match Book::make(alloc, plan) {
        Ok(book) => {
            assert!(rt; book.plan().rounds.as_slice().len() == 2);
            let book = take_round(rt, alloc, book, 0, first);
            take_round(rt, alloc, book, 1, second)
        }
        Err(_) => rt.panic("the book is made"),
    }
}

/// Takes all runs of a round at an office of two passes, and closes it: the book has the round's
/// runs.
#[tactic(auto, using(crate::proofs::Ends::plan_stays, crate::proofs::Ends::up_to_next))]
fn take_round<R: Abort + Wait>(rt: &R, alloc: Global, book: Book, round: u32, order: Order) -> Book
    requires within { round < length book.plan.rounds }
    requires up_to { IsUpTo book.plan round book.past }
    ensures plan { result.plan ≡ book.plan }
    ensures up_to { IsUpTo result.plan (round + 1) result.past }
{
    let plan = match book.plan().copied(alloc) {
        Ok(plan) => plan,
        Err(_) => rt.panic("the plan is copied"),
    };
    match Draft::make(alloc, book, round) {
        Ok(draft) => in_office::<Brand, R>(rt, alloc, &plan, draft, order),
        Err(_) => rt.panic("the draft is made"),
    }
}

/// Takes all runs of the round of a draft, at the office that `N` names.
#[tactic(auto, using(crate::proofs::Ends::are_two))]
fn in_office<N: Named, R: Abort + Wait>(
    rt: &R,
    alloc: Global,
    plan: &Plan,
    draft: Draft,
    order: Order,
) -> Book
    requires named { draft.table ≡ N.table }
    requires plan { draft.setting.plan ≡ plan.now }
    ensures { IsClosed draft.setting result }
{
    match Office::<N>::make(alloc, draft) {
        Ok(made) => {
            let two = two_of(rt, made.1);
            in_round(rt, alloc, plan, made.0, two, order)
        }
        Err(_) => rt.panic("the office is made"),
    }
}

/// The passes of an office, which are two.
fn two_of<N: Named>(rt: &impl Abort, passes: Vec<Pass<N>>) -> Two<N>
    ensures { passes.items ≡ result.first ∷ result.second ∷ [] }
{
    let mut passes = passes;
    assert!(rt; passes.len() == 2);
    let second = passes.pop();
    let first = passes.pop();
    match (first, second) {
        (Some(first), Some(second)) => Two { first, second },
        _ => rt.panic("there are two"),
    }
}

/// Takes all runs of an office's round, and closes the office.
fn in_round<N: Named, R: Abort + Wait>(
    rt: &R,
    alloc: Global,
    plan: &Plan,
    office: Office<N>,
    two: Two<N>,
    order: Order,
) -> Book
    requires two { (s : SettingOf) × (s.plan ≡ plan.now) × AreTwo s two.first two.second }
    ensures { (s : SettingOf) → s.plan ≡ plan.now → AreTwo s two.first two.second → IsClosed s result }
{
    let scene = Scene {
        rt,
        alloc,
        plan,
        office: &office,
    };
    let Two { first, second } = scene.end(two, order);
    close(rt, alloc, office, first, second)
}

/// Closes an office: all runs that were drawn are posted, and the first pass has met the end.
fn close<N: Named>(
    rt: &impl Abort,
    alloc: Global,
    office: Office<N>,
    first: Pass<N>,
    second: Pass<N>,
) -> Book
    requires ended { (s : SettingOf) × AreEnded s first second }
    ensures { (s : SettingOf) → AreEnded s first second → IsClosed s result }
{
    match vec![in alloc; first, second] {
        Ok(passes) => office.close(passes),
        Err(_) => rt.panic("there is room for two"),
    }
}

impl<'a, N: Named, R: Abort + Wait> Scene<'a, N, R> {
    /// An arena for runs of the plan.
    fn arena(&self) -> Arena
        ensures { result.plan ≡ self.now.plan.now }
    {
        match Arena::make(self.alloc, self.plan) {
            Ok(arena) => arena,
            Err(_) => self.rt.panic("an arena is made"),
        }
    }

    /// Takes all runs of the round; then the first pass meets its end.
    #[tactic(auto, using(crate::proofs::Ends::are_ended, crate::proofs::Ends::two_ready))]
    fn end(&self, two: Two<N>, order: Order) -> Two<N>
        requires two { (s : SettingOf) × (s.plan ≡ self.now.plan.now) × AreTwo s two.first two.second }
        ensures { (s : SettingOf) → s.plan ≡ self.now.plan.now → AreTwo s two.first two.second → AreEnded s result.first result.second }
    {
        let Two { mut first, second } = self.play(two, order);
        assert!(self.rt; self.meets_end(&mut first));
        Two { first, second }
    }

    /// Takes the runs of the round.
    fn play(&self, two: Two<N>, order: Order) -> Two<N>
        requires ready { IsReady self.now.plan.now two.first × IsReady self.now.plan.now two.second }
        ensures ready { IsReady self.now.plan.now result.first × IsReady self.now.plan.now result.second }
        ensures office { IsSameOffice two.first result.first × IsSameOffice two.second result.second }
    {
        match order {
            Order::InTurn => self.in_turn(two),
            Order::Crossed => {
                let two = self.cross(two);
                self.in_turn(two)
            }
            Order::Alone(count) => self.alone(two, count),
        }
    }

    /// The first pass takes a run, and then the second one.
    fn in_turn(&self, two: Two<N>) -> Two<N>
        requires ready { IsReady self.now.plan.now two.first × IsReady self.now.plan.now two.second }
        ensures ready { IsReady self.now.plan.now result.first × IsReady self.now.plan.now result.second }
        ensures office { IsSameOffice two.first result.first × IsSameOffice two.second result.second }
    {
        let mut arena = self.arena();
        let first = self.take(&mut arena, two.first);
        let second = self.take(&mut arena, two.second);
        Two { first, second }
    }

    /// The first pass takes so many runs.
    fn alone(&self, two: Two<N>, count: u32) -> Two<N>
        requires ready { IsReady self.now.plan.now two.first × IsReady self.now.plan.now two.second }
        ensures ready { IsReady self.now.plan.now result.first × IsReady self.now.plan.now result.second }
        ensures office { IsSameOffice two.first result.first × IsSameOffice two.second result.second }
    {
        let Two { first, second } = two;
        let first = self.take_so_many(first, count);
        Two { first, second }
    }

    /// A pass takes so many runs.
    fn take_so_many(&self, pass: Pass<N>, count: u32) -> Pass<N>
        requires ready { IsReady self.now.plan.now pass }
        ensures ready { IsReady self.now.plan.now result }
        ensures office { IsSameOffice pass result }
    {
        let mut arena = self.arena();
        let mut pass = pass;
        for _ in 0..count {
            pass = self.take(&mut arena, pass);
        }
        pass
    }

    /// Both draw a run. The first pass's run makes its first block entry, under version 0. The second
    /// one's run ends, and its post opens the case. So the first one's makes its next block entry under
    /// version 1, and ends.
    fn cross(&self, two: Two<N>) -> Two<N>
        requires ready { IsReady self.now.plan.now two.first × IsReady self.now.plan.now two.second }
        ensures ready { IsReady self.now.plan.now result.first × IsReady self.now.plan.now result.second }
        ensures office { IsSameOffice two.first result.first × IsSameOffice two.second result.second }
    {
        let Two {
            mut first,
            mut second,
        } = two;
        let ticket = self.draw(&mut first);
        let other = self.draw(&mut second);
        assert!(self.rt; ticket.run() == 2 && other.run() == 3);
        let mut arena = self.arena();
        self.start(&mut arena, &first, &ticket);
        self.enter(&mut arena, &mut first, &ticket, 0, 0);
        let second = self.open_case(second, other);
        self.go_on(&mut arena, &first, &ticket);
        self.enter(&mut arena, &mut first, &ticket, 1, 43);
        self.go_on(&mut arena, &first, &ticket);
        let outcome = self.finish(&mut arena, &first, &ticket);
        self.post(&mut first, ticket, outcome, &arena);
        Two { first, second }
    }

    /// Runs a run, which enters two blocks under version 0, and posts it.
    fn open_case(&self, pass: Pass<N>, ticket: Ticket) -> Pass<N>
        requires ticket { MayRun self.now.plan.now pass ticket }
        ensures ready { IsReady self.now.plan.now result }
        ensures office { IsSameOffice pass result }
    {
        let mut arena = self.arena();
        let Ran { mut pass, outcome } = self.run(&mut arena, pass, &ticket);
        assert!(self.rt; has_entered_two(&outcome));
        self.post(&mut pass, ticket, outcome, &arena);
        pass
    }
}

/// Whether a run has entered two blocks, and both under version 0.
fn has_entered_two(outcome: &Record) -> bool {
    let adopted = [Adopted {
        version: 0,
        entries: 2,
    }];
    outcome.entry().adopted.as_slice() == adopted.as_slice()
}
