//! A live run in steps: the block entries that it makes, and the turns between them.
ghost use Rattle.std.specs.Prelude.{◌≡◌};
ghost use Rattle.cv_desk.specs.Passes.{Sight, TicketOf};
ghost use Rattle.cv_office_examples.specs.Taking.{IsFlying, IsSameOffice, MayPost, MayRun};

use crate::scene::Scene;
use cv_base::PatchTable;
use cv_desk::{Pass, Ticket};
use cv_exec::{Arena, Record, mode_of};
use cv_office::Named;
use std::alloc::Global;
use std::process::Abort;
use std::sync::{Arc, Wait};

impl<'a, N: Named, R: Abort + Wait> Scene<'a, N, R> {
    /// Starts the run of a ticket.
    pub(crate) fn start(&self, arena: &mut Arena, pass: &Pass<N>, ticket: &Ticket)
        requires arena { arena.old.plan ≡ self.now.plan.now }
        requires ticket { MayRun self.now.plan.now pass.now ticket.now }
        ensures flies { IsFlying self.now.plan.now pass.now ticket.now arena.new.going }
        ensures plan { arena.new.plan ≡ arena.old.plan }
    {
        assert!(self.rt; mode_of(self.plan, ticket.run()).is_some());
        match arena.start(self.alloc, self.plan, ticket.run(), pass.worker()) {
            Ok(()) => {}
            Err(_) => self.rt.panic("the run is started"),
        }
    }

    /// The run enters a block under the newest version, of this number, whose table has so many
    /// patches.
    pub(crate) fn enter(
        &self,
        arena: &mut Arena,
        pass: &mut Pass<N>,
        ticket: &Ticket,
        version: u32,
        patches: usize,
    )
        requires arena { arena.old.plan ≡ self.now.plan.now }
        requires flies { IsFlying self.now.plan.now pass.old ticket.now arena.old.going }
        ensures flies { IsFlying self.now.plan.now pass.new ticket.now arena.new.going }
        ensures office { IsSameOffice pass.old pass.new }
        ensures plan { arena.new.plan ≡ arena.old.plan }
    {
        assert!(self.rt; arena.wants_entry());
        let newest = pass.enter(self.office);
        let table = match pass.fetch(self.rt, self.office, newest) {
            Ok(table) => table,
            Err(_) => self.rt.panic("the table is fetched"),
        };
        assert!(self.rt; newest == version && patches_in(&table) == patches);
        match arena.adopt(newest, table) {
            Ok(()) => {}
            Err(_) => self.rt.panic("the version is adopted"),
        }
    }

    /// The run takes turns, ten at the most, up to its next block entry or its end.
    pub(crate) fn go_on(&self, arena: &mut Arena, pass: &Pass<N>, ticket: &Ticket)
        requires flies { IsFlying self.now.plan.now pass.now ticket.now arena.old.going }
        ensures flies { IsFlying self.now.plan.now pass.now ticket.now arena.new.going }
        ensures plan { arena.new.plan ≡ arena.old.plan }
    {
        for _ in 0..10 {
            if arena.ended() || arena.wants_entry() {
                return;
            }
            self.turn(arena, pass, ticket);
        }
    }

    /// One turn of the run.
    fn turn(&self, arena: &mut Arena, pass: &Pass<N>, ticket: &Ticket)
        requires flies { IsFlying self.now.plan.now pass.now ticket.now arena.old.going }
        ensures flies { IsFlying self.now.plan.now pass.now ticket.now arena.new.going }
        ensures plan { arena.new.plan ≡ arena.old.plan }
    {
        assert!(self.rt; !arena.ended());
        assert!(self.rt; !arena.wants_entry());
        match arena.step() {
            Ok(_) => {}
            Err(_) => self.rt.panic("a turn is taken"),
        }
    }

    /// The record of the run, which has ended.
    pub(crate) fn finish(&self, arena: &mut Arena, pass: &Pass<N>, ticket: &Ticket) -> Record
        requires arena { arena.old.plan ≡ self.now.plan.now }
        requires flies { IsFlying self.now.plan.now pass.now ticket.now arena.old.going }
        ensures may { MayPost pass.now ticket.now result arena.new }
        ensures plan { arena.new.plan ≡ arena.old.plan }
    {
        assert!(self.rt; arena.ended());
        match arena.finish(self.alloc) {
            Ok(outcome) => {
                let _rows = outcome.entry();
                outcome
            }
            Err(_) => self.rt.panic("the run is recorded"),
        }
    }
}

/// The number of patches of a table.
fn patches_in(table: &Arc<PatchTable, Global>) -> usize {
    table.patches.as_slice().len()
}
