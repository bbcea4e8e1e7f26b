ghost use Rattle.std.specs.Prelude.{◌≡◌, IfOk};
ghost use Rattle.cv_exec.specs.InFlightStands.{adopted_by};
ghost use Rattle.cv_exec.specs.Ending.{IsTold, ended_entry};

use crate::flying::{Flying, Started};
use crate::patched::Span;
use crate::sites::sites_of;
use cv_base::{Adopted, End, Entry, FiredRow, Items, Mode, NoMemory, TallyRow};
use cv_machine::Machine;
use std::alloc::Global;

/// What a run tells of itself besides what its machine shows.
#[derive(Drop)]
pub(crate) struct Account {
    pub(crate) mode: Mode,
    pub(crate) adopted: Items<Adopted>,
    pub(crate) tally: Items<TallyRow>,
    pub(crate) fired: Items<FiredRow>,
}

/// What the run that is going on tells.
pub(crate) fn told(alloc: Global, flying: &Flying) -> Result<Account, NoMemory>
    ensures { IfOk result (λ t. IsTold flying.now t) }
{
    match flying {
        Flying::Nothing | Flying::Learning(_) => Ok(Account {
            mode: Mode::Learn,
            adopted: Items::make(alloc),
            tally: Items::make(alloc),
            fired: Items::make(alloc),
        }),
        Flying::Living(_, patched) => patched.tell(alloc),
    }
}

/// The entry of a run that has ended so in this machine.
pub(crate) fn entry_of(
    alloc: Global,
    started: Started,
    end: End,
    machine: &Machine,
    told: Account,
) -> Result<Entry, NoMemory>
    ensures { IfOk result (λ e. e ≡ ended_entry started end machine.now told) }
{
    let sites = sites_of(alloc, end, machine.core())?;
    let output = Items::from_slice(alloc, machine.output())?;
    Ok(Entry {
        run: started.run,
        worker: started.worker,
        mode: told.mode,
        adopted: told.adopted,
        end,
        turns: started.turns,
        sites,
        output,
        tally: told.tally,
        fired: told.fired,
    })
}

/// What a run has adopted, with the tables.
pub(crate) fn spans_in(alloc: Global, flying: Flying) -> Vec<Span>
    ensures { result.items ≡ adopted_by flying }
{
    match flying {
        Flying::Living(_, patched) => patched.into_spans(),
        Flying::Nothing | Flying::Learning(_) => Vec::new(alloc),
    }
}
