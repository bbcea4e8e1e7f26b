ghost use Rattle.std.specs.Prelude.{◌≡◌, ◌<◌, ◌≤◌, ◌+◌, ℕ, true, nat_lt, if◌then◌else◌, length, slice_index_or, IfOk};
ghost use Rattle.cv_base.specs.declared.patches.Patch.{Patch};
ghost use Rattle.cv_base.specs.Patches.{is_table};
ghost use Rattle.cv_base.specs.Points.{is_point_in};
ghost use Rattle.cv_histories.specs.Rows.{checks_in, firings_in};
ghost use Rattle.cv_patch.specs.Applied.{applied, left_at};
ghost use Rattle.cv_patch.specs.Counts.{FiredGoesOn, TallyGoesOn, fired_ready, fired_up_to, tally_ready, tally_up_to};
ghost use Rattle.cv_patch.specs.Indexing.{AllEmpty, AreFree, Finds, FindsFirst, FindsNext, slot_at, slot_of};

use crate::applying::{apply_one, point_of_patch, stands_at};
use crate::{Applied, Fired, Tally};
use cv_base::{NoMemory, Patch, PatchTable, TextRange};
use cv_shadow::Core;
use std::alloc::Global;
use std::marker::Model;
use std::sync::Arc;

/// How many slots an index has.
const SLOTS: usize = 4096;

/// A table with an index, by which the patches at a point are found without a walk through the
/// table. Contracts see the table's patches.
#[derive(Drop)]
pub struct Indexed {
    table: Arc<PatchTable, Global>,
    /// By slot, the place of its first patch; the number of patches where it has none.
    first: Vec<usize>,
    /// By patch, the place of the next one in its slot.
    next: Vec<usize>,
    /// By slot, how many slots from it on have no patch.
    free: Vec<u32>,
}

impl Model for Indexed {
    ghost use Rattle.std.specs.Prelude.{List};
    ghost use Rattle.cv_base.specs.declared.patches.Patch.{Patch};
    ghost use Rattle.cv_patch.specs.Indexing.{IsIndex};

    ghost Value = { List Patch };

    ghost view = { λ t. t.table.value };

    ghost invariant = { λ t. IsIndex t.table.value t.first.items t.next.items t.free.items };
}

impl Indexed {
    /// A table with its index.
    pub fn make(alloc: Global, table: Arc<PatchTable, Global>) -> Result<Indexed, NoMemory>
        ensures { IfOk result (λ t. t ≡ table.value) }
    {
        let patches = table.patches.as_slice();
        let count = patches.len();
        let mut first = filled(alloc, count, SLOTS)?;
        let mut next = filled(alloc, count, count)?;
        chain(patches, &mut first, &mut next);
        let mut free = zeros(alloc, SLOTS)?;
        count_free(first.as_slice(), count, &mut free);
        Ok(Indexed {
            table,
            first,
            next,
            free,
        })
    }

    /// The same table with an equal index.
    pub fn copied(&self, alloc: Global) -> Result<Indexed, NoMemory>
        ensures { IfOk result (λ t. t ≡ self.now) }
    {
        let first = Vec::from_slice(alloc, self.first.as_slice())?;
        let next = Vec::from_slice(alloc, self.next.as_slice())?;
        let free = Vec::from_slice(alloc, self.free.as_slice())?;
        let table = Arc::try_clone(&self.table)?;
        Ok(Indexed {
            table,
            first,
            next,
            free,
        })
    }

    /// The table.
    pub fn table(&self) -> &PatchTable
        ensures { result.now ≡ self.now }
    {
        &self.table
    }

    /// How many words from an address on surely have no patch.
    pub fn free_from(&self, pc: u32) -> u32
        ensures { AreFree self.now result pc }
    {
        self.free[slot_of(pc)]
    }

    /// The table's patches.
    fn patches(&self) -> &[Patch]
        ensures patches { result.now ≡ self.now }
        ensures table { is_table self.now ≡ true }
    {
        self.table.patches.as_slice()
    }

    /// The place of the first patch in the slot of an address.
    fn first_at(&self, pc: u32) -> usize
        ensures { Finds self.now (slot_of pc) 0 result }
    {
        self.first[slot_of(pc)]
    }

    /// The place of the next patch in the slot of a patch.
    fn next_after(&self, at: usize) -> usize
        requires { at < length self.now }
        ensures { (none : Patch) → Finds self.now (slot_at self.now at none) (at + 1) result }
    {
        self.next[at]
    }
}

/// The slot of an address.
fn slot_of(pc: u32) -> usize
    ensures slot { result ≡ slot_of pc }
    ensures within { result < 4096 }
{
    (pc / 4) as usize % SLOTS
}

/// So many times one value.
fn filled(alloc: Global, value: usize, count: usize) -> Result<Vec<usize>, NoMemory>
    ensures length { IfOk result (λ v. length v.items ≡ count) }
    ensures values { IfOk result (λ v. (k : ℕ) → k < count → slice_index_or v.items k 0 ≡ value) }
{
    let values = vec![in alloc; value; count]?;
    Ok(values)
}

/// So many times 0.
fn zeros(alloc: Global, count: usize) -> Result<Vec<u32>, NoMemory>
    ensures { IfOk result (λ v. length v.items ≡ count) }
{
    let values = vec![in alloc; 0u32; count]?;
    Ok(values)
}

/// Finds the first patch of each slot, and of each patch the next in its slot.
fn chain(patches: &[Patch], first: &mut Vec<usize>, next: &mut Vec<usize>)
    requires slots { length first.old.items ≡ 4096 }
    requires places { length next.old.items ≡ length patches.now }
    requires none { (slot : ℕ) → slot < 4096 → slice_index_or first.old.items slot 0 ≡ length patches.now }
    ensures slots { length first.new.items ≡ 4096 }
    ensures places { length next.new.items ≡ length patches.now }
    ensures first { FindsFirst patches.now first.new.items 0 }
    ensures next { FindsNext patches.now next.new.items 0 }
{
    let mut at = patches.len();
    while at > 0 {
        at -= 1;
        let slot = slot_of(point_of_patch(&patches[at]));
        next[at] = first[slot];
        first[slot] = at;
    }
}

/// Counts how many slots from each one on have no patch.
fn count_free(first: &[usize], count: usize, free: &mut Vec<u32>)
    requires slots { length first.now ≡ 4096 }
    requires frees { length free.old.items ≡ 4096 }
    ensures frees { length free.new.items ≡ 4096 }
    ensures free { AllEmpty count first.now free.new.items 0 }
{
    let mut slot = SLOTS;
    let mut run = 0;
    while slot > 0 {
        slot -= 1;
        run = run_with(first[slot], count, run);
        free[slot] = run;
    }
}

/// One slot more in front of `run` slots without a patch.
fn run_with(first: usize, count: usize, run: u32) -> u32
    requires { run < 4096 }
    ensures { result ≡ (if nat_lt first count then 0 else run + 1) }
{
    if first < count { 0 } else { run + 1 }
}

/// `apply` with a table's index, in the time of the patches in the slot of the pc. It takes no
/// memory.
///
/// The tally and the firings have to be prepared for the table, with no count at 2^32 - 1.
pub fn apply_indexed(
    table: &Indexed,
    text: TextRange,
    core: &mut Core,
    tally: &mut Tally,
    fired: &mut Fired,
) -> Applied
    requires point { is_point_in text.base text.count core.old.pc ≡ true }
    requires tally_ready { tally_ready table.now tally.old ≡ true }
    requires fired_ready { fired_ready table.now fired.old ≡ true }
    requires tally_room { tally_up_to 4294967294 tally.old ≡ true }
    requires fired_room { fired_up_to 4294967294 fired.old ≡ true }
    ensures core { core.new ≡ (left_at text table.now core.old).core }
    ensures applied { result ≡ applied core.old (left_at text table.now core.old) }
    ensures tally { TallyGoesOn table.now tally.old tally.new (checks_in (left_at text table.now core.old).notes) }
    ensures fired { FiredGoesOn table.now fired.old fired.new (firings_in (left_at text table.now core.old).notes) }
    ensures point { is_point_in text.base text.count core.new.pc ≡ true }
{
    let pc = core.pc;
    let patches = table.patches();
    let mut at = table.first_at(pc);
    while at < patches.len() {
        let patch = &patches[at];
        if !stands_at(patch, pc) {
            at = table.next_after(at);
            continue;
        }
        match apply_one(patch, text, core, tally, fired) {
            Applied::Go => at = table.next_after(at),
            used => return used,
        }
    }
    Applied::Go
}
