ghost use Rattle.std.specs.Prelude.{◌≡◌, ◌≤◌, ◌<◌, ◌*◌, ◌^◌, None, IsTrue, IfOk};
ghost use Rattle.std.specs.Result.{result_err};
ghost use Rattle.cv_base.specs.Picture.{is_point};
ghost use Rattle.cv_base.specs.Regions.{regions_of, is_heap, some_address};
ghost use Rattle.cv_machine.specs.Answers.{answer_of, left_by, told};
ghost use Rattle.cv_machine.specs.Held.{state_of};
ghost use Rattle.cv_mem.specs.Memory.{memory_of, load_fault, store_fault, loaded, stored};
ghost use Rattle.cv_mem.specs.SpaceOf.{IsSize};
ghost use Rattle.cv_runs.specs.Effects.{loaded_turn, stored_turn, address_of, size_of, extended, crash_of, is_guarded};

use crate::Machine;
use crate::turn::Went;
use cv_base::{CrashCause, End, FailureKind, HEAP_START, STACK_START};
use cv_isa::{Inst, Op};
use cv_mem::MemFault;

impl Machine {
    /// A load: 1, 2 or 4 bytes at rs1 plus the immediate.
    #[inline]
    pub(crate) fn load(&mut self, inst: &Inst, end: &mut End) -> Went
        requires { IsTrue (is_point self.old.image self.old.core.pc) }
        ensures answer { told result end.new ≡ answer_of (loaded_turn self.old.image (state_of self.old) inst.now) }
        ensures state { state_of self.new ≡ left_by (loaded_turn self.old.image (state_of self.old) inst.now) (state_of self.old) }
        ensures image { self.new.image ≡ self.old.image }
        ensures point { IsTrue (is_point self.new.image self.new.core.pc) }
    {
        let address = self.address(inst);
        match self.loaded(address, size_of(inst.op)) {
            Ok(value) => self.advance(inst.rd, extended(inst.op, value), end),
            Err(fault) => self.fail(crash_of(fault), address, end),
        }
    }

    /// What a load finds in memory.
    #[inline]
    pub(crate) fn loaded(&self, address: u32, size: u32) -> Result<u32, MemFault>
        requires { IsSize size }
        ensures fault { result_err result ≡ load_fault (regions_of self.now.image) address size }
        ensures value { IfOk result (λ v. v ≡ loaded (memory_of self.now.bytes) address size) }
        ensures fits { IfOk result (λ v. v < 2 ^ (8 * size)) }
    {
        self.space.load(address, size)
    }

    /// A store of the low 1, 2 or 4 bytes of rs2 at rs1 plus the immediate.
    #[inline]
    pub(crate) fn store(&mut self, inst: &Inst, end: &mut End) -> Went
        requires { IsTrue (is_point self.old.image self.old.core.pc) }
        ensures answer { told result end.new ≡ answer_of (stored_turn self.old.image (state_of self.old) inst.now) }
        ensures state { state_of self.new ≡ left_by (stored_turn self.old.image (state_of self.old) inst.now) (state_of self.old) }
        ensures image { self.new.image ≡ self.old.image }
        ensures point { IsTrue (is_point self.new.image self.new.core.pc) }
    {
        let address = self.address(inst);
        let size = size_of(inst.op);
        if let Some(fault) = self.store_fault(address, size) {
            return self.fail(crash_of(fault), address, end);
        }
        if self.is_guarded(address, size) {
            return self.fail(FailureKind::HeapGuard, address, end);
        }
        let next = self.core.pc.wrapping_add(4);
        if !self.is_point(next) {
            return self.fail(FailureKind::IllegalTransfer, next, end);
        }
        let value = self.core.regs.get(inst.rs2);
        self.put(address, size, value);
        self.core.pc = next;
        Went::On { transfer: false }
    }

    /// Why a store is refused, if it is.
    #[inline]
    pub(crate) fn store_fault(&self, address: u32, size: u32) -> Option<MemFault>
        requires { IsSize size }
        ensures { result ≡ store_fault (regions_of self.now.image) address size }
    {
        self.space.store_fault(address, size)
    }

    /// The low bytes of a value go to memory.
    #[inline]
    pub(crate) fn put(&mut self, address: u32, size: u32, value: u32)
        requires sized { IsSize size }
        requires allowed { store_fault (regions_of self.old.image) address size ≡ None }
        ensures state { state_of self.new ≡ record (state_of self.old) { memory = stored (memory_of self.old.bytes) address size value } }
        ensures core { self.new.core ≡ self.old.core }
        ensures image { self.new.image ≡ self.old.image }
    {
        self.space.put(address, size, value);
    }

    /// The address of a load or a store.
    #[inline]
    fn address(&self, inst: &Inst) -> u32
        ensures { result ≡ address_of (state_of self.now) inst.now }
    {
        self.core.regs.get(inst.rs1).wrapping_add(inst.imm)
    }

    /// Whether an access of `count` bytes touches the heap, and not inside one live block alone.
    #[inline]
    pub(crate) fn is_guarded(&self, address: u32, count: u32) -> bool
        requires { 1 ≤ count }
        ensures { result ≡ is_guarded self.now.heap address count }
    {
        touches_heap(address, count) && !self.blocks.covers(address, count)
    }
}

/// Whether one of the `count` addresses from `address` on lies in the heap.
#[tactic(auto, using(crate::proofs::HeapTouched::heap_touched))]
#[inline]
fn touches_heap(address: u32, count: u32) -> bool
    requires { 1 ≤ count }
    ensures { result ≡ some_address is_heap address count }
{
    address < STACK_START && u64::from(address) + u64::from(count) > u64::from(HEAP_START)
}

/// The bytes that a load or a store moves.
#[inline]
pub(crate) fn size_of(op: Op) -> u32
    ensures value { result ≡ size_of op }
    ensures size { IsSize result }
    ensures some { 1 ≤ result }
{
    match op {
        Op::Lb | Op::Lbu | Op::Sb => 1,
        Op::Lh | Op::Lhu | Op::Sh => 2,
        _ => 4,
    }
}

/// LB and LH extend the sign.
#[inline]
pub(crate) fn extended(op: Op, value: u32) -> u32
    requires { value < 2 ^ (8 * size_of op) }
    ensures { result ≡ extended op value }
{
    match op {
        Op::Lb if value >= 0x80 => value.wrapping_add(0xffff_ff00),
        Op::Lh if value >= 0x8000 => value.wrapping_add(0xffff_0000),
        _ => value,
    }
}

/// The crash of a refused access.
fn crash_of(fault: MemFault) -> FailureKind
    ensures { result ≡ crash_of fault }
{
    FailureKind::Crash(match fault {
        MemFault::Misaligned => CrashCause::Misaligned,
        MemFault::Unreadable => CrashCause::Unreadable,
        MemFault::Code => CrashCause::Code,
        MemFault::Unwritable => CrashCause::Unwritable,
    })
}
