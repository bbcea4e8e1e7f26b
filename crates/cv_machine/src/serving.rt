ghost use Rattle.std.specs.Prelude.{◌≡◌, ◌≤◌, ◌++◌, true, length, take, drop, IsTrue};
ghost use Rattle.cv_base.specs.Picture.{is_point};
ghost use Rattle.cv_base.specs.Regions.{regions_of, is_readable, is_writable, each_address};
ghost use Rattle.cv_machine.specs.Answers.{answer_of, left_by, told};
ghost use Rattle.cv_machine.specs.Held.{state_of};
ghost use Rattle.cv_mem.specs.Memory.{memory_of, bytes_at, with_bytes};
ghost use Rattle.cv_runs.specs.Services.{served, read_turn, write_turn, alloc_turn, free_turn, answered};

use crate::Machine;
use crate::turn::Went;
use cv_base::{End, FailureKind};
use cv_runs::MOST_OUTPUT;

/// The errors that a service answers, as negative numbers modulo 2^32.
const EBADF: u32 = 0xffff_fff7;

const EFAULT: u32 = 0xffff_fff2;

const EINVAL: u32 = 0xffff_ffea;

const ENOSYS: u32 = 0xffff_ffda;

impl Machine {
    /// An ECALL: the service that x17 names.
    pub(crate) fn serve(&mut self, end: &mut End) -> Went
        requires { IsTrue (is_point self.old.image self.old.core.pc) }
        ensures answer { told result end.new ≡ answer_of (served self.old.image (state_of self.old)) }
        ensures state { state_of self.new ≡ left_by (served self.old.image (state_of self.old)) (state_of self.old) }
        ensures image { self.new.image ≡ self.old.image }
        ensures point { IsTrue (is_point self.new.image self.new.core.pc) }
    {
        match self.core.regs.get(17) {
            93 => {
                *end = End::Exit {
                    code: self.core.regs.get(10),
                };
                Went::Over
            }
            63 => self.read(end),
            64 => self.write(end),
            1000 => self.allocate(end),
            1001 => self.free(end),
            _ => self.answer(ENOSYS, end),
        }
    }

    /// Service 63: input into memory.
    fn read(&mut self, end: &mut End) -> Went
        requires { IsTrue (is_point self.old.image self.old.core.pc) }
        ensures answer { told result end.new ≡ answer_of (read_turn self.old.image (state_of self.old)) }
        ensures state { state_of self.new ≡ left_by (read_turn self.old.image (state_of self.old)) (state_of self.old) }
        ensures image { self.new.image ≡ self.old.image }
        ensures point { IsTrue (is_point self.new.image self.new.core.pc) }
    {
        if self.core.regs.get(10) != 0 {
            return self.answer(EBADF, end);
        }
        let address = self.core.regs.get(11);
        let count = self.core.regs.get(12).min(self.input_left());
        if count == 0 {
            return self.answer(0, end);
        }
        if !self.space.writable(address, count) {
            return self.answer(EFAULT, end);
        }
        if self.is_guarded(address, count) {
            return self.fail(FailureKind::HeapGuard, address, end);
        }
        let next = self.core.pc.wrapping_add(4);
        if !self.is_point(next) {
            return self.fail(FailureKind::IllegalTransfer, next, end);
        }
        self.take_input(address, count);
        self.answer(count, end)
    }

    /// Service 64: memory into output.
    fn write(&mut self, end: &mut End) -> Went
        requires { IsTrue (is_point self.old.image self.old.core.pc) }
        ensures answer { told result end.new ≡ answer_of (write_turn self.old.image (state_of self.old)) }
        ensures state { state_of self.new ≡ left_by (write_turn self.old.image (state_of self.old)) (state_of self.old) }
        ensures image { self.new.image ≡ self.old.image }
        ensures point { IsTrue (is_point self.new.image self.new.core.pc) }
    {
        let file = self.core.regs.get(10);
        if file != 1 && file != 2 {
            return self.answer(EBADF, end);
        }
        let address = self.core.regs.get(11);
        let count = self.core.regs.get(12);
        if count == 0 {
            return self.answer(0, end);
        }
        if !self.space.readable(address, count) {
            return self.answer(EFAULT, end);
        }
        let next = self.core.pc.wrapping_add(4);
        if !self.is_point(next) {
            return self.fail(FailureKind::IllegalTransfer, next, end);
        }
        self.add_output(address, count);
        self.answer(count, end)
    }

    /// Service 1000: a block of x10 bytes.
    fn allocate(&mut self, end: &mut End) -> Went
        requires { IsTrue (is_point self.old.image self.old.core.pc) }
        ensures answer { told result end.new ≡ answer_of (alloc_turn self.old.image (state_of self.old)) }
        ensures state { state_of self.new ≡ left_by (alloc_turn self.old.image (state_of self.old)) (state_of self.old) }
        ensures image { self.new.image ≡ self.old.image }
        ensures point { IsTrue (is_point self.new.image self.new.core.pc) }
    {
        let next = self.core.pc.wrapping_add(4);
        if !self.is_point(next) {
            return self.fail(FailureKind::IllegalTransfer, next, end);
        }
        let size = self.core.regs.get(10);
        match self.blocks.alloc(size) {
            Some(place) => self.answer(place, end),
            None => self.answer(0, end),
        }
    }

    /// Service 1001: the block that begins at x10 is live no more.
    fn free(&mut self, end: &mut End) -> Went
        requires { IsTrue (is_point self.old.image self.old.core.pc) }
        ensures answer { told result end.new ≡ answer_of (free_turn self.old.image (state_of self.old)) }
        ensures state { state_of self.new ≡ left_by (free_turn self.old.image (state_of self.old)) (state_of self.old) }
        ensures image { self.new.image ≡ self.old.image }
        ensures point { IsTrue (is_point self.new.image self.new.core.pc) }
    {
        let next = self.core.pc.wrapping_add(4);
        if !self.is_point(next) {
            return self.fail(FailureKind::IllegalTransfer, next, end);
        }
        let address = self.core.regs.get(10);
        if self.blocks.free(address) {
            self.answer(0, end)
        } else {
            self.answer(EINVAL, end)
        }
    }

    /// A service's answer in x10, and on to the next word.
    fn answer(&mut self, answer: u32, end: &mut End) -> Went
        requires { IsTrue (is_point self.old.image self.old.core.pc) }
        ensures answer { told result end.new ≡ answer_of (answered self.old.image (state_of self.old) answer) }
        ensures state { state_of self.new ≡ left_by (answered self.old.image (state_of self.old) answer) (state_of self.old) }
        ensures image { self.new.image ≡ self.old.image }
        ensures point { IsTrue (is_point self.new.image self.new.core.pc) }
    {
        let next = self.core.pc.wrapping_add(4);
        if self.is_point(next) {
            self.core.regs.set(10, answer);
            self.core.pc = next;
            Went::On { transfer: true }
        } else {
            self.fail(FailureKind::IllegalTransfer, next, end)
        }
    }

    /// How many bytes of the input are left.
    fn input_left(&self) -> u32
        ensures { result ≡ length self.now.input }
    {
        (self.input.len() - self.taken) as u32
    }

    /// The next `count` bytes of the input go to memory.
    fn take_input(&mut self, address: u32, count: u32)
        requires left { count ≤ length self.old.input }
        requires room { each_address (is_writable (regions_of self.old.image)) address count ≡ true }
        ensures state { state_of self.new ≡ record (state_of self.old) { memory = with_bytes (memory_of self.old.bytes) address (take count self.old.input); input = drop count self.old.input } }
        ensures core { self.new.core ≡ self.old.core }
        ensures image { self.new.image ≡ self.old.image }
    {
        let end = self.taken + count as usize;
        let bytes = &self.input.as_slice()[self.taken..end];
        self.space.fill(address, bytes);
        self.taken = end;
    }

    /// The `count` bytes at an address go to the output, as far as it has room.
    #[tactic(auto, using(crate::proofs::OutputKept::kept))]
    fn add_output(&mut self, address: u32, count: u32)
        requires { each_address (is_readable (regions_of self.old.image)) address count ≡ true }
        ensures state { state_of self.new ≡ record (state_of self.old) { output = take MOST_OUTPUT (self.old.output ++ bytes_at (memory_of self.old.bytes) address count) } }
        ensures core { self.new.core ≡ self.old.core }
        ensures image { self.new.image ≡ self.old.image }
    {
        let room = MOST_OUTPUT as usize - self.output.len();
        let bytes = self.space.slice(address, count);
        let kept = room.min(bytes.len());
        self.output.extend_from_slice(&bytes[..kept]).unwrap();
    }
}
