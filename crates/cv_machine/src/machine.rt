ghost use Rattle.std.specs.Prelude.{◌≡◌, ◌≤◌, [], length, map, IfOk, IsTrue, IsOk, OnOk, OnErr};
ghost use Rattle.std.specs.Borrow.{sem};
ghost use Rattle.cv_base.specs.Picture.{is_point, word_at};
ghost use Rattle.cv_base.specs.Registers.{with_register, zero_registers};
ghost use Rattle.cv_isa.specs.DecodeTable.{meaning_of};
ghost use Rattle.cv_mem.specs.Memory.{memory_of};
ghost use Rattle.cv_runs.specs.PlainTurn.{turn_of};
ghost use Rattle.cv_runs.specs.State.{start_core, start_state, failed};
ghost use Rattle.cv_machine.specs.Answers.{answer_of, left_by, told};
ghost use Rattle.cv_machine.specs.Held.{state_of};
ghost use Rattle.cv_machine.specs.Lending.{LendsCore};

use crate::quick::Quick;
use crate::turn::{Turn, Went};
use cv_base::{CrashCause, End, FailureId, FailureKind, Image, NoMemory, Regs, STACK_END};
use cv_heap::Blocks;
use cv_isa::{Inst, decode};
use cv_mem::Space;
use cv_runs::MOST_OUTPUT;
use cv_shadow::{Core, Frames};
use std::alloc::Global;
use std::marker::Model;

/// The most bytes of input that a run takes.
const MOST_INPUT: u32 = 65_536;

/// A hart in the middle of a run, with all that the run has changed. Contracts see the image, the
/// core, the bytes of memory, the heap, the input that is left and the output.
#[derive(Drop)]
pub struct Machine {
    pub(crate) image: Image,
    /// The instruction of each word of the text.
    pub(crate) insts: Vec<Option<Inst>>,
    pub(crate) core: Core,
    pub(crate) space: Space,
    pub(crate) blocks: Blocks,
    pub(crate) input: Vec<u8>,
    /// How many bytes of the input were read.
    pub(crate) taken: usize,
    pub(crate) output: Vec<u8>,
}

impl Model for Machine {
    ghost use Rattle.std.specs.Prelude.{◌≡◌, ◌≤◌, length, map, drop, vec_capacity};
    ghost use Rattle.cv_base.specs.Regions.{regions_of};
    ghost use Rattle.cv_isa.specs.DecodeTable.{meaning_of};
    ghost use Rattle.cv_machine.specs.Held.{Held};
    ghost use Rattle.cv_mem.specs.Memory.{memory_of, start_memory};
    ghost use Rattle.cv_runs.specs.declared.TheConstants.{MOST_OUTPUT};

    ghost Value = { Held };

    ghost view = { λ m. record { image = m.image; core = m.core; bytes = m.space.bytes; heap = m.blocks; input = drop m.taken m.input.items; output = m.output.items } };

    ghost invariant = { λ m. (m.insts.items ≡ map meaning_of m.image.words) × (m.space.regions ≡ regions_of m.image) × (memory_of m.space.start ≡ start_memory m.image.segments) × (m.taken ≤ length m.input.items) × (length m.input.items ≤ 65536) × (65536 ≤ vec_capacity m.input) × (length m.output.items ≤ MOST_OUTPUT) × (MOST_OUTPUT ≤ vec_capacity m.output) };
}

impl Machine {
    /// The machine at the start of a run of the image without input. Room is taken for the largest
    /// input and output.
    pub fn make(alloc: Global, image: &Image) -> Result<Machine, NoMemory>
        ensures image { IfOk result (λ m. m.image ≡ image.now) }
        ensures start { IfOk result (λ m. state_of m ≡ start_state image.now []) }
        ensures point { IfOk result (λ m. IsTrue (is_point m.image m.core.pc)) }
    {
        let insts = decoded(alloc, image.words.as_slice())?;
        let space = Space::make(alloc, image)?;
        let blocks = Blocks::make(alloc)?;
        let core = start_core(alloc, image)?;
        let input = Vec::with_capacity(alloc, MOST_INPUT as usize)?;
        let output = Vec::with_capacity(alloc, MOST_OUTPUT as usize)?;
        let image = image.copied(alloc)?;
        Ok(Machine {
            image,
            insts,
            core,
            space,
            blocks,
            input,
            taken: 0,
            output,
        })
    }

    /// Begins a run anew: the start state with an input of at most 65,536 bytes. It takes no memory,
    /// and the time that the pages want which the last run wrote.
    pub fn begin(&mut self, _alloc: Global, input: &[u8]) -> Result<(), NoMemory>
        requires { length input.now ≤ 65536 }
        ensures image { self.new.image ≡ self.old.image }
        ensures start { OnOk result (state_of self.new ≡ start_state self.old.image input.now) }
        ensures point { OnOk result (IsTrue (is_point self.new.image self.new.core.pc)) }
        ensures err { OnErr result (self.new ≡ self.old) }
        ensures ok { IsOk result }
    {
        self.core.pc = self.image.entry;
        self.core.regs = start_registers();
        self.core.frames.clear();
        self.space.reset();
        self.blocks.clear();
        self.input.clear();
        self.input.extend_from_slice(input).unwrap();
        self.taken = 0;
        self.output.clear();
        Ok(())
    }

    /// An equal machine.
    pub fn copied(&self, alloc: Global) -> Result<Machine, NoMemory>
        ensures { IfOk result (λ m. m ≡ self.now) }
    {
        let insts = Vec::from_slice(alloc, self.insts.as_slice())?;
        let core = self.core.copied(alloc)?;
        let space = self.space.copied(alloc)?;
        let blocks = self.blocks.copied(alloc)?;
        let mut input = Vec::with_capacity(alloc, MOST_INPUT as usize)?;
        input.extend_from_slice(self.input.as_slice())?;
        let mut output = Vec::with_capacity(alloc, MOST_OUTPUT as usize)?;
        output.extend_from_slice(self.output.as_slice())?;
        let image = self.image.copied(alloc)?;
        Ok(Machine {
            image,
            insts,
            core,
            space,
            blocks,
            input,
            taken: self.taken,
            output,
        })
    }

    /// One turn: the instruction at the pc, with the nine tests in their order (docs/MACHINE.md,
    /// "The nine tests"). It never answers an end by budget, and takes no memory.
    pub fn turn(&mut self) -> Turn
        requires { IsTrue (is_point self.old.image self.old.core.pc) }
        ensures answer { result ≡ answer_of (turn_of self.old.image (state_of self.old)) }
        ensures state { state_of self.new ≡ left_by (turn_of self.old.image (state_of self.old)) (state_of self.old) }
        ensures image { self.new.image ≡ self.old.image }
        ensures point { IsTrue (is_point self.new.image self.new.core.pc) }
    {
        let stretch = self.stretch(1);
        if stretch.turns == 0 {
            return self.other_turn();
        }
        Turn::Next {
            transfer: stretch.transfer,
        }
    }

    /// A turn that is not quick.
    fn other_turn(&mut self) -> Turn
        requires { IsTrue (is_point self.old.image self.old.core.pc) }
        ensures answer { result ≡ answer_of (turn_of self.old.image (state_of self.old)) }
        ensures state { state_of self.new ≡ left_by (turn_of self.old.image (state_of self.old)) (state_of self.old) }
        ensures image { self.new.image ≡ self.old.image }
        ensures point { IsTrue (is_point self.new.image self.new.core.pc) }
    {
        let mut end = End::Budget;
        match self.whole_turn(&mut end) {
            Went::On { transfer } => Turn::Next { transfer },
            Went::Over => Turn::Ended(end),
        }
    }

    /// One turn, which writes how it ended a run into `end`, and goes on without a word on it.
    #[tactic(auto, unfolding(cv_runs::specs::PlainTurn::turn_of))]
    #[inline(always)]
    pub(crate) fn step(&mut self, end: &mut End) -> Went
        requires { IsTrue (is_point self.old.image self.old.core.pc) }
        ensures answer { told result end.new ≡ answer_of (turn_of self.old.image (state_of self.old)) }
        ensures state { state_of self.new ≡ left_by (turn_of self.old.image (state_of self.old)) (state_of self.old) }
        ensures image { self.new.image ≡ self.old.image }
        ensures point { IsTrue (is_point self.new.image self.new.core.pc) }
    {
        match self.instruction() {
            Some(inst) => self.execute(&inst, end),
            None => {
                let word = self.word();
                let kind = FailureKind::Crash(CrashCause::IllegalInstruction);
                self.fail(kind, word, end)
            }
        }
    }

    /// The pc, the registers and the shadow stack.
    pub fn core(&self) -> &Core
        ensures { result.now ≡ self.now.core }
    {
        &self.core
    }

    /// The pc, the registers and the shadow stack, to be changed; nothing else of the machine is.
    pub fn core_mut(&mut self) -> &mut Core
        ensures* core { sem 𝓛 (LendsCore self.entry result) }
        ensures value { result.now ≡ self.old.core }
    {
        &mut self.core
    }

    /// The bytes that the run has written, its first 16,384.
    pub fn output(&self) -> &[u8]
        ensures { result.now ≡ self.now.output }
    {
        self.output.as_slice()
    }

    /// The byte of memory at an address, 0 where nothing was written.
    pub fn byte(&self, addr: u32) -> u8
        ensures { result ≡ memory_of self.now.bytes addr }
    {
        self.space.byte(addr)
    }

    /// The instruction at the pc; `None` where the word is none.
    #[inline(always)]
    fn instruction(&self) -> Option<Inst>
        requires { IsTrue (is_point self.now.image self.now.core.pc) }
        ensures { result ≡ meaning_of (word_at self.now.image self.now.core.pc) }
    {
        let place = ((self.core.pc - self.image.text_base) / 4) as usize;
        self.insts[place]
    }

    /// The word at the pc.
    #[cold]
    fn word(&self) -> u32
        requires { IsTrue (is_point self.now.image self.now.core.pc) }
        ensures { result ≡ word_at self.now.image self.now.core.pc }
    {
        let place = ((self.core.pc - self.image.text_base) / 4) as usize;
        self.image.words.as_slice()[place]
    }

    /// Whether an address is that of a word of the text.
    #[inline(always)]
    pub(crate) fn is_point(&self, addr: u32) -> bool
        ensures { result ≡ is_point self.now.image addr }
    {
        let base = self.image.text_base;
        let count = self.image.words.len();
        addr >= base && (addr - base) % 4 == 0 && (((addr - base) / 4) as usize) < count
    }

    /// The end of a run at this turn.
    #[cold]
    pub(crate) fn fail(&self, kind: FailureKind, detail: u32, end: &mut End) -> Went
        ensures { told result end.new ≡ answer_of (failed (state_of self.now) kind detail) }
    {
        let id = FailureId {
            kind,
            pc: self.core.pc,
        };
        *end = End::Failure { id, detail };
        Went::Over
    }
}

/// The instruction of each word.
fn decoded(alloc: Global, words: &[u32]) -> Result<Vec<Option<Inst>>, NoMemory>
    ensures { IfOk result (λ insts. insts.items ≡ map meaning_of words.now) }
{
    let mut insts = Vec::with_capacity(alloc, words.len())?;
    for word in words {
        insts.push(decode(*word))?;
    }
    Ok(insts)
}

/// The registers at the start of a run: x2 (sp) is the end of the stack.
fn start_registers() -> Regs
    ensures { result ≡ with_register zero_registers 2 STACK_END }
{
    let mut regs = Regs::make();
    regs.set(2, STACK_END);
    regs
}

fn start_core(alloc: Global, image: &Image) -> Result<Core, NoMemory>
    ensures { IfOk result (λ c. c ≡ start_core image.now) }
{
    Ok(Core {
        pc: image.entry,
        regs: start_registers(),
        frames: Frames::make(alloc)?,
    })
}
