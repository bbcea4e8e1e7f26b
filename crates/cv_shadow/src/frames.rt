ghost use Rattle.std.specs.Prelude.{◌≡◌, ◌==◌, ◌≤◌, ◌↔◌, if◌then◌else◌, [], ◌∷◌, IsTrue, IfOk, IsErr, OnOk, OnErr, length, drop, slice_get};
ghost use Rattle.cv_shadow.specs.Frames.{frame_sp, pop_end, popped};

use crate::MOST_FRAMES;
use cv_base::{NoMemory, Regs, STACK_END};
use std::alloc::Global;
use std::marker::Model;

/// A call that has not returned: the address of the call, the address that it returns to, and
/// the value of x2 (sp) before it.
#[derive(Clone, Copy, Debug, PartialEq, Eq)]
pub struct Frame {
    pub call: u32,
    pub back: u32,
    pub sp: u32,
}

/// What a pop found.
#[derive(Clone, Copy, Debug, PartialEq, Eq)]
pub enum PopEnd {
    /// The top frame's return address is the target, and the frame is gone.
    Match,
    /// The top frame has this other return address.
    Differs(u32),
    /// There is no frame.
    Empty,
}

/// 4,096 frames stand already.
#[derive(Clone, Copy, Debug, PartialEq, Eq)]
pub struct Deep;

/// The shadow stack: a frame for each call that has not returned, at most 4,096 (docs/MACHINE.md,
/// "Link rules"). Contracts see the list of the frames, the top first.
///
/// The room for all frames is taken when it is made: only `make` and `copied` take memory.
#[derive(Debug, Drop)]
pub struct Frames {
    /// The top is the last.
    frames: Vec<Frame>,
}

impl Model for Frames {
    ghost use Rattle.std.specs.Prelude.{List, length, reverse, ◌≤◌, vec_capacity};
    ghost use Rattle.cv_shadow.specs.declared.TheConstants.{MOST_FRAMES};
    ghost use Rattle.cv_shadow.specs.declared.frames.Frame.{Frame};

    ghost Value = { List Frame };

    ghost view = { λ f. reverse f.frames.items };

    ghost invariant = { λ f. (length f.frames.items ≤ MOST_FRAMES) × (MOST_FRAMES ≤ vec_capacity f.frames) };
}

impl Frames {
    /// No frame, and room for 4,096.
    pub fn make(alloc: Global) -> Result<Frames, NoMemory>
        ensures { IfOk result (λ f. f ≡ []) }
    {
        let frames = Vec::with_capacity(alloc, MOST_FRAMES as usize)?;
        Ok(Frames { frames })
    }

    /// Adds a frame as the top. `Deep` comes exactly where 4,096 frames stand already; nothing
    /// changes then.
    pub fn push(&mut self, frame: Frame) -> Result<(), Deep>
        ensures deep { IsErr result ↔ (length self.old ≡ MOST_FRAMES) }
        ensures ok { OnOk result (self.new ≡ frame ∷ self.old) }
        ensures err { OnErr result (self.new ≡ self.old) }
    {
        if self.frames.len() >= MOST_FRAMES as usize {
            return Err(Deep);
        }
        self.frames.push(frame).unwrap();
        Ok(())
    }

    /// A return to an address: takes the top frame where its return address is the target.
    pub fn pop(&mut self, target: u32) -> PopEnd
        ensures found { result ≡ pop_end self.old target }
        ensures left { self.new ≡ popped self.old target }
    {
        match self.frames.as_slice().last() {
            None => PopEnd::Empty,
            Some(&top) => {
                if top.back == target {
                    let _top = self.frames.pop();
                    PopEnd::Match
                } else {
                    PopEnd::Differs(top.back)
                }
            }
        }
    }

    /// Takes the top frame, whatever its return address; `None` comes exactly without a frame.
    pub fn drop_top(&mut self) -> Option<Frame>
        ensures top { result ≡ slice_get self.old 0 }
        ensures left { self.new ≡ drop 1 self.old }
    {
        self.frames.pop()
    }

    /// The frame at a depth, of which 0 is the top.
    pub fn from_top(&self, depth: u32) -> Option<Frame>
        ensures { result ≡ slice_get self.now depth }
    {
        let count = self.frames.len();
        let depth = depth as usize;
        if depth < count {
            Some(self.frames[count - 1 - depth])
        } else {
            None
        }
    }

    /// The stack pointer before the newest call that has not returned, or the end of the stack.
    pub fn sp(&self) -> u32
        ensures { result ≡ frame_sp self.now }
    {
        match self.frames.as_slice().last() {
            Some(top) => top.sp,
            None => STACK_END,
        }
    }

    /// The number of frames, at most 4,096.
    pub fn len(&self) -> u32
        ensures value { result ≡ length self.now }
        ensures limit { result ≤ MOST_FRAMES }
    {
        self.frames.len() as u32
    }

    /// Whether there is no frame.
    pub fn is_empty(&self) -> bool
        ensures { IsTrue result ↔ (self.now ≡ []) }
    {
        self.frames.is_empty()
    }

    /// Whether 4,096 frames stand, so that no further one can be pushed.
    pub fn is_full(&self) -> bool
        ensures { IsTrue result ↔ (length self.now ≡ MOST_FRAMES) }
    {
        self.frames.len() >= MOST_FRAMES as usize
    }

    /// Takes all frames. The room stays.
    pub fn clear(&mut self)
        ensures { self.new ≡ [] }
    {
        self.frames.clear();
    }

    /// An equal shadow stack, with room for 4,096 frames.
    pub fn copied(&self, alloc: Global) -> Result<Frames, NoMemory>
        ensures { IfOk result (λ f. f ≡ self.now) }
    {
        let mut frames = Vec::with_capacity(alloc, MOST_FRAMES as usize)?;
        frames.extend_from_slice(self.frames.as_slice())?;
        Ok(Frames { frames })
    }
}

/// What the instructions of a hart change, but for memory: the pc, the registers and the shadow
/// stack.
#[derive(Debug, Drop)]
pub struct Core {
    pub pc: u32,
    pub regs: Regs,
    pub frames: Frames,
}

impl Core {
    /// An equal core, with room for 4,096 frames.
    pub fn copied(&self, alloc: Global) -> Result<Core, NoMemory>
        ensures { IfOk result (λ c. c ≡ self.now) }
    {
        let frames = self.frames.copied(alloc)?;
        Ok(Core {
            pc: self.pc,
            regs: self.regs,
            frames,
        })
    }
}
