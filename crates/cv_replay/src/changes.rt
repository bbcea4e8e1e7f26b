ghost use Rattle.std.specs.Prelude.{◌≡◌, ◌<◌, ℕ, Option, Some, length, map, option_map, replicate, slice_get, slice_index};
ghost use Rattle.std.specs.List.{range_with_len};
ghost use Rattle.cv_replay.specs.Changed.{cell_after, turn_in};

use cv_base::Regs;

/// Since which turn each register has its value: a cell is 0 for none, and else the turn and 1.
#[derive(Clone, Copy, Debug)]
pub(crate) struct Changes {
    pub(crate) cells: [u32; 32],
}

impl Changes {
    /// None of any register.
    pub(crate) fn none() -> Changes
        ensures { result.cells ≡ replicate 32 0 }
    {
        Changes { cells: [0; 32] }
    }

    /// The same with one more turn, by the registers before it and before the next, which is `next`.
    pub(crate) fn note(&mut self, before: &Regs, after: &Regs, next: u32)
        ensures each { (reg : ℕ) → reg < 32 → slice_get self.new.cells reg ≡ option_map (cell_after (slice_index before.now reg) (slice_index after.now reg) next) (slice_get self.old.cells reg) }
        ensures all { length self.new.cells ≡ 32 }
    {
        for number in 0..32u8 {
            let place = number as usize;
            if before.get(number) != after.get(number) {
                self.cells[place] = next;
            }
        }
    }

    /// Of a register, from 0 to 31.
    pub(crate) fn turn(&self, reg: u8) -> Option<u32>
        requires { reg < 32 }
        ensures { Some result ≡ option_map turn_in (slice_get self.now.cells reg) }
    {
        self.cells[reg as usize].checked_sub(1)
    }

    /// Of each register.
    pub(crate) fn turns(&self) -> [Option<u32>; 32]
        ensures { (since : ℕ → Option ℕ) → ((reg : ℕ) → reg < 32 → option_map turn_in (slice_get self.now.cells reg) ≡ Some (since reg)) → result ≡ map since (range_with_len 0 32) }
    {
        let mut turns = [None; 32];
        for number in 0..32u8 {
            turns[number as usize] = self.turn(number);
        }
        turns
    }
}
