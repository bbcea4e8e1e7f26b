ghost use Rattle.std.specs.Prelude.{◌≡◌, ◌==◌, ◌<◌, if◌then◌else◌, slice_index, slice_set};
ghost use Rattle.cv_base.specs.Registers.{with_register, zero_registers};

use std::marker::Model;

/// The registers x0 to x31, each 32 bits; x0 is 0.
///
/// Source: RISC-V Unprivileged ISA, 2.1 "Programmers' Model for Base Integer ISA".
#[derive(Clone, Copy, Debug)]
pub struct Regs {
    cells: [u32; 32],
}

impl Model for Regs {
    ghost use Rattle.std.specs.Prelude.{List, ℕ};

    ghost Value = { List ℕ };

    ghost view = { λ r. r.cells };

    ghost inverse = { λ xs. record { cells = xs } };
}

impl Regs {
    /// All registers 0.
    pub fn make() -> Regs
        ensures { result ≡ zero_registers }
    {
        Regs { cells: [0; 32] }
    }

    /// The value of a register, from 0 to 31.
    pub fn get(&self, r: u8) -> u32
        requires { r < 32 }
        ensures { result ≡ slice_index self.now r }
    {
        self.cells[r as usize]
    }

    /// Sets a register, from 0 to 31; a value for x0 is lost.
    pub fn set(&mut self, r: u8, value: u32)
        requires { r < 32 }
        ensures { self.new ≡ with_register self.old r value }
    {
        if r != 0 {
            self.cells[r as usize] = value;
        }
    }
}
