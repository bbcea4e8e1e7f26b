ghost use Rattle.cv_base.specs.Text.{address_text};

use std::fmt;

/// An address or a register's value, written as eight upper-case hexadecimal digits.
#[derive(Clone, Copy, Debug, PartialEq, Eq)]
pub struct Address(pub u32);

impl fmt::Display for Address {
    ghost use Rattle.std.specs.Prelude.{Some};
    ghost use Rattle.cv_base.specs.Text.{address_text};

    ghost output = { λ a. Some (address_text a.0) };

    fn fmt<W: fmt::Write>(&self, f: &mut fmt::Formatter<W>) -> fmt::Result {
        let value = self.0;
        write!(f, "{value:08X}")
    }
}

/// Addresses or values of registers, joined by commas; `-` where there is none.
#[derive(Clone, Copy, Debug)]
pub struct Addresses<'a>(pub &'a [u32]);

impl fmt::Display for Addresses<'_> {
    ghost use Rattle.std.specs.Prelude.{Some, map};
    ghost use Rattle.cv_base.specs.InvariantText.{list_text};
    ghost use Rattle.cv_base.specs.Text.{address_text};

    ghost output = { λ a. Some (list_text (map address_text a.0.now)) };

    fn fmt<W: fmt::Write>(&self, f: &mut fmt::Formatter<W>) -> fmt::Result {
        match self.0 {
            [] => write!(f, "-"),
            [first, rest @ ..] => {
                let first = Address(*first);
                let rest = MoreAddresses(rest);
                write!(f, "{first}{rest}")
            }
        }
    }
}

/// Addresses with a comma before each.
#[derive(Drop)]
struct MoreAddresses<'a>(&'a [u32]);

impl fmt::Display for MoreAddresses<'_> {
    ghost use Rattle.std.specs.Prelude.{Some, ◌∷◌};
    ghost use Rattle.std.specs.List.{flat_map};
    ghost use Rattle.cv_base.specs.Text.{address_text};

    ghost output = { λ a. Some (flat_map (λ n. 44 ∷ address_text n) a.0.now) };

    fn fmt<W: fmt::Write>(&self, f: &mut fmt::Formatter<W>) -> fmt::Result {
        for value in self.0 {
            let value = Address(*value);
            write!(f, ",{value}")?;
        }
        Ok(())
    }
}
