ghost use Rattle.std.specs.Prelude.{◌≡◌, IfOk};
ghost use Rattle.cv_base.specs.InvariantText.{invariant_text};

use cv_base::{Invariant, Items, NoMemory};
use std::alloc::Global;

/// The text of an invariant, in ASCII (docs/FORMATS.md, "Text forms").
pub fn text_of(alloc: Global, invariant: &Invariant) -> Result<Items<u8>, NoMemory>
    ensures { IfOk result (λ text. text ≡ invariant_text invariant.now) }
{
    let text = format!(in alloc; "{invariant}")?;
    Ok(Items::from_vec(text.into_bytes()))
}

#[cfg(test)]
mod tests {
    use super::*;
    use std::test::Fail;

    #[test]
    fn texts_of_the_four_kinds(rt: HostRuntime) -> Result<(), Fail> {
        let alloc = rt.alloc();
        let values = Items::from_slice(alloc, &[0x0000_10a0, 0xffff_fffe])?;
        let one_of = Invariant::OneOf {
            point: 0x0000_1004,
            reg: 5,
            values,
        };
        let lower = Invariant::Lower {
            point: 0x0000_1008,
            reg: 31,
            bound: 0x8000_0000,
        };
        let less_than = Invariant::LessThan {
            point: 0x003f_fffc,
            low: 10,
            high: 2,
        };
        let offset = Invariant::SpOffset {
            point: 0x0000_abcc,
            offset: 0xffff_fff0,
        };
        let rows = [
            (&one_of, "one-of 00001004 x5 000010A0,FFFFFFFE"),
            (&lower, "lower 00001008 x31 80000000"),
            (&less_than, "less-than 003FFFFC x10 x2"),
            (&offset, "sp-offset 0000ABCC FFFFFFF0"),
        ];
        for (invariant, wanted) in rows {
            let text = text_of(alloc, invariant)?;
            assert!(rt; text.as_slice() == wanted.as_bytes());
        }
        Ok(())
    }
}
