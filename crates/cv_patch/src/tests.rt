ghost use Rattle.std.specs.Prelude.{◌≡◌, true, IfOk};
ghost use Rattle.cv_base.specs.declared.invariants.Invariant.TheVariants.{Lower};
ghost use Rattle.cv_base.specs.Patches.{is_action};

use crate::{Adopter, Applied, Fired, Listed, Tally, apply};
use cv_base::{Action, FiredRow, Invariant, Items, Patch, PatchTable, Regs, TallyRow, TextRange};
use cv_shadow::{Core, Frame, Frames};
use std::alloc::Global;
use std::sync::Arc;
use std::test::Fail;

/// A core at 00010000 with 7 in x6, 007FFFF0 in x2 and one frame, in a text of four words.
fn core_of(alloc: Global) -> Result<Core, Fail>
    ensures { IfOk result (λ c. c.pc ≡ 65536) }
{
    let mut regs = Regs::make();
    regs.set(2, 0x007f_fff0);
    regs.set(6, 7);
    let mut frames = Frames::make(alloc)?;
    let frame = Frame {
        call: 0x0001_0008,
        back: 0x0001_000c,
        sp: 0x0080_0000,
    };
    let _pushed = frames.push(frame);
    Ok(Core {
        pc: 0x0001_0000,
        regs,
        frames,
    })
}

fn text() -> TextRange
    ensures { result ≡ record { base = 65536; count = 4 } }
{
    TextRange::make(0x0001_0000, 4)
}

/// That x6 is at least 9, at 00010000.
fn nine() -> Invariant
    ensures { result ≡ Lower 65536 6 9 }
{
    Invariant::Lower {
        point: 0x0001_0000,
        reg: 6,
        bound: 9,
    }
}

/// A check that x6 is at most x2, and a check and a repair of `nine`.
fn table_of(alloc: Global, action: Action) -> Result<PatchTable, Fail>
    requires { is_action action ≡ true }
{
    let most = Patch::Check {
        case: 0,
        index: 3,
        invariant: Invariant::LessThan {
            point: 0x0001_0000,
            low: 6,
            high: 2,
        },
    };
    let least = Patch::Check {
        case: 0,
        index: 1,
        invariant: nine(),
    };
    let repair = Patch::Enforce {
        case: 2,
        index: 0,
        invariant: nine(),
        action,
    };
    let patches = vec![in alloc; most, least, repair]?;
    Ok(PatchTable {
        patches: Items::from_vec(patches),
    })
}

#[test]
fn a_set_restores_and_its_firing_is_counted(rt: HostRuntime) -> Result<(), Fail> {
    let alloc = rt.alloc();
    let action = Action::SetConst { reg: 6, value: 9 };
    let table = table_of(alloc, action)?;
    let mut core = core_of(alloc)?;
    let mut tally = Tally::make(alloc);
    let mut fired = Fired::make(alloc);
    tally.prepare(&table)?;
    fired.prepare(&table)?;
    let applied = apply(&table, text(), &mut core, &mut tally, &mut fired);
    assert_eq!(rt; applied, Applied::Go);
    assert_eq!(rt; core.regs.get(6), 9);
    let checked = tally.rows(alloc)?;
    let rows = [
        TallyRow {
            case: 0,
            index: 1,
            checks: 1,
            violations: 1,
            last_held: false,
        },
        TallyRow {
            case: 0,
            index: 3,
            checks: 1,
            violations: 0,
            last_held: true,
        },
    ];
    assert!(rt; checked.as_slice() == rows.as_slice());
    let fires = fired.rows(alloc)?;
    let rows = [FiredRow {
        case: 2,
        index: 0,
        count: 1,
    }];
    assert!(rt; fires.as_slice() == rows.as_slice());
    Ok(())
}

#[test]
fn a_return_takes_the_frame(rt: HostRuntime) -> Result<(), Fail> {
    let alloc = rt.alloc();
    let action = Action::Return { offset: 16 };
    let table = table_of(alloc, action)?;
    let mut core = core_of(alloc)?;
    let mut tally = Tally::make(alloc);
    let mut fired = Fired::make(alloc);
    tally.prepare(&table)?;
    fired.prepare(&table)?;
    let applied = apply(&table, text(), &mut core, &mut tally, &mut fired);
    assert_eq!(rt; applied, Applied::Returned);
    assert_eq!(rt; core.pc, 0x0001_000c);
    assert_eq!(rt; core.regs.get(2), 0x007f_ffe0);
    assert!(rt; core.frames.is_empty());
    Ok(())
}

/// The versions of three block entries in a row.
fn entered<A: Adopter>(adopter: &mut A) -> [u32; 3] {
    [adopter.enter(), adopter.enter(), adopter.enter()]
}

#[test]
fn a_script_stays_at_its_last_version(rt: HostRuntime) -> Result<(), Fail> {
    let alloc = rt.alloc();
    let empty = Arc::new(alloc, PatchTable::make(alloc))?;
    let full = Arc::new(alloc, table_of(alloc, Action::Skip)?)?;
    let tables = vec![in alloc; empty, full]?;
    let script = vec![in alloc; 0, 1]?;
    let mut listed = Listed::make(tables, script);
    assert_eq!(rt; entered(&mut listed), [0, 1, 1]);
    Ok(())
}
