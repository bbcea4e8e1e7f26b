ghost use Rattle.std.specs.Prelude.{◌≡◌, length, IfOk};
ghost use Rattle.std.specs.List.{list_all};
ghost use Rattle.cv_base.specs.declared.invariants.Invariant.{Invariant};
ghost use Rattle.cv_base.specs.Picture.{is_point};
ghost use Rattle.cv_runs.specs.Invariants.{point_of};

use crate::repairs;
use cv_base::{Action, Case, FailureId, FailureKind, Invariant, Items, Repair};
use cv_blocks::TextMap;
use cv_image::flat;
use cv_inv::point_of;
use std::alloc::Global;
use std::test::Fail;

/// The program of docs/REPAIR.md, "A worked example", at 00010000.
const PROGRAM: [u32; 13] = [
    0x0000_0513,
    0xff01_0593,
    0x0040_0613,
    0x03f0_0893,
    0x0000_0073,
    0xff01_2303,
    0x0003_00e7,
    0x05d0_0893,
    0x0000_0073,
    0x0070_0513,
    0x0000_8067,
    0x0090_0513,
    0x0000_8067,
];

fn map_of(alloc: Global, words: &[u32]) -> Result<TextMap, Fail> {
    let mut bytes = Vec::new(alloc);
    for word in words {
        bytes.extend_from_slice(&word.to_le_bytes())?;
    }
    let image = flat(alloc, bytes.as_slice())?;
    Ok(TextMap::make(alloc, &image)?)
}

fn less_than(point: u32, low: u8, high: u8) -> Invariant {
    Invariant::LessThan { point, low, high }
}

/// A case with candidates at the call 00010018, at the load 00010014 and at the return 00010028.
fn case_of(alloc: Global) -> Result<Case, Fail>
    ensures { IfOk result (λ c. length c.candidates ≡ 7) }
{
    let mut candidates = Vec::new(alloc);
    candidates.push(Invariant::OneOf {
        point: 0x10018,
        reg: 6,
        values: Items::from_slice(alloc, &[0x10024, 0x1002c])?,
    })?;
    candidates.push(less_than(0x10018, 6, 2))?;
    candidates.push(Invariant::SpOffset {
        point: 0x10018,
        offset: 0,
    })?;
    candidates.push(less_than(0x10018, 2, 6))?;
    candidates.push(Invariant::Lower {
        point: 0x10014,
        reg: 2,
        bound: 0x0080_0000,
    })?;
    candidates.push(Invariant::Lower {
        point: 0x10028,
        reg: 1,
        bound: 0x0001_001c,
    })?;
    candidates.push(Invariant::SpOffset {
        point: 0x10028,
        offset: 0xffff_fff0,
    })?;
    Ok(Case {
        id: FailureId {
            kind: FailureKind::IllegalTransfer,
            pc: 0x10018,
        },
        opened: 2,
        candidates: Items::from_vec(candidates),
    })
}

fn all_at_points(map: &TextMap, candidates: &[Invariant]) -> bool
    ensures { result ≡ list_all (λ (k : Invariant). is_point map.now (point_of k)) candidates.now }
{
    candidates.iter().all(|k| map.is_point(point_of(k)))
}

fn repair(candidate: u32, action: Action) -> Repair {
    Repair { candidate, action }
}

#[test]
fn repairs_of_the_worked_example(rt: HostRuntime) -> Result<(), Fail> {
    let alloc = rt.alloc();
    let map = map_of(alloc, &PROGRAM)?;
    let case = case_of(alloc)?;
    assert!(rt; all_at_points(&map, case.candidates.as_slice()));
    let found = repairs(alloc, &case, &[0], &map)?;
    let first = Action::SetConst {
        reg: 6,
        value: 0x10024,
    };
    let second = Action::SetConst {
        reg: 6,
        value: 0x1002c,
    };
    let wanted = [
        repair(0, first),
        repair(0, second),
        repair(0, Action::Skip),
        repair(0, Action::Return { offset: 0 }),
    ];
    assert_eq!(rt; found.as_slice(), wanted.as_slice());
    let none = repairs(alloc, &case, &[], &map)?;
    assert!(rt; none.is_empty());
    Ok(())
}

#[test]
fn repairs_of_each_kind(rt: HostRuntime) -> Result<(), Fail> {
    let alloc = rt.alloc();
    let map = map_of(alloc, &PROGRAM)?;
    let case = case_of(alloc)?;
    assert!(rt; all_at_points(&map, case.candidates.as_slice()));
    let found = repairs(alloc, &case, &[1, 2, 3, 4, 5, 6], &map)?;
    let low = Action::SetConst {
        reg: 2,
        value: 0x0080_0000,
    };
    let address = Action::SetConst {
        reg: 1,
        value: 0x0001_001c,
    };
    let back = 0xffff_fff0;
    let wanted = [
        repair(1, Action::SetCopy { reg: 6, source: 2 }),
        repair(1, Action::Skip),
        repair(1, Action::Return { offset: 0 }),
        repair(2, Action::SetSp { offset: 0 }),
        repair(3, Action::SetCopy { reg: 6, source: 2 }),
        repair(3, Action::Skip),
        repair(3, Action::Return { offset: 0 }),
        repair(4, low),
        repair(5, address),
        repair(5, Action::Return { offset: back }),
        repair(6, Action::SetSp { offset: back }),
    ];
    assert_eq!(rt; found.as_slice(), wanted.as_slice());
    Ok(())
}
