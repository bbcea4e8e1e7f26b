ghost use Rattle.std.specs.Prelude.{◌≡◌, IfOk, IsSome};
ghost use Rattle.std.specs.List.{list_all};
ghost use Rattle.cv_base.specs.declared.invariants.Invariant.{Invariant};
ghost use Rattle.cv_base.specs.Picture.{is_point};
ghost use Rattle.cv_histories.specs.Seen.{live_failure};
ghost use Rattle.cv_runs.specs.Invariants.{point_of};

use crate::open_case;
use cv_base::{Case, End, Entry, FailureId, FailureKind, Invariant, Items, Mode};
use cv_blocks::TextMap;
use cv_image::flat;
use cv_inv::point_of;
use std::alloc::Global;
use std::process::Abort;
use std::test::Fail;

/// The program of docs/REPAIR.md, "A worked example", at 00010000: one procedure.
const PROGRAM: [u32; 13] = [
    0x0000_0513,
    0xff01_0593,
    0x0040_0613,
    0x03f0_0893,
    0x0000_0073,
    0xff01_2303,
    0x0003_00e7,
    0x05d0_0893,
    0x0000_0073,
    0x0070_0513,
    0x0000_8067,
    0x0090_0513,
    0x0000_8067,
];

/// The same with a call of 00010024 as its first word: a second procedure begins there.
const TWO_PROCEDURES: [u32; 13] = [
    0x0240_00ef,
    0xff01_0593,
    0x0040_0613,
    0x03f0_0893,
    0x0000_0073,
    0xff01_2303,
    0x0003_00e7,
    0x05d0_0893,
    0x0000_0073,
    0x0070_0513,
    0x0000_8067,
    0x0090_0513,
    0x0000_8067,
];

fn map_of(alloc: Global, words: &[u32]) -> Result<TextMap, Fail> {
    let mut bytes = Vec::new(alloc);
    for word in words {
        bytes.extend_from_slice(&word.to_le_bytes())?;
    }
    let image = flat(alloc, bytes.as_slice())?;
    Ok(TextMap::make(alloc, &image)?)
}

/// A live entry that failed at 00010018, with these sites.
fn failed(alloc: Global, sites: &[u32]) -> Result<Entry, Fail>
    ensures failed { IfOk result (λ e. IsSome (live_failure e)) }
{
    let sites = Items::from_slice(alloc, sites)?;
    Ok(Entry {
        run: 2,
        worker: 0,
        mode: Mode::Live,
        adopted: Items::make(alloc),
        end: End::Failure {
            id: FailureId {
                kind: FailureKind::IllegalTransfer,
                pc: 0x10018,
            },
            detail: 0,
        },
        turns: 7,
        sites,
        output: Items::make(alloc),
        tally: Items::make(alloc),
        fired: Items::make(alloc),
    })
}

fn lower(point: u32, reg: u8) -> Invariant {
    Invariant::Lower {
        point,
        reg,
        bound: 0,
    }
}

fn all_points(map: &TextMap, addresses: &[u32]) -> bool
    ensures { result ≡ list_all (is_point map.now) addresses.now }
{
    addresses.iter().all(|addr| map.is_point(*addr))
}

fn all_at_points(map: &TextMap, learned: &[Invariant]) -> bool
    ensures { result ≡ list_all (λ (k : Invariant). is_point map.now (point_of k)) learned.now }
{
    learned.iter().all(|k| map.is_point(point_of(k)))
}

fn opened(
    rt: &impl Abort,
    alloc: Global,
    words: &[u32],
    sites: &[u32],
    learned: &[Invariant],
) -> Result<Case, Fail> {
    let map = map_of(alloc, words)?;
    let entry = failed(alloc, sites)?;
    assert!(rt; all_points(&map, entry.sites.as_slice()));
    assert!(rt; all_at_points(&map, learned));
    Ok(open_case(alloc, 2, &entry, learned, &map)?)
}

fn points(alloc: Global, invariants: &[Invariant]) -> Result<Vec<u32>, Fail> {
    Ok(invariants.iter().map(|k| point_of(k)).collect(alloc)?)
}

#[test]
fn candidates_by_distance(rt: HostRuntime) -> Result<(), Fail> {
    let alloc = rt.alloc();
    let mut learned = Vec::new(alloc);
    for place in 0..13u32 {
        let point = 0x10000 + 4 * place;
        for reg in 1..6 {
            learned.push(lower(point, reg))?;
        }
    }
    let case = opened(&rt, alloc, &PROGRAM, &[0x10018], learned.as_slice())?;
    assert!(rt; case.id.kind == FailureKind::IllegalTransfer && case.id.pc == 0x10018);
    assert_eq!(rt; case.opened, 2);
    assert_eq!(rt; case.candidates.len(), 64);
    let order = [
        0x10018, 0x10014, 0x1001c, 0x10010, 0x10020, 0x1000c, 0x10024, 0x10008, 0x10028, 0x10004,
        0x1002c, 0x10000, 0x10030,
    ];
    for (at, candidate) in case.candidates.as_slice().iter().enumerate() {
        assert!(rt; at < 65);
        let wanted = lower(order[at / 5], 1 + (at % 5) as u8);
        assert!(rt; *candidate == wanted);
    }
    Ok(())
}

#[test]
fn the_first_site_with_an_invariant_decides(rt: HostRuntime) -> Result<(), Fail> {
    let alloc = rt.alloc();
    let sites = [0x10028, 0x10018, 0x1002c];
    let mut learned = Vec::new(alloc);
    learned.push(lower(0x10004, 1))?;
    learned.push(lower(0x10020, 1))?;
    let case = opened(&rt, alloc, &TWO_PROCEDURES, &sites, learned.as_slice())?;
    let candidates = points(alloc, case.candidates.as_slice())?;
    assert!(rt; candidates.as_slice() == [0x10020, 0x10004].as_slice());
    learned.push(lower(0x10024, 1))?;
    let case = opened(&rt, alloc, &TWO_PROCEDURES, &sites, learned.as_slice())?;
    let candidates = points(alloc, case.candidates.as_slice())?;
    assert!(rt; candidates.as_slice() == [0x10024].as_slice());
    let case = opened(&rt, alloc, &TWO_PROCEDURES, &sites, &[])?;
    assert!(rt; case.candidates.is_empty());
    Ok(())
}
