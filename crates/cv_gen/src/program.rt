ghost use Rattle.std.specs.Prelude.{◌≡◌, IfOk};
ghost use Rattle.std.specs.List.{flat_map};
ghost use Rattle.cv_histories.specs.DrillPlan.{calling_program, flat_image};
ghost use Rattle.cv_mem.specs.Memory.{spelled};

use cv_base::{Image, Items, NoMemory, Region, Segment};
use std::alloc::Global;

/// The program that reads an address and calls it (docs/REPAIR.md, "A worked example").
const CALLING_PROGRAM: [u32; 13] = [
    0x0000_0513,
    0xff01_0593,
    0x0040_0613,
    0x03f0_0893,
    0x0000_0073,
    0xff01_2303,
    0x0003_00e7,
    0x05d0_0893,
    0x0000_0073,
    0x0070_0513,
    0x0000_8067,
    0x0090_0513,
    0x0000_8067,
];

/// The number of its bytes.
const LENGTH: u32 = 52;

/// The address of its first word, which is also its entry.
const BASE: u32 = 0x0001_0000;

/// The flat image of the calling program.
pub fn calling_image(alloc: Global) -> Result<Image, NoMemory>
    ensures { IfOk result (λ image. image ≡ flat_image calling_program) }
{
    let words = Items::from_slice(alloc, &CALLING_PROGRAM)?;
    let bytes = spelled(alloc, &CALLING_PROGRAM)?;
    let region = Region {
        start: BASE,
        end: BASE + LENGTH,
        read: true,
        write: false,
        code: true,
    };
    let segments = Items::from_vec(vec![in alloc; Segment { region, bytes }]?);
    Ok(Image {
        text_base: BASE,
        words,
        segments,
        entry: BASE,
    })
}

/// The bytes that spell words, the lowest byte of each first.
pub fn spelled(alloc: Global, words: &[u32]) -> Result<Items<u8>, NoMemory>
    ensures { IfOk result (λ bytes. bytes ≡ flat_map (spelled 4) words.now) }
{
    let mut bytes = Vec::new(alloc);
    for word in words {
        bytes.extend_from_slice(&word.to_le_bytes())?;
    }
    Ok(Items::from_vec(bytes))
}
