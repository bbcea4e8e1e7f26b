ghost use Rattle.std.specs.Prelude.{◌≡◌, ◌≤◌, ◌∷◌, [], length, IfOk};
ghost use Rattle.cv_image.specs.ReadsAs.{ReadsAs};
ghost use Rattle.cv_image.specs.FlatReading.{code_segment, flat_reading};

use crate::words_in;
use cv_base::{Image, ImageFail, ImageFault, Items, NoMemory, Region, Segment};
use std::alloc::Global;

/// The address of the first byte of a flat image, which is also its entry.
pub const FLAT_BASE: u32 = 0x0001_0000;

/// The most bytes that a flat image may have: 65,536 words.
const LONGEST: usize = 262_144;

/// Reads a flat image: the file's bytes become one executable segment at 00010000, which is also
/// the text base and the entry (docs/FORMATS.md, "Flat image").
///
/// It is refused, by the first of these that holds, as `Empty` where there is no byte, as
/// `NotWords` where the length is no multiple of 4, and as `TextLong` where there are more than
/// 262,144 bytes.
#[tactic(auto, unfolding(crate::specs::FlatReading::flat_reading))]
pub fn flat(alloc: Global, bytes: &[u8]) -> Result<Image, ImageFail>
    ensures { ReadsAs (flat_reading bytes.now) result }
{
    if bytes.is_empty() {
        return Err(ImageFail::Refused(ImageFault::Empty));
    }
    if bytes.len() % 4 != 0 {
        return Err(ImageFail::Refused(ImageFault::NotWords));
    }
    if bytes.len() > LONGEST {
        return Err(ImageFail::Refused(ImageFault::TextLong));
    }
    let words = words_in(alloc, bytes)?;
    let segments = code_segments(alloc, bytes)?;
    Ok(Image {
        text_base: FLAT_BASE,
        words,
        segments,
        entry: FLAT_BASE,
    })
}

/// The one segment of a flat image.
fn code_segments(alloc: Global, bytes: &[u8]) -> Result<Items<Segment>, NoMemory>
    requires { length bytes.now ≤ 262144 }
    ensures { IfOk result (λ segments. segments ≡ code_segment FLAT_BASE bytes.now ∷ []) }
{
    let mut segments = Vec::with_capacity(alloc, 1)?;
    segments.push(Segment {
        region: Region {
            start: FLAT_BASE,
            end: FLAT_BASE + bytes.len() as u32,
            read: true,
            write: false,
            code: true,
        },
        bytes: Items::from_slice(alloc, bytes)?,
    })?;
    Ok(Items::from_vec(segments))
}
