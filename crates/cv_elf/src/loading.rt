ghost use Rattle.std.specs.Prelude.{◌≡◌, ◌≤◌, false, length, map, IfOk};
ghost use Rattle.cv_base.specs.WellFormed.{IsImage};
ghost use Rattle.cv_elf.specs.Headers.{is_outside};
ghost use Rattle.cv_elf.specs.Loading.{picture_of, segment_of};
ghost use Rattle.cv_elf.specs.Passes.{AllInside};

use crate::fields::{E_ENTRY, word};
use crate::header::ProgramHeader;
use crate::text::{file_bytes, text_bytes};
use cv_base::{Image, Items, NoMemory, Region, Segment};
use cv_image::words_in;
use std::alloc::Global;

/// The image of some loadable segments, one of which is the text. They passed all tests.
pub fn load(
    alloc: Global,
    bytes: &[u8],
    headers: &[ProgramHeader],
    text: &ProgramHeader,
) -> Result<Image, NoMemory>
    requires header { 52 ≤ length bytes.now }
    requires inside { AllInside (length bytes.now) headers.now }
    requires text_inside { is_outside (length bytes.now) text.now ≡ false }
    requires is_image { IsImage (picture_of bytes.now headers.now text.now) }
    ensures { IfOk result (λ image. image ≡ picture_of bytes.now headers.now text.now) }
{
    let words = words_in(alloc, text_bytes(bytes, text))?;
    let segments = load_segments(alloc, bytes, headers)?;
    Ok(Image {
        text_base: text.text_base(),
        words,
        segments,
        entry: word(bytes, E_ENTRY),
    })
}

fn load_segments(
    alloc: Global,
    bytes: &[u8],
    headers: &[ProgramHeader],
) -> Result<Items<Segment>, NoMemory>
    requires { AllInside (length bytes.now) headers.now }
    ensures { IfOk result (λ segments. segments ≡ map (segment_of bytes.now) headers.now) }
{
    let mut segments = Vec::with_capacity(alloc, headers.len())?;
    for header in headers {
        segments.push(load_segment(alloc, bytes, header)?)?;
    }
    Ok(Items::from_vec(segments))
}

/// A segment: the file's bytes, and zeros up to its memory size.
fn load_segment(alloc: Global, bytes: &[u8], header: &ProgramHeader) -> Result<Segment, NoMemory>
    requires { is_outside (length bytes.now) header.now ≡ false }
    ensures { IfOk result (λ segment. segment ≡ segment_of bytes.now header.now) }
{
    let mut held = Vec::with_capacity(alloc, header.memory_size as usize)?;
    held.extend_from_slice(file_bytes(bytes, header))?;
    held.resize(header.memory_size as usize, 0)?;
    Ok(Segment {
        region: Region {
            start: header.address,
            end: header.address + header.memory_size,
            read: header.is_readable(),
            write: header.is_writable(),
            code: header.is_executable(),
        },
        bytes: Items::from_vec(held),
    })
}
