ghost use Rattle.cv_image.specs.ReadsAs.{ReadsAs};
ghost use Rattle.cv_elf.specs.ElfReading.{elf_reading};

use crate::file_header::check_header;
use crate::loading::load;
use crate::segments::check_segments;
use crate::table::loadable_headers;
use crate::text::{check_text, executable};
use cv_base::{Image, ImageFail, ImageFault};
use std::alloc::Global;

/// Reads an ELF image: a statically linked executable for RV32I, whose loadable segments become the
/// segments of the image. Sections and headers of other types are ignored.
///
/// It is refused by the first of these that holds (docs/FORMATS.md, "ELF image"; `i` and `j` are
/// places among the program headers, from 0):
///
/// 1. `Short`: there are fewer than 52 bytes.
/// 2. `NotElf`: the first four bytes are not 7F 45 4C 46.
/// 3. `NotRv32Exec`: it is no 32-bit little-endian RISC-V executable.
/// 4. `Compressed`: it uses compressed instructions.
/// 5. `HeadersOutside`: the program headers reach past the end of the file.
/// 6. `Dynamic`: a header is of type PT_DYNAMIC or PT_INTERP.
/// 7. `TooManySegments`: there are more than 64 loadable segments.
/// 8. `SegmentOutside(i)`: a segment reaches past the file's end, its own memory or the range from
///    00001000 to 00400000.
/// 9. `WritableCode(i)`: a segment is writable and executable.
/// 10. `SegmentsOverlap(i, j)`: two segments share a byte of memory.
/// 11. `TwoTexts(i, j)`: two segments are executable.
/// 12. `NoText`: no segment is executable, or it has no word.
/// 13. `TextLong`: it has more than 65,536 words.
/// 14. `EntryNotText`: the entry is not the address of one of these words.
#[tactic(auto, unfolding(crate::specs::ElfReading::elf_reading))]
pub fn elf(alloc: Global, bytes: &[u8]) -> Result<Image, ImageFail>
    ensures { ReadsAs (elf_reading bytes.now) result }
{
    check_header(bytes)?;
    let headers = loadable_headers(alloc, bytes)?;
    check_segments(&headers, bytes.len() as u64)?;
    let Some(text) = executable(&headers, bytes.len() as u64) else {
        return Err(ImageFail::Refused(ImageFault::NoText));
    };
    check_text(bytes, text)?;
    Ok(load(alloc, bytes, &headers, text)?)
}
