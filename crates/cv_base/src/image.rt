ghost use Rattle.std.specs.Prelude.{◌≡◌, ◌==◌, ◌<◌, ◌≤◌, ◌↔◌, IsTrue, IfOk, length, slice_index};
ghost use Rattle.cv_base.specs.Points.{is_point_in, Range, IsRange};

use crate::{Items, NoMemory};
use std::alloc::Global;
use std::fmt;
use std::marker::Model;

/// A range of addresses with its permissions; `end` is not in it.
#[derive(Clone, Copy, Debug, PartialEq, Eq)]
pub struct Region {
    pub start: u32,
    pub end: u32,
    pub read: bool,
    pub write: bool,
    /// Whether this is the executable segment.
    pub code: bool,
}

/// A loaded segment: its region, and all its bytes, those that the file does not hold being 0.
#[derive(Debug, Drop)]
pub struct Segment {
    pub region: Region,
    pub bytes: Items<u8>,
}

/// A program to run: its segments, and the words of its text.
///
/// There are at most 64 segments, in 00001000 up to 00400000, without a common byte. Exactly one
/// has `code`, and it is not writable. The text is 1 to 65,536 of its words, from `text_base` on,
/// a multiple of 4, and the entry is the address of one of them.
#[derive(Debug, Drop)]
pub struct Image {
    pub text_base: u32,
    pub words: Items<u32>,
    pub segments: Items<Segment>,
    pub entry: u32,
}

impl Model for Image {
    ghost use Rattle.cv_base.specs.Picture.{Picture};

    ghost Value = { Picture };

    ghost use Rattle.cv_base.specs.WellFormed.{IsImage};

    ghost view = { λ i. record { text_base = i.text_base; words = i.words; segments = i.segments; entry = i.entry } };

    ghost invariant = { λ i. IsImage (record { text_base = i.text_base; words = i.words; segments = i.segments; entry = i.entry }) };
}

/// The addresses of a text: `count` words from `base` on. The base is a multiple of 4, and the
/// text ends at or below 2^32.
#[derive(Clone, Copy, Debug)]
pub struct TextRange {
    base: u32,
    count: u32,
}

impl Model for TextRange {
    ghost use Rattle.cv_base.specs.Points.{Range, IsRange};

    ghost Value = { Range };

    ghost view = { λ t. record { base = t.base; count = t.count } };

    ghost invariant = { λ t. IsRange (record { base = t.base; count = t.count }) };

    ghost inverse = { λ r. record { base = r.base; count = r.count } };
}

impl TextRange {
    /// The range of `count` words from `base` on.
    pub fn make(base: u32, count: u32) -> TextRange
        requires { IsRange (record { base = base; count = count }) }
        ensures { result ≡ record { base = base; count = count } }
    {
        TextRange { base, count }
    }

    /// Whether an address is that of a word of the text.
    pub fn is_point(&self, addr: u32) -> bool
        ensures { result ≡ is_point_in self.now.base self.now.count addr }
    {
        addr >= self.base && (addr - self.base) % 4 == 0 && (addr - self.base) / 4 < self.count
    }
}

/// Why a file is no image (docs/FORMATS.md, "Flat image" and "ELF image"). Numbers are places
/// among the program headers, from 0.
#[derive(Clone, Copy, Debug, PartialEq, Eq)]
pub enum ImageFault {
    /// A flat file without a byte.
    Empty,
    /// A flat file whose length is no multiple of 4.
    NotWords,
    /// More than 65,536 words of text.
    TextLong,
    /// Shorter than an ELF header.
    Short,
    /// The first four bytes are not those of ELF.
    NotElf,
    /// No RISC-V 32-bit executable.
    NotRv32Exec,
    /// The compressed instructions are used.
    Compressed,
    /// The program headers reach past the file.
    HeadersOutside,
    /// Dynamic linking is asked for.
    Dynamic,
    /// More than 64 loadable segments.
    TooManySegments,
    /// A segment reaches past the file, its memory or the range for segments.
    SegmentOutside(u32),
    /// A segment is writable and executable.
    WritableCode(u32),
    /// Two segments share a byte of memory.
    SegmentsOverlap(u32, u32),
    /// Two segments are executable.
    TwoTexts(u32, u32),
    /// No segment is executable, or it holds no word.
    NoText,
    /// The entry is not the address of a word of the text.
    EntryNotText,
}

impl fmt::Display for ImageFault {
    ghost use Rattle.std.specs.Prelude.{Some};
    ghost use Rattle.cv_base.specs.FaultText.{fault_text};

    ghost output = { λ f. Some (fault_text f) };

    fn fmt<W: fmt::Write>(&self, f: &mut fmt::Formatter<W>) -> fmt::Result {
        match self {
            ImageFault::Empty => write!(f, "empty"),
            ImageFault::NotWords => write!(f, "not-words"),
            ImageFault::TextLong => write!(f, "text-long"),
            ImageFault::Short => write!(f, "short"),
            ImageFault::NotElf => write!(f, "not-elf"),
            ImageFault::NotRv32Exec => write!(f, "not-rv32-exec"),
            ImageFault::Compressed => write!(f, "compressed"),
            ImageFault::HeadersOutside => write!(f, "headers-outside"),
            ImageFault::Dynamic => write!(f, "dynamic"),
            ImageFault::TooManySegments => write!(f, "too-many-segments"),
            ImageFault::SegmentOutside(i) => write!(f, "segment-outside {i}"),
            ImageFault::WritableCode(i) => write!(f, "writable-code {i}"),
            ImageFault::SegmentsOverlap(i, j) => write!(f, "segments-overlap {i} {j}"),
            ImageFault::TwoTexts(i, j) => write!(f, "two-texts {i} {j}"),
            ImageFault::NoText => write!(f, "no-text"),
            ImageFault::EntryNotText => write!(f, "entry-not-text"),
        }
    }
}

/// Why no image was made of a file.
#[derive(Clone, Copy, Debug, PartialEq, Eq)]
pub enum ImageFail {
    /// The file is no image: the first fault.
    Refused(ImageFault),
    /// Memory was refused.
    NoMemory,
}

impl From<NoMemory> for ImageFail {
    ghost use Rattle.std.specs.Prelude.{◌≡◌};
    ghost use Rattle.cv_base.specs.declared.image.ImageFail.TheVariants as fail;

    ghost from_gives = { λ _ r. r ≡ fail.NoMemory };

    fn from(_error: NoMemory) -> ImageFail {
        ImageFail::NoMemory
    }
}

impl Segment {
    /// An equal segment.
    pub fn copied(&self, alloc: Global) -> Result<Segment, NoMemory>
        ensures { IfOk result (λ s. s ≡ self.now) }
    {
        let bytes = Items::from_slice(alloc, self.bytes.as_slice())?;
        Ok(Segment {
            region: self.region,
            bytes,
        })
    }
}

impl Image {
    /// An equal image.
    pub fn copied(&self, alloc: Global) -> Result<Image, NoMemory>
        ensures { IfOk result (λ i. i ≡ self.now) }
    {
        let words = Items::from_slice(alloc, self.words.as_slice())?;
        let segments = copied_segments(alloc, self.segments.as_slice())?;
        Ok(Image {
            text_base: self.text_base,
            words,
            segments,
            entry: self.entry,
        })
    }
}

fn copied_segments(alloc: Global, segments: &[Segment]) -> Result<Items<Segment>, NoMemory>
    ensures { IfOk result (λ copies. copies ≡ segments.now) }
{
    let mut copies = Vec::new(alloc);
    for segment in segments {
        copies.push(segment.copied(alloc)?)?;
    }
    Ok(Items::from_vec(copies))
}
