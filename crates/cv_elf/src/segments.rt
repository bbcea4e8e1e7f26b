ghost use Rattle.std.specs.Prelude.{◌≡◌, ◌&&◌, find, length, option_map, OnOk, IfNone};
ghost use Rattle.std.specs.List.{filter};
ghost use Rattle.cv_elf.specs.Headers.{is_executable, is_outside, is_writable, share_a_byte};
ghost use Rattle.cv_elf.specs.Passes.{AllInside, Passes};
ghost use Rattle.cv_elf.specs.Tests.{fault_between, first_two, pairs_of, segment_tests};

use crate::header::ProgramHeader;
use cv_base::{ImageFail, ImageFault};

/// The tests of the loadable segments of a file with this many bytes: each lies inside the file and
/// its range, none is writable and executable, no two share a byte, and at most one is executable.
#[tactic(auto, unfolding(crate::specs::Tests::segment_tests))]
pub fn check_segments(headers: &[ProgramHeader], file_length: u64) -> Result<(), ImageFail>
    ensures passes { Passes (segment_tests file_length headers.now) result }
    ensures inside { OnOk result (AllInside file_length headers.now) }
{
    if let Some(place) = first_outside(headers, file_length) {
        return Err(ImageFail::Refused(ImageFault::SegmentOutside(place)));
    }
    if let Some(place) = first_writable_code(headers) {
        return Err(ImageFail::Refused(ImageFault::WritableCode(place)));
    }
    if let Some(fault) = first_overlap(headers) {
        return Err(ImageFail::Refused(fault));
    }
    if let Some(fault) = second_text(headers) {
        return Err(ImageFail::Refused(fault));
    }
    Ok(())
}

/// The place of the first segment that reaches past the file, its memory or the range for segments.
fn first_outside(headers: &[ProgramHeader], file_length: u64) -> Option<u32>
    ensures place { result ≡ option_map (λ (h : ProgramHeader). h.place) (find (is_outside file_length) headers.now) }
    ensures none { IfNone result (AllInside file_length headers.now) }
{
    let header = headers.iter().find(|h| h.is_outside(file_length))?;
    Some(header.place)
}

/// The place of the first segment that is writable and executable.
fn first_writable_code(headers: &[ProgramHeader]) -> Option<u32>
    ensures { result ≡ option_map (λ (h : ProgramHeader). h.place) (find (λ (h : ProgramHeader). is_writable h && is_executable h) headers.now) }
{
    let header = headers
        .iter()
        .find(|h| h.is_writable() && h.is_executable())?;
    Some(header.place)
}

/// The first two segments that share a byte of memory: the first in order that shares one with a
/// later segment, and the first of these.
#[tactic(auto, using(crate::proofs::Pairs::overlap_here, crate::proofs::Pairs::overlap_later))]
fn first_overlap(headers: &[ProgramHeader]) -> Option<ImageFault>
    ensures { result ≡ fault_between ImageFault.SegmentsOverlap (find (λ (p : ProgramHeader × ProgramHeader). share_a_byte p.0 p.1) (pairs_of headers.now)) }
{
    let mut left = headers;
    while let [first, later @ ..] = left {
        if let Some(place) = first_sharing(first, later) {
            return Some(ImageFault::SegmentsOverlap(first.place, place));
        }
        left = later;
    }
    None
}

/// The place of the first segment that shares a byte of memory with this one.
fn first_sharing(header: &ProgramHeader, others: &[ProgramHeader]) -> Option<u32>
    ensures { result ≡ option_map (λ (h : ProgramHeader). h.place) (find (share_a_byte header.now) others.now) }
{
    let other = others.iter().find(|h| header.overlaps(h))?;
    Some(other.place)
}

/// The first two segments that are executable.
#[tactic(auto, using(crate::proofs::Pairs::texts_here))]
fn second_text(headers: &[ProgramHeader]) -> Option<ImageFault>
    ensures { result ≡ fault_between ImageFault.TwoTexts (first_two (filter is_executable headers.now)) }
{
    let mut left = headers;
    while let [first, later @ ..] = left {
        if first.is_executable() {
            let place = first_executable(later)?;
            return Some(ImageFault::TwoTexts(first.place, place));
        }
        left = later;
    }
    None
}

/// The place of the first segment that is executable.
fn first_executable(headers: &[ProgramHeader]) -> Option<u32>
    ensures { result ≡ option_map (λ (h : ProgramHeader). h.place) (find is_executable headers.now) }
{
    let header = headers.iter().find(|h| h.is_executable())?;
    Some(header.place)
}
