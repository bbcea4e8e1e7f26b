ghost use Rattle.std.specs.Prelude.{◌≡◌, ℕ, ◌≤◌, true, [], IfOk, length, map};
ghost use Rattle.std.specs.List.{list_all};
ghost use Rattle.cv_base.specs.declared.TheConstants.{HEAP_START};
ghost use Rattle.cv_base.specs.declared.image.Segment.{Segment};
ghost use Rattle.cv_base.specs.WellFormed.{is_placed};
ghost use Rattle.cv_mem.specs.Memory.{memory_of, start_memory};

use crate::bytes::write_at;
use cv_base::{Items, NoMemory, Region, Segment};
use std::alloc::Global;

/// The regions of segments.
pub fn regions_in(alloc: Global, segments: &[Segment]) -> Result<Items<Region>, NoMemory>
    ensures { IfOk result (λ regions. regions ≡ map (λ s. s.region) segments.now) }
{
    let mut regions = Vec::new(alloc);
    for segment in segments {
        regions.push(segment.region)?;
    }
    Ok(Items::from_vec(regions))
}

/// Writes the bytes of segments into a memory of 0: the last first, so that the first has the
/// last word.
pub fn write_segments(bytes: &mut [u8], segments: &[Segment])
    requires placed { list_all is_placed segments.now ≡ true }
    requires room { HEAP_START ≤ length bytes.old }
    requires zero { memory_of bytes.old ≡ start_memory [] }
    ensures { memory_of bytes.new ≡ start_memory segments.now }
{
    let mut left = segments.len();
    'segments: while left > 0 {
        left -= 1;
        let segment = &segments[left];
        write_at(
            bytes,
            segment.region.start as usize,
            segment.bytes.as_slice(),
        );
    }
}

/// The bytes at the start of a run up to the end of the last segment; the rest are 0.
pub fn start_bytes(alloc: Global, bytes: &[u8], segments: &[Segment]) -> Result<Vec<u8>, NoMemory>
    requires { memory_of bytes.now ≡ start_memory segments.now }
    ensures { IfOk result (λ v. memory_of v.items ≡ start_memory segments.now) }
{
    let end = end_of(segments).min(bytes.len());
    let start = Vec::from_slice(alloc, &bytes[..end])?;
    Ok(start)
}

/// The end of the last segment, and 0 without one.
fn end_of(segments: &[Segment]) -> usize
    ensures { (a : ℕ) → result ≤ a → start_memory segments.now a ≡ 0 }
{
    let mut end = 0;
    for segment in segments {
        let last = segment.region.end as usize;
        if end < last {
            end = last;
        }
    }
    end
}
