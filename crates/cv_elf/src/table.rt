ghost use Rattle.std.specs.Prelude.{◌≡◌, ◌+◌, ◌*◌, ◌<◌, ◌≤◌, length, IfOk};
ghost use Rattle.std.specs.List.{list_any};
ghost use Rattle.cv_elf.specs.Fields.{e_phoff, e_phnum};
ghost use Rattle.cv_elf.specs.Headers.{headers_of, loadable_of, is_dynamic};
ghost use Rattle.cv_elf.specs.Passes.{Collects, Passes};
ghost use Rattle.cv_elf.specs.Tests.{table_tests};

use crate::fields::{E_PHNUM, half};
use crate::header::{ProgramHeader, read_header};
use cv_base::{ImageFail, ImageFault};
use std::alloc::Global;

/// The most loadable segments.
const MOST_SEGMENTS: usize = 64;

/// The loadable segments, in the order of the program headers, where there are at most 64 and no
/// header asks for dynamic linking. The program headers must lie inside the file.
#[tactic(auto, unfolding(crate::specs::Tests::table_tests))]
pub fn loadable_headers(alloc: Global, bytes: &[u8]) -> Result<Vec<ProgramHeader>, ImageFail>
    requires header { 52 ≤ length bytes.now }
    requires table { 0 < e_phnum bytes.now → e_phoff bytes.now + 32 * e_phnum bytes.now ≤ length bytes.now }
    ensures passes { Passes (table_tests bytes.now) result }
    ensures headers { IfOk result (λ headers. headers.items ≡ loadable_of bytes.now) }
{
    if has_dynamic(bytes) {
        return Err(ImageFail::Refused(ImageFault::Dynamic));
    }
    collect_loadable(alloc, bytes)
}

/// Whether some program header asks for dynamic linking.
#[tactic(auto, using(crate::proofs::TableSteps::dynamic_step))]
fn has_dynamic(bytes: &[u8]) -> bool
    requires header { 52 ≤ length bytes.now }
    requires table { 0 < e_phnum bytes.now → e_phoff bytes.now + 32 * e_phnum bytes.now ≤ length bytes.now }
    ensures { result ≡ list_any is_dynamic (headers_of bytes.now) }
{
    let count = u32::from(half(bytes, E_PHNUM));
    for place in 0..count {
        if read_header(bytes, place).is_dynamic() {
            return true;
        }
    }
    false
}

/// The loadable segments, where there are at most 64. Headers beyond these are not kept.
#[tactic(auto, using(crate::proofs::TableSteps::loadable_kept, crate::proofs::TableSteps::loadable_passed), unfolding(crate::specs::Headers::loadable_of))]
fn collect_loadable(alloc: Global, bytes: &[u8]) -> Result<Vec<ProgramHeader>, ImageFail>
    requires header { 52 ≤ length bytes.now }
    requires table { 0 < e_phnum bytes.now → e_phoff bytes.now + 32 * e_phnum bytes.now ≤ length bytes.now }
    ensures { Collects (loadable_of bytes.now) result }
{
    let mut headers = Vec::new(alloc);
    let count = u32::from(half(bytes, E_PHNUM));
    for place in 0..count {
        let header = read_header(bytes, place);
        if !header.is_loadable() {
            continue;
        }
        if headers.len() == MOST_SEGMENTS {
            return Err(ImageFail::Refused(ImageFault::TooManySegments));
        }
        if headers.push(header).is_err() {
            return Err(ImageFail::NoMemory);
        }
    }
    Ok(headers)
}
