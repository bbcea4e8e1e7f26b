ghost use Rattle.std.specs.Prelude.{◌≡◌, ◌≤◌, ◌-◌, false, drop, find, length, IfSome};
ghost use Rattle.std.specs.Option.{option_copied};
ghost use Rattle.cv_base.specs.WellFormed.{words_of};
ghost use Rattle.cv_elf.specs.Headers.{is_executable, is_outside};
ghost use Rattle.cv_elf.specs.Loading.{file_part, text_base_of};
ghost use Rattle.cv_elf.specs.Passes.{AllInside, Passes};
ghost use Rattle.cv_elf.specs.Tests.{text_tests};

use crate::fields::{E_ENTRY, word};
use crate::header::ProgramHeader;
use cv_base::{ImageFail, ImageFault, TextRange};

/// The most words of a text.
const MOST_WORDS: usize = 65_536;

/// The executable segment, where there is one.
pub fn executable(headers: &[ProgramHeader], file_length: u64) -> Option<&ProgramHeader>
    requires { AllInside file_length headers.now }
    ensures header { option_copied result ≡ find is_executable headers.now }
    ensures inside { IfSome result (λ h. is_outside file_length h.now ≡ false) }
{
    headers.iter().find(|h| h.is_executable())
}

/// The last three tests: the text has 1 to 65,536 words, and the entry is the address of one.
#[tactic(auto, unfolding(crate::specs::Tests::text_tests))]
pub fn check_text(bytes: &[u8], text: &ProgramHeader) -> Result<(), ImageFail>
    requires header { 52 ≤ length bytes.now }
    requires inside { is_outside (length bytes.now) text.now ≡ false }
    ensures { Passes (text_tests bytes.now text.now) result }
{
    let count = word_count(text_bytes(bytes, text));
    if count == 0 {
        return Err(ImageFail::Refused(ImageFault::NoText));
    }
    if count > MOST_WORDS {
        return Err(ImageFail::Refused(ImageFault::TextLong));
    }
    let range = TextRange::make(text.text_base(), count as u32);
    if !range.is_point(word(bytes, E_ENTRY)) {
        return Err(ImageFail::Refused(ImageFault::EntryNotText));
    }
    Ok(())
}

/// The bytes of a segment that the file holds.
pub fn file_bytes<'a>(bytes: &'a [u8], header: &ProgramHeader) -> &'a [u8]
    requires { is_outside (length bytes.now) header.now ≡ false }
    ensures { result.now ≡ file_part bytes.now header.now }
{
    let start = header.offset as usize;
    &bytes[start..start + header.file_size as usize]
}

/// The bytes of a segment that the file holds, from the first multiple of 4 on.
pub fn text_bytes<'a>(bytes: &'a [u8], text: &ProgramHeader) -> &'a [u8]
    requires { is_outside (length bytes.now) text.now ≡ false }
    ensures { result.now ≡ drop (text_base_of text.now - text.now.address) (file_part bytes.now text.now) }
{
    let part = file_bytes(bytes, text);
    let skipped = (text.text_base() - text.address) as usize;
    if skipped > part.len() {
        return &[];
    }
    &part[skipped..]
}

/// How many whole words some bytes spell.
#[tactic(auto, using(crate::proofs::WordsOf::length_words))]
fn word_count(bytes: &[u8]) -> usize
    ensures { result ≡ length (words_of bytes.now) }
{
    bytes.len() / 4
}
