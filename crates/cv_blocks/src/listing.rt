ghost use Rattle.std.specs.Prelude.{◌≡◌, ◌+◌, ◌*◌, ◌<◌, ℕ, length, map, IfOk, IsTrue};
ghost use Rattle.cv_base.specs.Picture.{is_point};
ghost use Rattle.cv_isa.specs.DecodeTable.{meaning_of};
ghost use Rattle.cv_isa.specs.Uses.{has};
ghost use Rattle.cv_runs.specs.Text.{inst_at, reads, transfers};
ghost use Rattle.cv_blocks.specs.TextMap.{text_only, IsListed};

use cv_base::{Image, Items, NoMemory, TextRange};
use cv_isa::{Inst, RegSet, decode};
use std::alloc::Global;
use std::marker::Model;

/// The words of a text with the instruction of each.
#[derive(Drop)]
pub(crate) struct Listing {
    text_base: u32,
    words: Items<u32>,
    entry: u32,
    insts: Vec<Option<Inst>>,
}

impl Model for Listing {
    ghost use Rattle.std.specs.Prelude.{◌≡◌, [], map};
    ghost use Rattle.cv_base.specs.Picture.{Picture};
    ghost use Rattle.cv_isa.specs.DecodeTable.{meaning_of};
    ghost use Rattle.cv_blocks.specs.TextMap.{IsListed};

    ghost Value = { Picture };

    ghost view = { λ l. record { text_base = l.text_base; words = l.words; segments = []; entry = l.entry } };

    ghost invariant = { λ l. IsListed (record { text_base = l.text_base; words = l.words; segments = []; entry = l.entry }) × (l.insts.items ≡ map meaning_of l.words) };
}

impl Listing {
    /// The listing of an image's text.
    pub(crate) fn make(alloc: Global, image: &Image) -> Result<Listing, NoMemory>
        ensures { IfOk result (λ l. l ≡ text_only image.now) }
    {
        let words = Items::from_slice(alloc, image.words.as_slice())?;
        let insts = decoded(alloc, image.words.as_slice())?;
        Ok(Listing {
            text_base: image.text_base,
            words,
            entry: image.entry,
            insts,
        })
    }

    /// An equal listing.
    pub(crate) fn copied(&self, alloc: Global) -> Result<Listing, NoMemory>
        ensures { IfOk result (λ l. l ≡ self.now) }
    {
        let words = Items::from_slice(alloc, self.words.as_slice())?;
        let insts = Vec::from_slice(alloc, self.insts.as_slice())?;
        Ok(Listing {
            text_base: self.text_base,
            words,
            entry: self.entry,
            insts,
        })
    }

    /// The address of the first word.
    pub(crate) fn base(&self) -> u32
        ensures value { result ≡ self.now.text_base }
        ensures listed { IsListed self.now }
    {
        self.text_base
    }

    /// The number of words.
    pub(crate) fn count(&self) -> u32
        ensures value { result ≡ length self.now.words }
        ensures listed { IsListed self.now }
    {
        self.words.len() as u32
    }

    /// The address after the last word.
    pub(crate) fn end(&self) -> u32
        ensures { result ≡ self.now.text_base + 4 * length self.now.words }
    {
        self.base() + 4 * self.count()
    }

    /// Where the program starts.
    pub(crate) fn entry(&self) -> u32
        ensures { result ≡ self.now.entry }
    {
        self.entry
    }

    /// The addresses of the words.
    pub(crate) fn range(&self) -> TextRange
        ensures { result ≡ record { base = self.now.text_base; count = length self.now.words } }
    {
        TextRange::make(self.base(), self.count())
    }

    /// The place of a point among the words.
    pub(crate) fn place(&self, point: u32) -> usize
        requires { IsTrue (is_point self.now point) }
        ensures within { result < length self.now.words }
        ensures address { self.now.text_base + 4 * result ≡ point }
    {
        ((point - self.text_base) / 4) as usize
    }

    /// The point at a place among the words.
    pub(crate) fn point(&self, place: usize) -> u32
        requires { place < length self.now.words }
        ensures address { result ≡ self.now.text_base + 4 * place }
        ensures point { IsTrue (is_point self.now result) }
    {
        self.base() + 4 * place as u32
    }

    /// The instruction at a point; `None` where its word is none.
    pub(crate) fn inst(&self, point: u32) -> Option<Inst>
        requires { IsTrue (is_point self.now point) }
        ensures { result ≡ inst_at self.now point }
    {
        let place = ((point - self.text_base) / 4) as usize;
        self.insts[place]
    }
}

/// The instruction of each word.
fn decoded(alloc: Global, words: &[u32]) -> Result<Vec<Option<Inst>>, NoMemory>
    ensures { IfOk result (λ insts. insts.items ≡ map meaning_of words.now) }
{
    let mut insts = Vec::with_capacity(alloc, words.len())?;
    for word in words {
        insts.push(decode(*word))?;
    }
    Ok(insts)
}

/// The registers that the instruction at a point reads; a word that is none reads nothing.
pub(crate) fn read_by(inst: &Option<Inst>) -> RegSet
    ensures { (r : ℕ) → has result r ≡ reads inst.now r }
{
    match inst {
        Some(inst) => cv_isa::reads(inst),
        None => RegSet::empty(),
    }
}

/// Whether the instruction at a point is a transfer; a word that is none is not.
pub(crate) fn is_transfer(inst: &Option<Inst>) -> bool
    ensures { result ≡ transfers inst.now }
{
    match inst {
        Some(inst) => cv_isa::is_transfer(inst),
        None => false,
    }
}
