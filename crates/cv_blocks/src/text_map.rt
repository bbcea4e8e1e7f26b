ghost use Rattle.std.specs.Prelude.{◌≡◌, ◌<◌, ◌+◌, ◌*◌, ℕ, length, IfOk, IsTrue};
ghost use Rattle.cv_base.specs.Picture.{is_point};
ghost use Rattle.cv_isa.specs.Uses.{has, members_of};
ghost use Rattle.cv_runs.specs.Text.{inst_at, reads, reads_at, window_registers, proc_of, proc_end};
ghost use Rattle.cv_blocks.specs.TextMap.{text_only, is_in_window, SayTheSame};

use crate::listing::{Listing, read_by};
use crate::procedures::{first_above, last_up_to, starts_of};
use crate::windows::windows_of;
use cv_base::{Image, NoMemory, TextRange};
use cv_isa::{Inst, RegSet};
use std::alloc::Global;
use std::marker::Model;

/// What the text of an image says of its points: instructions, registers read, windows and
/// procedures (docs/REPAIR.md, "Windows and procedures"). Contracts see the image without its
/// segments. It is made once, and its answers take no memory.
#[derive(Drop)]
pub struct TextMap {
    listing: Listing,
    /// The registers of each point's window.
    windows: Vec<RegSet>,
    /// Where procedures begin, in ascending order.
    starts: Vec<u32>,
}

impl Model for TextMap {
    ghost use Rattle.std.specs.Prelude.{length};
    ghost use Rattle.std.specs.List.Sorted.{IsNonDecreasing, IsPermutation};
    ghost use Rattle.cv_base.specs.Picture.{Picture};
    ghost use Rattle.cv_runs.specs.Text.{beginnings};
    ghost use Rattle.cv_blocks.specs.TextMap.{AreWindows};

    ghost Value = { Picture };

    ghost view = { λ t. t.listing };

    ghost invariant = { λ t. AreWindows t.listing (length t.listing.words) t.windows.items × IsPermutation (beginnings t.listing) t.starts.items × IsNonDecreasing t.starts.items };
}

impl TextMap {
    /// The map of an image's text.
    pub fn make(alloc: Global, image: &Image) -> Result<TextMap, NoMemory>
        ensures { IfOk result (λ map. map ≡ text_only image.now) }
    {
        let listing = Listing::make(alloc, image)?;
        let windows = windows_of(alloc, &listing)?;
        let starts = starts_of(alloc, &listing)?;
        Ok(TextMap {
            listing,
            windows,
            starts,
        })
    }

    /// An equal map.
    pub fn copied(&self, alloc: Global) -> Result<TextMap, NoMemory>
        ensures { IfOk result (λ map. map ≡ self.now) }
    {
        let listing = self.listing.copied(alloc)?;
        let windows = Vec::from_slice(alloc, self.windows.as_slice())?;
        let starts = Vec::from_slice(alloc, self.starts.as_slice())?;
        Ok(TextMap {
            listing,
            windows,
            starts,
        })
    }

    /// The addresses of the text.
    pub fn range(&self) -> TextRange
        ensures { result ≡ record { base = self.now.text_base; count = length self.now.words } }
    {
        self.listing.range()
    }

    /// Whether an address is that of a word of the text.
    pub fn is_point(&self, addr: u32) -> bool
        ensures { result ≡ is_point self.now addr }
    {
        self.range().is_point(addr)
    }

    /// The number of words.
    pub fn count(&self) -> usize
        ensures { result ≡ length self.now.words }
    {
        self.listing.count() as usize
    }

    /// The place of a point among the words.
    pub fn place(&self, point: u32) -> usize
        requires { IsTrue (is_point self.now point) }
        ensures within { result < length self.now.words }
        ensures address { self.now.text_base + 4 * result ≡ point }
    {
        self.listing.place(point)
    }

    /// The point at a place among the words.
    pub fn point(&self, place: usize) -> u32
        requires { place < length self.now.words }
        ensures address { result ≡ self.now.text_base + 4 * place }
        ensures point { IsTrue (is_point self.now result) }
    {
        self.listing.point(place)
    }

    /// The instruction at a point; `None` where its word is none.
    pub fn inst(&self, point: u32) -> Option<Inst>
        requires { IsTrue (is_point self.now point) }
        ensures { result ≡ inst_at self.now point }
    {
        self.listing.inst(point)
    }

    /// The registers that the instruction at a point reads, without x0.
    pub fn reads(&self, point: u32) -> RegSet
        requires { IsTrue (is_point self.now point) }
        ensures each { (r : ℕ) → has result r ≡ reads (inst_at self.now point) r }
        ensures members { members_of result ≡ reads_at self.now point }
    {
        read_by(&self.listing.inst(point))
    }

    /// The registers that are read in the window of a point: at the point and at up to seven points
    /// before it, stopping before a transfer and at the start of the text.
    pub fn window(&self, point: u32) -> RegSet
        requires { IsTrue (is_point self.now point) }
        ensures each { (r : ℕ) → has result r ≡ is_in_window self.now point r }
        ensures members { members_of result ≡ window_registers self.now point }
    {
        self.set_of_window(point)
    }

    /// The same set as `window`.
    fn set_of_window(&self, point: u32) -> RegSet
        requires { IsTrue (is_point self.now point) }
        ensures { (r : ℕ) → has result r ≡ is_in_window self.now point r }
    {
        self.windows[self.listing.place(point)]
    }

    /// The name of a point's procedure: where it begins.
    pub fn proc_of(&self, point: u32) -> u32
        requires { IsTrue (is_point self.now point) }
        ensures { result ≡ proc_of self.now point }
    {
        last_up_to(self.starts.as_slice(), point)
    }

    /// The address after the last point of a point's procedure.
    pub fn proc_end(&self, point: u32) -> u32
        requires { IsTrue (is_point self.now point) }
        ensures { result ≡ proc_end self.now point }
    {
        first_above(self.starts.as_slice(), point, self.listing.end())
    }
}

/// What an image's text says does not depend on the segments.
pub fn segments_are_not_asked(image: &Image)
    ensures { SayTheSame (text_only image.now) image.now }
{}
