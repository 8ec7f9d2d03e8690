//! Which macroblocks were taken of the next picture and of those that may come early.
ghost use Rattle.std.specs.Prelude.{◌≡◌, ◌+◌, ◌*◌, ◌^◌, ◌≤◌, length};
ghost use Rattle.std.specs.Box.{boxed_slice_items};
ghost use Rattle.h263_types.specs.Sizes.{mbs_of};

use crate::marks::{all, none, put};
use crate::piece::{Piece, Place};
use h263_types::{Format, OutOfMemory, Params, SliceHead};
use picture_header::Header;
use std::alloc::Global;
use std::boxed::BoxedSlice;

/// Which macroblocks were taken of the pictures in a row, and the header of each: the picture that
/// is played next, and as many after it as packets may come early.
#[derive(Drop)]
pub struct Collector {
    format: Format,
    // The row's first number.
    first: u32,
    // The header of each place, where something was taken of its picture.
    headers: BoxedSlice<Option<Header>>,
    // The marks of each place's macroblocks, place after place.
    marks: BoxedSlice<bool>,
    ghost some: { 1 ≤ length (boxed_slice_items headers) },
    ghost few: { length (boxed_slice_items headers) ≤ 64 },
    ghost each: { length (boxed_slice_items marks) ≡ length (boxed_slice_items headers) * mbs_of format },
    ghost numbers: { first + length (boxed_slice_items headers) ≤ 2 ^ 32 },
}

impl Collector {
    ghost use Rattle.std.specs.Prelude.{ℕ, ◌↔◌, true, false, List, [], ◌∷◌, take, drop, slice_index_or, ◌-◌, ◌<◌, ◌%◌, IfOk};
    ghost use Rattle.h263_types.specs.Params.{IsParams};
    ghost use Rattle.h263_types.specs.Blocks.{IsHeadOf};
    ghost use Rattle.packet_collector.specs.declared.piece.Place.TheVariants.{Fresh};
    ghost use Rattle.packet_collector.specs.Taken.{Taken, is_mb_taken, is_any_taken, is_whole, IsPlace};
    ghost use Rattle.packet_collector.specs.Collected.{Collects, IsInRow, IsFreshIn, IsRowFrom, FitsKept, first_of, row_of, format_of, row_place_of, header_in};

    /// An empty row from picture 0 on, of the next picture and `lead` more.
    pub fn start(alloc: Global, params: &Params) -> Result<Collector, OutOfMemory>
        requires { IsParams params.now }
        ensures format { IfOk result (λ c. format_of c ≡ params.now.format) }
        ensures many { IfOk result (λ c. row_of c ≡ params.now.lead + 1) }
        ensures empty { IfOk result (λ c. Collects c 0 []) }
    {
        let many = params.lead as usize + 1;
        let mbs = params.format.mbs() as usize;
        Ok(Collector {
            format: params.format,
            first: 0,
            headers: vec![in alloc; None; many]?.into_boxed_slice(),
            marks: vec![in alloc; false; many * mbs]?.into_boxed_slice(),
        })
    }

    // The place of a picture.
    fn place_of(&self, number: u32) -> usize
        ensures value { result ≡ row_place_of self.now number }
        ensures below { result < row_of self.now }
    {
        number as usize % self.headers.len()
    }

    // The first mark of a place.
    fn marks_at(&self, place: usize) -> usize
        requires { place < row_of self.now }
        ensures value { result ≡ place * mbs_of (format_of self.now) }
        ensures within { result + mbs_of (format_of self.now) ≤ length (boxed_slice_items self.now.marks) }
        ensures few { length (boxed_slice_items self.now.marks) ≤ 64 * 396 }
    {
        place * self.format.mbs() as usize
    }

    // The marks of a slice of a picture.
    fn marks_of(&self, number: u32, head: &SliceHead) -> &[bool]
        requires { IsHeadOf (format_of self.now) head.now }
        ensures { result.now ≡ take head.now.count (drop (row_place_of self.now number
            * mbs_of (format_of self.now) + head.now.first) (boxed_slice_items self.now.marks)) }
    {
        let from = self.marks_at(self.place_of(number)) + head.first as usize;
        &self.marks[from..from + head.count as usize]
    }

    // Whether a header may stand beside the one that is kept of a picture.
    fn fits(&self, number: u32, header: &Header) -> bool
        ensures { (result ≡ true) ↔ FitsKept (header_in self.now number) header.now }
    {
        match &self.headers[self.place_of(number)] {
            Some(kept) => kept.is_same(header),
            None => true,
        }
    }

    /// Where a piece of a picture in the row stands to what was taken of that picture.
    pub fn place(&self, number: u32, piece: &Piece) -> Place
        requires row { IsInRow self.now number }
        requires head { IsHeadOf (format_of self.now) piece.now.head }
        ensures place { (first : ℕ) (taken : List Taken)
            → Collects self.now first taken → IsPlace taken number piece.now result }
        // A fresh one may be added.
        ensures fresh { (result ≡ Fresh) ↔ IsFreshIn self.now number piece.now }
    {
        if !self.fits(number, &piece.header) {
            return Place::HeaderDiffers;
        }
        let marks = self.marks_of(number, &piece.head);
        if all(marks) {
            return Place::Repeat;
        }
        if none(marks) {
            return Place::Fresh;
        }
        Place::Overlap
    }

    /// Takes a piece of a picture in the row.
    pub fn add(&mut self, number: u32, piece: &Piece)
        requires row { IsInRow self.old number }
        requires head { IsHeadOf (format_of self.old) piece.now.head }
        requires fresh { IsFreshIn self.old number piece.now }
        ensures taken { (first : ℕ) (taken : List Taken) → Collects self.old first taken
            → Collects self.new first (record { number = number; piece = piece.now } ∷ taken) }
        ensures same { IsRowFrom (first_of self.old) self.old self.new }
    {
        let place = self.place_of(number);
        let from = self.marks_at(place) + piece.head.first as usize;
        self.headers[place] = Some(piece.header);
        put(&mut self.marks, from, piece.head.count as usize, true);
    }

    /// Whether a macroblock of a picture in the row was taken.
    pub fn has(&self, number: u32, mb: u32) -> bool
        requires row { IsInRow self.now number }
        requires mb { mb < mbs_of (format_of self.now) }
        ensures { (first : ℕ) (taken : List Taken)
            → Collects self.now first taken → result ≡ is_mb_taken taken number mb }
    {
        self.marks[self.marks_at(self.place_of(number)) + mb as usize]
    }

    /// The header of what was taken of a picture in the row, or None where nothing was.
    pub fn header(&self, number: u32) -> Option<Header>
        requires { IsInRow self.now number }
        ensures { result ≡ header_in self.now number }
    {
        self.headers[self.place_of(number)]
    }

    /// Whether something of a picture in the row was taken.
    pub fn any(&self, number: u32) -> bool
        requires { IsInRow self.now number }
        ensures { (first : ℕ) (taken : List Taken)
            → Collects self.now first taken → result ≡ is_any_taken taken number }
    {
        self.headers[self.place_of(number)].is_some()
    }

    /// Whether all macroblocks of a picture in the row were taken.
    pub fn whole(&self, number: u32) -> bool
        requires { IsInRow self.now number }
        ensures { (first : ℕ) (taken : List Taken)
            → Collects self.now first taken → result ≡ is_whole (format_of self.now) taken number }
    {
        let mbs = SliceHead {
            first: 0,
            count: self.format.mbs(),
        };
        all(self.marks_of(number, &mbs))
    }

    /// Forgets the row's first picture and gains the next one, of which nothing was taken.
    pub fn advance(&mut self)
        requires { first_of self.old + row_of self.old < 2 ^ 32 }
        ensures taken { (first : ℕ) (taken : List Taken)
            → Collects self.old first taken → Collects self.new (first + 1) taken }
        ensures same { IsRowFrom (first_of self.old + 1) self.old self.new }
    {
        let place = self.place_of(self.first);
        let from = self.marks_at(place);
        let mbs = self.format.mbs() as usize;
        self.headers[place] = None;
        put(&mut self.marks, from, mbs, false);
        self.first += 1;
    }

    /// Forgets all that was taken: an empty row of as many pictures, from this one on, in the same
    /// memory.
    pub fn restart(&mut self, first: u32)
        requires { first + row_of self.old ≤ 2 ^ 32 }
        ensures empty { Collects self.new first [] }
        ensures same { IsRowFrom first self.old self.new }
    {
        self.first = first;
        self.headers.fill(None);
        self.marks.fill(false);
    }
}
