//! Sums of samples over areas of 8 x 8 of the reference, kept from one macroblock to the next. All
//! macroblocks of a row need the same rows of areas, and the next row needs some of these again.
ghost use Rattle.std.specs.Prelude.{◌≡◌, ℕ, ◌+◌, ◌*◌, ◌<◌, ◌≤◌, ◌⊎◌, ◌↔◌, IsTrue, length, slice_index};
ghost use Rattle.h263_types.specs.Sizes.{height_of, width_of};
ghost use Rattle.h263_planes.specs.Lent.{picture};
ghost use Rattle.h263_planes.specs.Samples.{Inside, IsPicture};
ghost use Rattle.h263_planes.specs.declared.Plane.TheVariants.{Y};
ghost use Rattle.motion_search.specs.Areas.{area_sum, AreAdded, AreSamplesAt, AreColumns, AreSomeBeside, AreSomeColumns, AreSumsOf, FitIn, IsBeside, LeavesRest};

use crate::areas::{Columns, areas, no_rows, with_row, without_row};
use crate::lent::{known, row_from};
use h263_planes::{PictureRef, Plane};
use h263_types::Format;
use half_sample::Around;
use std::simd::prelude::*;

// From the sum of an area to that of the area one row below.
pub(crate) const STRIDE: usize = 384;

// The rows of areas that are kept at most: those of the vectors that lead up to 15 samples up and
// down, and eight more for the lower quarters.
const ROWS: usize = 39;

/// Sums of areas of a reference picture, which the search keeps for the next macroblock: of 8 x 8
/// luma samples each, at all columns of up to 39 rows.
#[derive(Drop)]
pub struct KeptSums {
    // from its left edge to its right edge those of each row, which begin 384 places apart
    pub(crate) sums: [u16; 14976],
    // the first row of areas, and the one after the last
    pub(crate) first: u32,
    pub(crate) end: u32,
    // a place for what the neighbours half a sample away predict, which isn't cleared for each
    // macroblock
    pub(crate) around: Around,
}

// Rows of areas that are added to those that are kept: from row `begin` to before row `end` of
// these, which is row `first + begin` of the picture and so on.
#[derive(Clone, Copy)]
struct AreaRows {
    first: u32,
    begin: u32,
    end: u32,
}

impl KeptSums {
    ghost use Rattle.h263_planes.specs.Picture.{Picture};

    /// No sums yet, so they are those of any picture.
    pub fn none() -> KeptSums
        ensures { (p : Picture) → AreSumsOf p result }
    {
        KeptSums {
            sums: [0; STRIDE * ROWS],
            first: 0,
            end: 0,
            around: no_samples(),
        }
    }

    // Sees that the rows of areas from row `from` to before row `end` are among those that are kept.
    #[inline(always)]
    pub(crate) fn hold(&mut self, reference: PictureRef<'_>, from: u32, end: u32)
        requires sums { AreSumsOf (picture reference) self.old }
        requires order { from ≤ end }
        requires room { end ≤ from + 39 }
        requires inside { end + 7 ≤ height_of (picture reference).format }
        ensures sums { AreSumsOf (picture reference.entry) self.new }
        ensures first { self.new.first ≤ from }
        ensures end { end ≤ self.new.end }
    {
        if self.first > from {
            self.make(reference, from, end);
        } else if self.end < end {
            self.make(reference, from, end);
        }
    }

    // Keeps the rows of areas from row `from` to before row `end`, some of which it may have kept.
    #[inline(never)]
    fn make(&mut self, reference: PictureRef<'_>, from: u32, end: u32)
        requires sums { AreSumsOf (picture reference) self.old }
        requires order { from ≤ end }
        requires room { end ≤ from + 39 }
        requires inside { end + 7 ≤ height_of (picture reference).format }
        requires more { (from < self.old.first) ⊎ (self.old.end < end) }
        ensures sums { AreSumsOf (picture reference.entry) self.new }
        ensures first { self.new.first ≡ from }
        ensures end { self.new.end ≡ end }
    {
        self.drop_before(from);
        let rows = AreaRows {
            first: from,
            begin: self.end - self.first,
            end: end - from,
        };
        add_rows(&mut self.sums, reference, rows);
        self.end = end;
    }

    // Drops the rows before row `from`; all, where this isn't kept.
    fn drop_before(&mut self, from: u32)
        requires whole { length self.old.sums ≡ 14976 }
        requires room { self.old.end ≤ self.old.first + 39 }
        ensures sums { (p : Picture) → AreSumsOf p self.old → AreSumsOf p self.new }
        ensures first { self.new.first ≡ from }
        ensures end { (self.new.end ≡ from)
            ⊎ ((self.old.first ≤ from) × (from < self.old.end) × (self.new.end ≡ self.old.end)) }
        ensures order { from ≤ self.new.end }
        ensures whole { length self.new.sums ≡ 14976 }
    {
        if self.has(from) {
            self.move_up(from);
        } else {
            self.clear(from);
        }
    }

    // Drops all rows, before the next one is row `from`.
    fn clear(&mut self, from: u32)
        ensures sums { (p : Picture) → AreSumsOf p self.old → AreSumsOf p self.new }
        ensures first { self.new.first ≡ from }
        ensures end { self.new.end ≡ from }
        ensures whole { length self.new.sums ≡ length self.old.sums }
    {
        self.first = from;
        self.end = from;
    }

    // Whether a row of areas is kept.
    fn has(&self, row: u32) -> bool
        ensures { IsTrue result ↔ ((self.now.first ≤ row) × (row < self.now.end)) }
    {
        self.first <= row && row < self.end
    }

    // Drops the rows before row `from`, which is kept.
    fn move_up(&mut self, from: u32)
        requires whole { length self.old.sums ≡ 14976 }
        requires room { self.old.end ≤ self.old.first + 39 }
        requires has { (self.old.first ≤ from) × (from < self.old.end) }
        ensures sums { (p : Picture) → AreSumsOf p self.old → AreSumsOf p self.new }
        ensures first { self.new.first ≡ from }
        ensures end { self.new.end ≡ self.old.end }
        ensures whole { length self.new.sums ≡ 14976 }
    {
        let dropped = (from - self.first) as usize;
        let kept = (self.end - self.first) as usize;
        self.sums.copy_within(STRIDE * dropped..STRIDE * kept, 0);
        self.first = from;
    }
}

// A place for what eight neighbours predict.
#[inline(always)]
fn no_samples() -> Around {
    Around {
        left: [0; 272],
        right: [0; 272],
        up: [0; 272],
        up_left: [0; 272],
        up_right: [0; 272],
    }
}

// The sums with row `y` of the sixteen samples of Y from column `x` on, and of those from `z` on.
#[inline(always)]
fn with_samples(columns: Columns, reference: PictureRef<'_>, x: u32, z: u32, y: u32) -> Columns
    requires left { Inside (picture reference).format Y x y 16 }
    requires right { Inside (picture reference).format Y z y 16 }
    ensures { (f : ℕ → ℕ → ℕ) (top n : ℕ)
        → AreSamplesAt f → IsBeside (picture reference.entry) x z f → n < 8 → y ≡ top + n
        → AreColumns f top n columns → AreColumns f top (n + 1) result }
{
    let left = reference.row(Plane::Y, x, y, 16);
    let right = reference.row(Plane::Y, z, y, 16);
    with_row(columns, left, right)
}

// The sums of seven rows from row `y` on.
#[inline(always)]
fn seven_rows(reference: PictureRef<'_>, x: u32, z: u32, y: u32) -> Columns
    requires left { Inside (picture reference).format Y x (y + 6) 16 }
    requires right { Inside (picture reference).format Y z (y + 6) 16 }
    requires y { y < 65536 }
    ensures { (f : ℕ → ℕ → ℕ) → AreSamplesAt f
        → IsBeside (picture reference.entry) x z f → AreColumns f y 7 result }
{
    let mut columns = no_rows();
    for j in 0..7u32 {
        columns = with_samples(columns, reference, x, z, y + j);
    }
    columns
}

// Writes sixteen sums down from place `at` on.
#[inline(always)]
fn put(sums: u16x16, out: &mut [u16], at: usize)
    requires sums { length sums ≡ 16 }
    requires room { at + 16 ≤ length out.old }
    ensures length { length out.new ≡ length out.old }
    ensures others { (k : ℕ) → (k < at) ⊎ (at + 16 ≤ k)
        → slice_index out.new k ≡ slice_index out.old k }
    ensures stored { (i : ℕ) → i < 16 → slice_index out.new (at + i) ≡ slice_index sums i }
{
    sums.copy_to_slice(&mut out[at..]);
}

// Writes the sums of 24 areas beside each other down from place `at` on.
#[inline(always)]
fn put_areas(columns: Columns, out: &mut [u16], at: usize)
    requires room { at + 24 ≤ length out.old }
    requires columns { AreSomeColumns columns }
    ensures length { length out.new ≡ length out.old }
    ensures others { (k : ℕ) → (k < at) ⊎ (at + 24 ≤ k)
        → slice_index out.new k ≡ slice_index out.old k }
    ensures stored { (f : ℕ → ℕ → ℕ) (y i : ℕ) → AreSamplesAt f → AreColumns f y 8 columns
        → i < 24 → slice_index out.new (at + i) ≡ area_sum f i y }
{
    let (left, right) = areas(columns);
    put(left, out, at);
    put(right, out, at + 8);
}

// Writes the sums of 24 areas in some rows of areas down. They are those of the sixteen columns from
// `x` on with the sixteen from `z` on to their right: the next ones, or at the right edge the same
// again. The place in the lent rows runs on, which spares a product a row.
#[inline(always)]
fn add_strip(out: &mut [u16], reference: PictureRef<'_>, x: u32, z: u32, rows: AreaRows)
    requires beside { AreSomeBeside (picture reference) x z }
    requires rows { FitIn (picture reference) rows }
    requires across { (x + 24 ≤ 384) × (x + 16 ≤ width_of (picture reference).format)
        × (z + 16 ≤ width_of (picture reference).format) }
    requires whole { length out.old ≡ 14976 }
    ensures rest { LeavesRest rows out.old out.new }
    ensures stored { (f : ℕ → ℕ → ℕ) → AreSamplesAt f → IsBeside (picture reference.entry) x z f
        → (k i : ℕ) → rows.begin ≤ k → k < rows.end → i < 24
        → slice_index out.new (384 * k + (x + i)) ≡ area_sum f i (rows.first + k) }
    ensures before { (k c : ℕ)
        → c < x → slice_index out.new (384 * k + c) ≡ slice_index out.old (384 * k + c) }
{
    let first = rows.first + rows.begin;
    let count = rows.end - rows.begin + 7;
    let left = reference.rows(Plane::Y, x, first, 16, count);
    let right = reference.rows(Plane::Y, z, first, 16, count);
    let width = reference.width(Plane::Y);
    let mut columns = seven_rows(reference, x, z, first);
    let mut at = 0;
    for k in rows.begin..rows.end {
        let below = at + 7 * width;
        let full = with_row(columns, row_from(left, below), row_from(right, below));
        put_areas(full, out, STRIDE * k as usize + x as usize);
        columns = without_row(full, row_from(left, at), row_from(right, at));
        at += width;
    }
}

// Writes the sums of all areas in some rows down.
#[inline(always)]
fn add_strips<const WIDTH: u32>(out: &mut [u16], reference: PictureRef<'_>, rows: AreaRows)
    requires width { width_of (picture reference).format ≡ WIDTH }
    requires narrow { (16 ≤ WIDTH) × (WIDTH ≤ 352) }
    requires picture { IsPicture (picture reference) }
    requires rows { FitIn (picture reference) rows }
    requires whole { length out.old ≡ 14976 }
    ensures { AreAdded (picture reference.entry) rows out.old out.new }
{
    for s in 0..WIDTH / 24 {
        let x = 24 * s;
        add_strip(out, reference, x, x + 16, rows);
    }
    let x = WIDTH - 16;
    add_strip(out, reference, x, x, rows);
}

// The same. Called for each format by itself, it has code for each width, whose rows stand at
// distances that are known.
fn add_rows(out: &mut [u16], reference: PictureRef<'_>, rows: AreaRows)
    requires rows { FitIn (picture reference) rows }
    requires whole { length out.old ≡ 14976 }
    ensures { AreAdded (picture reference.entry) rows out.old out.new }
{
    match reference.format() {
        Format::SubQcif => add_strips::<128>(out, known(reference, Format::SubQcif), rows),
        Format::Qcif => add_strips::<176>(out, known(reference, Format::Qcif), rows),
        Format::Cif => add_strips::<352>(out, known(reference, Format::Cif), rows),
    }
}
