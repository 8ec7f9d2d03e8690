//! A picture that is lent for writing.
ghost use Rattle.std.specs.Prelude.{◌≡◌, ◌+◌, ◌*◌, ◌-◌, ◌<◌, ◌≤◌, length, slice_set};
ghost use lib.Seq.{sets};
ghost use Rattle.h263_types.specs.Sizes.{size_of_picture};
ghost use Rattle.h263_planes.specs.Rows.{sets_rows};
ghost use Rattle.h263_planes.specs.Samples.{AreSamples};

use crate::layout::Layout;
use crate::lent::PictureRef;
use crate::{Plane, laws};
use h263_types::Format;
use std::simd::prelude::*;

/// A picture over bytes that may be written: its planes Y, Cb and Cr, each by rows from the top.
#[derive(Drop)]
pub struct PictureMut<'a> {
    layout: Layout,
    bytes: &'a mut [u8],
    ghost whole: { length bytes.now ≡ size_of_picture layout.format },
}

impl<'a> PictureMut<'a> {
    ghost use Rattle.std.specs.Prelude.{◌≡◌, ℕ, ◌+◌, ◌*◌, ◌-◌, ◌≤◌, length, slice_index, if◌then◌else◌};
    ghost use Rattle.h263_planes.specs.declared.Plane.{Plane};
    ghost use Rattle.h263_types.specs.Sizes.{size_of_picture};
    ghost use Rattle.h263_planes.specs.Layout.{picture_of};
    ghost use Rattle.h263_planes.specs.Samples.{Inside, IsPicture, sample_at, with_sample, with_samples, in_block, in_run};
    ghost use Rattle.h263_planes.specs.Lent.{picture};
    ghost use Rattle.h263_planes.specs.Work.{work, loan_of};

    /// The picture that `bytes` hold, `format.size()` of them, for writing.
    pub fn new(format: Format, bytes: &'a mut [u8]) -> PictureMut<'a>
        requires { length bytes.old ≡ size_of_picture format }
        ensures same_loan { loan_of result ≡ bytes.entry.ghost_name }
        ensures picture { work result ≡ picture_of format bytes.old }
        ensures whole { IsPicture (work result) }
    {
        laws::are_samples(bytes);
        PictureMut {
            layout: Layout::new(format),
            bytes,
        }
    }

    /// The format of the picture.
    pub fn format(&self) -> Format
        ensures format { result ≡ (work self.now).format }
        ensures whole { IsPicture (work self.now) }
    {
        laws::are_samples(self.bytes);
        self.layout.format
    }

    /// That it is a picture, as many samples as its format has. Does nothing.
    pub fn is_picture(&self)
        ensures { IsPicture (work self.now) }
    {
        laws::are_samples(self.bytes);
    }

    /// Writes the sample in column `x` of row `y`.
    pub fn set(&mut self, plane: Plane, x: u32, y: u32, value: u8)
        requires { Inside (work self.old).format plane x y 1 }
        ensures same_loan { loan_of self.new ≡ loan_of self.old }
        ensures picture { work self.new ≡ with_sample (work self.old) plane x y value }
        ensures format { (work self.new).format ≡ (work self.old).format }
        ensures whole { IsPicture (work self.new) }
        ensures samples { (other : Plane) (i j : ℕ)
            → Inside (work self.old).format other i j 1 → sample_at (work self.new) other i j ≡
            (if in_run plane x y 1 other i j then value else sample_at (work self.old) other i j) }
    {
        let at = self.layout.place(plane, x, y);
        put_sample(self.bytes, at, value);
    }

    /// Writes `samples` into row `y` from column `x` on.
    pub fn set_row(&mut self, plane: Plane, x: u32, y: u32, samples: &[u8])
        requires { Inside (work self.old).format plane x y (length samples.now) }
        ensures same_loan { loan_of self.new ≡ loan_of self.old }
        ensures picture { work self.new ≡ with_samples (work self.old) plane x y samples.now }
        ensures format { (work self.new).format ≡ (work self.old).format }
        ensures whole { IsPicture (work self.new) }
        ensures samples { (other : Plane) (i j : ℕ) → Inside (work self.old).format other i j 1
            → sample_at (work self.new) other i j ≡ (if in_run plane x y (length samples.now) other
            i j then slice_index samples.now (i - x) else sample_at (work self.old) other i j) }
    {
        let from = self.layout.place(plane, x, y);
        put_samples(self.bytes, from, samples);
    }

    /// Writes `N` rows of as many samples, which are given by rows from the top, from column `x` of
    /// row `y` on. The place is worked out once for all rows, and each is one store.
    #[inline(always)]
    pub fn set_square<const N: usize>(&mut self, plane: Plane, x: u32, y: u32, samples: &[u8])
        requires inside { Inside (work self.old).format plane x (y + (N - 1)) N }
        requires size { N ≤ 16 }
        requires samples { length samples.now ≡ N * N }
        ensures same_loan { loan_of self.new ≡ loan_of self.old }
        ensures format { (work self.new).format ≡ (work self.old).format }
        ensures whole { IsPicture (work self.new) }
        ensures samples { (other : Plane) (i j : ℕ) → Inside (work self.old).format other i j 1
            → sample_at (work self.new) other i j ≡ (if in_block plane x y N N other i j
            then slice_index samples.now (N * (j - y) + (i - x))
            else sample_at (work self.old) other i j) }
    {
        let from = self.layout.place(plane, x, y);
        let width = self.layout.width(plane);
        put_rows::<N>(self.bytes, from, width, samples, N);
    }

    /// Copies `N` columns and rows of samples, from column `x` of row `y` on, from the same place of
    /// another picture of this format.
    #[inline(always)]
    pub fn copy_square<const N: usize>(
        &mut self,
        plane: Plane,
        x: u32,
        y: u32,
        source: PictureRef<'_>,
    )
        requires format { (picture source).format ≡ (work self.old).format }
        requires inside { Inside (work self.old).format plane x (y + (N - 1)) N }
        requires size { 0 < N }
        requires most { N ≤ 16 }
        ensures same_loan { loan_of self.new ≡ loan_of self.old }
        ensures format { (work self.new).format ≡ (work self.old).format }
        ensures whole { IsPicture (work self.new) }
        ensures samples { (other : Plane) (i j : ℕ) → Inside (work self.old).format other i j 1
            → sample_at (work self.new) other i j ≡ (if in_block plane x y N N other i j
            then sample_at (picture source.entry) other i j
            else sample_at (work self.old) other i j) }
    {
        let from = self.layout.place(plane, x, y);
        let width = self.layout.width(plane);
        let rows = source.rows(plane, x, y, N as u32, N as u32);
        put_rows::<N>(self.bytes, from, width, rows, width);
    }

    /// The picture as it is now, for reading.
    pub fn seen(&self) -> PictureRef<'_>
        ensures picture { picture result ≡ work self.now }
        ensures whole { IsPicture (picture result) }
    {
        PictureRef::new(self.layout.format, &*self.bytes)
    }
}

// Writes one sample, and leaves samples.
#[inline(always)]
fn put_sample(bytes: &mut [u8], at: usize, sample: u8)
    requires { at < length bytes.old }
    ensures after { bytes.new ≡ slice_set bytes.old at sample }
    ensures samples { AreSamples bytes.new }
{
    bytes[at] = sample;
}

// Writes samples one after the other, and leaves samples.
#[inline(always)]
fn put_samples(bytes: &mut [u8], from: usize, samples: &[u8])
    requires { from + length samples.now ≤ length bytes.old }
    ensures after { bytes.new ≡ sets bytes.old from samples.now }
    ensures samples { AreSamples bytes.new }
{
    bytes[from..from + samples.len()].copy_from_slice(samples);
}

// Writes N rows of as many samples, each `width` bytes after the one above it, from rows that stand
// `stride` samples after one another.
#[inline(always)]
fn put_rows<const N: usize>(
    bytes: &mut [u8],
    from: usize,
    width: usize,
    samples: &[u8],
    stride: usize,
)
    requires room { from + width * (N - 1) + N ≤ length bytes.old }
    requires size { N ≤ 16 }
    requires width { width ≤ 352 }
    requires stride { stride ≤ 352 }
    requires samples { stride * (N - 1) + N ≤ length samples.now }
    ensures after { bytes.new ≡ sets_rows width N stride samples.now from N bytes.old }
    ensures samples { AreSamples bytes.new }
{
    let mut to = from;
    let mut at = 0;
    for k in 0..N {
        put_row::<N>(bytes, to, &samples[at..at + N]);
        to += width;
        at += stride;
    }
    laws::are_samples(bytes);
}

// Writes a row of N samples, and leaves samples.
#[inline(always)]
fn put_row<const N: usize>(bytes: &mut [u8], from: usize, row: &[u8])
    requires row { length row.now ≡ N }
    requires room { from + N ≤ length bytes.old }
    ensures { bytes.new ≡ sets bytes.old from row.now }
{
    let row: Simd<u8, N> = Simd::from_slice(row);
    row.copy_to_slice(&mut bytes[from..]);
}
