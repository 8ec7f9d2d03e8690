//! The samples of a block.
ghost use Rattle.std.specs.Prelude.{◌≡◌, ℕ, ◌+◌, ◌*◌, ◌%◌, ◌/◌, ◌<◌, ◌≤◌, pos, All, length, slice_index, slice_index_or, nat_eq, if◌then◌else◌};
ghost use Rattle.h263_types.specs.Sizes.{mbs_of};
ghost use Rattle.h263_planes.specs.Lent.{picture};
ghost use Rattle.h263_planes.specs.Samples.{Inside, sample_at};
ghost use Rattle.idct8.specs.Ranges.{IsSample};
ghost use Rattle.mode_choice.specs.Choice.{samples_of_block};

use h263_planes::{PictureRef, Plane, block_corner};
use std::simd::prelude::*;

// Fetches the samples of block `block` of macroblock `mb`, by rows. Each plane has code of its own,
// in which its begin and its width are known before the first row.
pub(crate) fn block_samples(frame: PictureRef<'_>, mb: u32, block: u32, samples: &mut [i16; 64])
    requires mb { mb < mbs_of (picture frame).format }
    requires block { block < 6 }
    ensures samples { samples.new ≡ samples_of_block (picture frame.entry) mb block }
    ensures range { All IsSample samples.new }
{
    let corner = block_corner(frame.format(), mb, block);
    match corner.plane {
        Plane::Y => square(frame, Plane::Y, corner.x, corner.y, samples),
        Plane::Cb => square(frame, Plane::Cb, corner.x, corner.y, samples),
        Plane::Cr => square(frame, Plane::Cr, corner.x, corner.y, samples),
    }
}

// Fetches the 8 x 8 samples of a plane from column `x` of row `y` on, by rows.
#[inline(always)]
fn square(frame: PictureRef<'_>, plane: Plane, x: u32, y: u32, samples: &mut [i16; 64])
    requires { Inside (picture frame).format plane x (y + 7) 8 }
    ensures long { length samples.new ≡ 64 }
    ensures samples { (k : ℕ) → k < 64 → slice_index_or samples.new k (pos 0)
        ≡ pos (sample_at (picture frame.entry) plane (x + k % 8) (y + k / 8)) }
    ensures range { All IsSample samples.new }
{
    put_rows(frame.rows(plane, x, y, 8, 8), frame.width(plane), samples);
}

// Writes eight rows of a block, each `width` places after the one above it.
#[inline(always)]
fn put_rows(rows: &[u8], width: usize, samples: &mut [i16; 64])
    requires rows { width * 7 + 8 ≤ length rows.now }
    requires width { width ≤ 352 }
    ensures long { length samples.new ≡ 64 }
    ensures samples { (k : ℕ) → k < 64 → slice_index_or samples.new k (pos 0)
        ≡ pos (slice_index rows.now (width * (k / 8) + k % 8)) }
    ensures range { All IsSample samples.new }
{
    let mut at = 0;
    for j in 0..8usize {
        put_row(samples, j, &rows[at..at + 8]);
        at += width;
    }
}

// Writes row `y` of a block: eight bytes as signed numbers, taken and put in lanes. That is one
// store, where an array would first be made in memory, and then copied.
#[inline(always)]
fn put_row(samples: &mut [i16], y: usize, row: &[u8])
    requires block { length samples.old ≡ 64 }
    requires y { y < 8 }
    requires row { length row.now ≡ 8 }
    ensures long { length samples.new ≡ 64 }
    ensures samples { (k : ℕ) → k < 64
        → slice_index_or samples.new k (pos 0) ≡ (if nat_eq (k / 8) y
        then pos (slice_index row.now (k % 8)) else slice_index_or samples.old k (pos 0)) }
{
    let numbers: i16x8 = u8x8::from_slice(row).cast();
    numbers.copy_to_slice(&mut samples[8 * y..]);
}
