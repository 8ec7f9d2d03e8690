//! A block in a picture.
ghost use Rattle.std.specs.Prelude.{◌≡◌, ℕ, ◌+◌, ◌*◌, ◌%◌, ◌<◌, ◌≤◌, length, slice_index, if◌then◌else◌};
ghost use Rattle.h263_types.specs.Sizes.{mbs_of};
ghost use Rattle.h263_planes.specs.declared.Plane.{Plane};
ghost use Rattle.h263_planes.specs.Blocks.{IsCorner};
ghost use Rattle.h263_planes.specs.Lent.{picture};
ghost use Rattle.h263_planes.specs.Samples.{Inside, IsPicture, in_block, sample_at};
ghost use Rattle.h263_planes.specs.Work.{loan_of, work};
ghost use Rattle.picture_recon.specs.Coded.{SetsBlock};

use h263_planes::{Corner, PictureMut, PictureRef, block_corner};
use h263_types::Format;
use std::simd::prelude::*;

// Writes the samples of block `block` of macroblock `at`.
#[inline(always)]
pub(crate) fn put_block(
    out: &mut PictureMut<'_>,
    format: Format,
    at: u32,
    block: u32,
    samples: &[u8; 64],
)
    requires format { (work out.old).format ≡ format }
    requires at { at < mbs_of format }
    requires block { block < 6 }
    requires whole { IsPicture (work out.old) }
    ensures same_loan { loan_of out.new ≡ loan_of out.old }
    ensures format { (work out.new).format ≡ format }
    ensures whole { IsPicture (work out.new) }
    ensures samples { SetsBlock format at block
        (λ old y x. slice_index samples.now (8 * y + x)) (work out.old) (work out.new) }
{
    put_samples(out, block_corner(format, at, block), samples);
}

// Writes 8 x 8 samples from a corner on.
#[inline(always)]
pub(crate) fn put_samples(out: &mut PictureMut<'_>, corner: Corner, samples: &[u8; 64])
    requires corner { IsCorner (work out.old).format corner }
    requires whole { IsPicture (work out.old) }
    ensures same_loan { loan_of out.new ≡ loan_of out.old }
    ensures format { (work out.new).format ≡ (work out.old).format }
    ensures whole { IsPicture (work out.new) }
    ensures samples { (plane : Plane) (x y : ℕ)
        → Inside (work out.old).format plane x y 1 → sample_at (work out.new) plane x y
        ≡ (if in_block corner.plane corner.x corner.y 8 8 plane x y then slice_index samples.now
        (8 * (y % 8) + x % 8) else sample_at (work out.old) plane x y) }
{
    out.set_square::<8>(corner.plane, corner.x, corner.y, samples);
}

// The 8 x 8 samples from a corner on, by rows.
#[inline(always)]
pub(crate) fn samples_at(seen: PictureRef<'_>, corner: Corner) -> [u8; 64]
    requires { IsCorner (picture seen).format corner }
    ensures { (j i : ℕ) → j < 8 → i < 8 → slice_index result (8 * j + i)
        ≡ sample_at (picture seen.entry) corner.plane (corner.x + i) (corner.y + j) }
{
    let rows = seen.rows(corner.plane, corner.x, corner.y, 8, 8);
    eight_rows(rows, seen.width(corner.plane))
}

// Eight rows of as many samples, each `width` places after the one above it.
#[inline(always)]
fn eight_rows(rows: &[u8], width: usize) -> [u8; 64]
    requires rows { width * 7 + 8 ≤ length rows.now }
    requires width { width ≤ 352 }
    ensures { (j i : ℕ) → j < 8 → i < 8
        → slice_index result (8 * j + i) ≡ slice_index rows.now (width * j + i) }
{
    let mut samples = [0; 64];
    let mut at = 0;
    for j in 0..8usize {
        let row = row_at(rows, at);
        samples[8 * j..8 * j + 8].copy_from_slice(&row);
        at += width;
    }
    samples
}

// Eight samples from place `at` on, in one load. As an array they are known to lie apart from where
// they are copied to.
#[inline(always)]
fn row_at(rows: &[u8], at: usize) -> [u8; 8]
    requires { at + 8 ≤ length rows.now }
    ensures { (i : ℕ) → i < 8 → slice_index result i ≡ slice_index rows.now (at + i) }
{
    Simd::from_slice(&rows[at..at + 8]).to_array()
}
