//! What a prediction leaves of the blocks of a macroblock (H.263, 6.1).
ghost use Rattle.std.specs.Prelude.{◌≡◌, ℕ, ◌+◌, ◌*◌, ◌/◌, ◌%◌, ◌<◌, ◌≤◌, ◌-ℤ◌, All, length, pos, nat_eq, slice_index, slice_index_or, if◌then◌else◌};
ghost use Rattle.h263_types.specs.Sizes.{mbs_of};
ghost use Rattle.h263_planes.specs.declared.Plane.TheVariants.{Y};
ghost use Rattle.h263_planes.specs.Lent.{picture};
ghost use Rattle.h263_planes.specs.Samples.{Inside, sample_at};
ghost use Rattle.idct8.specs.Ranges.{IsSample};
ghost use Rattle.mode_choice.specs.Choice.{sample_in_block};
ghost use Rattle.mode_choice.specs.Residuals.{luma_at, predicted_at};

use h263_planes::{Corner, PictureRef, Plane, block_corner};
use half_sample::Predicted;
use std::simd::prelude::*;

// The samples of block `block` of macroblock `mb` less the predicted ones, by rows. The predicted
// ones are read where they stand: those of the four blocks of luma in 16 x 16 samples.
pub(crate) fn block_residuals(
    frame: PictureRef<'_>,
    mb: u32,
    block: u32,
    predicted: &Predicted,
    residuals: &mut [i16; 64],
)
    requires mb { mb < mbs_of (picture frame).format }
    requires block { block < 6 }
    ensures long { length residuals.new ≡ 64 }
    ensures residuals { (k : ℕ) → k < 64 → slice_index_or residuals.new k (pos 0)
        ≡ (pos (sample_in_block (picture frame.entry) mb block k)
        -ℤ pos (predicted_at predicted.now block k)) }
    ensures range { All IsSample residuals.new }
{
    let corner = block_corner(frame.format(), mb, block);
    if block < 4 {
        luma_differences(frame, corner.x, corner.y, &predicted.y, block, residuals)
    } else if block == 4 {
        colour_differences(
            frame,
            Plane::Cb,
            corner.x,
            corner.y,
            &predicted.cb,
            residuals,
        )
    } else {
        colour_differences(
            frame,
            Plane::Cr,
            corner.x,
            corner.y,
            &predicted.cr,
            residuals,
        )
    }
}

// The 8 x 8 samples of luma from column `x` of row `y` on less those of a block among the four that
// are predicted.
#[inline(always)]
fn luma_differences(
    frame: PictureRef<'_>,
    x: u32,
    y: u32,
    predicted: &[u8; 256],
    block: u32,
    residuals: &mut [i16; 64],
)
    requires inside { Inside (picture frame).format Y x (y + 7) 8 }
    requires block { block < 4 }
    ensures long { length residuals.new ≡ 64 }
    ensures differences { (k : ℕ) → k < 64 → slice_index_or residuals.new k (pos 0)
        ≡ (pos (sample_at (picture frame.entry) Y (x + k % 8) (y + k / 8))
        -ℤ pos (luma_at predicted.now block k)) }
    ensures range { All IsSample residuals.new }
{
    let from = 128 * (block as usize / 2) + 8 * (block as usize % 2);
    let corner = Corner {
        plane: Plane::Y,
        x,
        y,
    };
    differences(frame, corner, predicted, from, 16, residuals)
}

// The same of a block of colour, which is predicted alone.
#[inline(always)]
fn colour_differences(
    frame: PictureRef<'_>,
    plane: Plane,
    x: u32,
    y: u32,
    predicted: &[u8; 64],
    residuals: &mut [i16; 64],
)
    requires { Inside (picture frame).format plane x (y + 7) 8 }
    ensures long { length residuals.new ≡ 64 }
    ensures differences { (k : ℕ) → k < 64 → slice_index_or residuals.new k (pos 0)
        ≡ (pos (sample_at (picture frame.entry) plane (x + k % 8) (y + k / 8))
        -ℤ pos (slice_index predicted.now k)) }
    ensures range { All IsSample residuals.new }
{
    differences(frame, Corner { plane, x, y }, predicted, 0, 8, residuals)
}

// The 8 x 8 samples from a corner on less those predicted, by rows; the predicted rows begin at
// place `from` and are `stride` apart.
#[inline(always)]
fn differences(
    frame: PictureRef<'_>,
    corner: Corner,
    predicted: &[u8],
    from: usize,
    stride: usize,
    residuals: &mut [i16; 64],
)
    requires inside { Inside (picture frame).format corner.plane corner.x (corner.y + 7) 8 }
    requires from { from ≤ 136 }
    requires stride { stride ≤ 16 }
    requires predicted { from + 7 * stride + 8 ≤ length predicted.now }
    ensures long { length residuals.new ≡ 64 }
    ensures differences { (k : ℕ) → k < 64 → slice_index_or residuals.new k (pos 0)
        ≡ (pos (sample_at (picture frame.entry)
        corner.plane (corner.x + k % 8) (corner.y + k / 8))
        -ℤ pos (slice_index predicted.now (from + stride * (k / 8) + k % 8))) }
    ensures range { All IsSample residuals.new }
{
    let rows = frame.rows(corner.plane, corner.x, corner.y, 8, 8);
    put_differences(
        rows,
        frame.width(corner.plane),
        predicted,
        from,
        stride,
        residuals,
    );
}

// The same of eight rows, each `width` places after the one above it.
#[inline(always)]
fn put_differences(
    rows: &[u8],
    width: usize,
    predicted: &[u8],
    from: usize,
    stride: usize,
    residuals: &mut [i16; 64],
)
    requires rows { width * 7 + 8 ≤ length rows.now }
    requires width { width ≤ 352 }
    requires from { from ≤ 136 }
    requires stride { stride ≤ 16 }
    requires predicted { from + 7 * stride + 8 ≤ length predicted.now }
    ensures long { length residuals.new ≡ 64 }
    ensures differences { (k : ℕ) → k < 64 → slice_index_or residuals.new k (pos 0)
        ≡ (pos (slice_index rows.now (width * (k / 8) + k % 8))
        -ℤ pos (slice_index predicted.now (from + stride * (k / 8) + k % 8))) }
    ensures range { All IsSample residuals.new }
{
    let mut above = 0;
    let mut at = from;
    for j in 0..8usize {
        put_difference(
            residuals,
            j,
            &rows[above..above + 8],
            &predicted[at..at + 8],
        );
        above += width;
        at += stride;
    }
}

// Writes row `j` of a block: eight samples less the predicted ones, taken and put in lanes.
#[inline(always)]
fn put_difference(residuals: &mut [i16], j: usize, row: &[u8], predicted: &[u8])
    requires block { length residuals.old ≡ 64 }
    requires j { j < 8 }
    requires row { length row.now ≡ 8 }
    requires predicted { length predicted.now ≡ 8 }
    ensures long { length residuals.new ≡ 64 }
    ensures residuals { (k : ℕ) → k < 64 → slice_index_or residuals.new k (pos 0)
        ≡ (if nat_eq (k / 8) j
        then pos (slice_index row.now (k % 8)) -ℤ pos (slice_index predicted.now (k % 8))
        else slice_index_or residuals.old k (pos 0)) }
{
    let samples: i16x8 = u8x8::from_slice(row).cast();
    let predicted: i16x8 = u8x8::from_slice(predicted).cast();
    (samples - predicted).copy_to_slice(&mut residuals[8 * j..]);
}
