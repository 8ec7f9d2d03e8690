//! The differences that the eight vectors half a sample away leave.
ghost use Rattle.std.specs.Prelude.{◌≡◌, ℕ, ◌+◌, ◌*◌, ◌/◌, ◌<◌, ◌≤◌, drop, length, slice_index, slice_range};
ghost use Rattle.h263_types.specs.Sizes.{mbs_of};
ghost use Rattle.h263_types.specs.Vectors.{InReach};
ghost use Rattle.h263_types.specs.Blocks.{IsVector};
ghost use Rattle.h263_types.specs.declared.vector.Vector.{Vector};
ghost use Rattle.h263_planes.specs.Lent.{picture};
ghost use Rattle.h263_planes.specs.Picture.{Picture};
ghost use Rattle.h263_planes.specs.declared.Plane.TheVariants.{Y};
ghost use Rattle.sad_kernel.specs.Differences.{differences};
ghost use Rattle.motion_search.specs.Cost.{difference_of};
ghost use Rattle.motion_search.specs.Rows.{rows_from};
ghost use Rattle.half_sample.specs.Prediction.{ArePredicted};
ghost use Rattle.motion_search.specs.Vectors.{vector_around, IsEven};

use crate::lent::differences_of_four;
use h263_planes::PictureRef;
use h263_types::Vector;
use half_sample::{Around, luma, luma_around};
use sad_kernel::laws as sad_kernel_laws;

// The neighbour in place `n` of the eight around a vector, by rows from the top: of the nine places
// the middle one is the vector's own.
pub(crate) fn neighbour(vector: Vector, n: u32) -> Vector
    requires vector { IsVector vector }
    requires n { n < 8 }
    ensures { result ≡ vector_around vector (n + n / 4) }
{
    let k = n + n / 4;
    Vector {
        x: vector.x + (k % 3) as i8 - 1,
        y: vector.y + (k / 3) as i8 - 1,
    }
}

// Sixteen of seventeen rows, from a sample on.
#[inline(always)]
fn sixteen_rows(rows: &[u8; 272], at: usize) -> &[u8]
    requires { at ≤ 16 }
    ensures value { result.now ≡ slice_range rows.now at (at + 256) }
    ensures length { length result.now ≡ 256 }
{
    &rows[at..at + 256]
}

// Row `j` of sixteen.
#[inline(always)]
fn stored_row(samples: &[u8], j: u32) -> &[u8]
    requires samples { length samples.now ≡ 256 }
    requires j { j < 16 }
    ensures value { result.now ≡ slice_range samples.now (16 * j) (16 * j + 16) }
    ensures length { length result.now ≡ 16 }
{
    let at = 16 * j as usize;
    &samples[at..at + 16]
}

// The differences of rows `j`, `j + 4`, `j + 8` and `j + 12` of a block from those of another.
#[inline(always)]
fn four_rows_of(block: &[u8; 256], samples: &[u8], j: u32) -> u32
    requires samples { length samples.now ≡ 256 }
    requires j { j < 4 }
    ensures value { result + (rows_from block.now samples.now (j + 1)
        + rows_from block.now samples.now (j + 5) + rows_from block.now samples.now (j + 9)
        + rows_from block.now samples.now (j + 13)) ≡ rows_from block.now samples.now j
        + rows_from block.now samples.now (j + 4) + rows_from block.now samples.now (j + 8)
        + rows_from block.now samples.now (j + 12) }
    ensures most { result ≤ 16320 }
{
    sad_kernel_laws::parts_add();
    let top = stored_row(samples, j);
    let second = stored_row(samples, j + 4);
    let third = stored_row(samples, j + 8);
    let fourth = stored_row(samples, j + 12);
    differences_of_four(block, j, top, second, third, fourth)
}

// The differences of two blocks. The compiler adds up all sixteen rows before it adds the lanes of
// the sum.
#[inline(always)]
fn differences_of_all(block: &[u8; 256], samples: &[u8]) -> u32
    requires samples { length samples.now ≡ 256 }
    ensures value { result ≡ differences block.now samples.now }
    ensures most { result ≤ 65280 }
{
    four_rows_of(block, samples, 0)
        + four_rows_of(block, samples, 1)
        + four_rows_of(block, samples, 2)
        + four_rows_of(block, samples, 3)
}

// The differences of a block from what a vector predicts.
pub(crate) fn differences_of_one(
    block: &[u8; 256],
    reference: PictureRef<'_>,
    mb: u32,
    rounding: u8,
    vector: Vector,
) -> u32
    requires mb { mb < mbs_of (picture reference).format }
    requires reach { InReach (picture reference).format mb vector.x vector.y }
    requires rounding { rounding ≤ 1 }
    ensures value { result ≡ difference_of block.now (picture reference.entry) mb rounding vector }
    ensures most { result ≤ 65280 }
{
    let mut samples = [0; 256];
    luma(reference, mb, vector, rounding, &mut samples);
    differences_of_all(block, &samples)
}

// The differences of a block from sixteen of seventeen rows, from a sample on.
#[inline(always)]
fn differences_of_rows(block: &[u8; 256], rows: &[u8; 272], at: usize) -> u32
    requires { at ≤ 16 }
    ensures value { (p : Picture) (mb r : ℕ) (v : Vector)
        → ArePredicted 16 p Y mb v r (drop at rows.now) → result ≡ difference_of block.now p mb r v }
    ensures most { result ≤ 65280 }
{
    differences_of_all(block, sixteen_rows(rows, at))
}

// The differences of a block from what the eight neighbours of a vector of whole samples predict,
// where all of them are in reach. The one above the vector and the one below it, as those on its
// left and on its right, lie one whole sample apart: they have fifteen rows in common. These are
// written into `rows`, whatever that holds.
pub(crate) fn differences_around(
    block: &[u8; 256],
    reference: PictureRef<'_>,
    mb: u32,
    rounding: u8,
    vector: Vector,
    rows: &mut Around,
) -> [u32; 8]
    requires mb { mb < mbs_of (picture reference).format }
    requires vector { IsVector vector }
    requires whole { IsEven vector }
    requires inside { (k : ℕ) → k < 9
        → InReach (picture reference).format mb (vector_around vector k).x (vector_around vector k).y }
    requires rounding { rounding ≤ 1 }
    ensures value { (n : ℕ) → n < 8 → slice_index result n ≡ difference_of
        block.now (picture reference.entry) mb rounding (vector_around vector (n + n / 4)) }
    ensures most { (n : ℕ) → n < 8 → slice_index result n ≤ 65280 }
{
    luma_around(reference, mb, neighbour(vector, 0), rounding, rows);
    [
        differences_of_rows(block, &rows.up_left, 0),
        differences_of_rows(block, &rows.up, 0),
        differences_of_rows(block, &rows.up_right, 0),
        differences_of_rows(block, &rows.left, 16),
        differences_of_rows(block, &rows.right, 16),
        differences_of_rows(block, &rows.up_left, 16),
        differences_of_rows(block, &rows.up, 16),
        differences_of_rows(block, &rows.up_right, 16),
    ]
}
