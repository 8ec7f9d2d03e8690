//! Vectors of whole samples, compared on the lent rows of the reference.
ghost use Rattle.std.specs.Prelude.{◌≡◌, ℕ, ◌+◌, ◌*◌, ◌%◌, ◌/◌, ◌<◌, ◌≤◌, pos, false, length, slice_index, slice_range};
ghost use Rattle.h263_types.specs.Sizes.{columns_of};
ghost use Rattle.h263_types.specs.Vectors.{InReach, whole_place};
ghost use Rattle.h263_planes.specs.Lent.{picture};
ghost use Rattle.h263_planes.specs.Samples.{Inside};
ghost use Rattle.h263_planes.specs.declared.Plane.TheVariants.{Y};
ghost use Rattle.sad_kernel.specs.Differences.{differences};
ghost use Rattle.motion_search.specs.Order.{before, earlier_of};
ghost use Rattle.motion_search.specs.Cost.{candidate_of, differences_from, IsCost};
ghost use Rattle.motion_search.specs.Vectors.{zero_vector, IsEven};

use crate::candidate::{Candidate, first, with_differences};
use crate::window::Window;
use h263_planes::{PictureRef, Plane, laws as planes_laws};
use h263_types::{Format, Vector};
use sad_kernel::{laws as sad_kernel_laws, sad_of_four};

// Row `j` of a block.
#[inline(always)]
pub(crate) fn block_row(block: &[u8; 256], j: u32) -> &[u8]
    requires j { j < 16 }
    ensures value { result.now ≡ slice_range block.now (16 * j) (16 * j + 16) }
    ensures length { length result.now ≡ 16 }
{
    let at = 16 * j as usize;
    &block[at..at + 16]
}

// The differences of rows `j`, `j + 4`, `j + 8` and `j + 12` of a block from four rows of sixteen
// samples.
#[inline(always)]
pub(crate) fn differences_of_four(
    block: &[u8; 256],
    j: u32,
    first: &[u8],
    second: &[u8],
    third: &[u8],
    fourth: &[u8],
) -> u32
    requires j { j < 4 }
    requires first { length first.now ≡ 16 }
    requires second { length second.now ≡ 16 }
    requires third { length third.now ≡ 16 }
    requires fourth { length fourth.now ≡ 16 }
    ensures value { result ≡ differences (slice_range block.now (16 * j) (16 * j + 16)) first.now
        + differences (slice_range block.now (16 * (j + 4)) (16 * (j + 4) + 16)) second.now
        + differences (slice_range block.now (16 * (j + 8)) (16 * (j + 8) + 16)) third.now
        + differences (slice_range block.now (16 * (j + 12)) (16 * (j + 12) + 16)) fourth.now }
    ensures most { result ≤ 16320 }
{
    sad_of_four(
        (block_row(block, j), first),
        (block_row(block, j + 4), second),
        (block_row(block, j + 8), third),
        (block_row(block, j + 12), fourth),
    )
}

// Sixteen samples of rows that are lent together, from place `at` on.
#[inline(always)]
pub(crate) fn row_from(rows: &[u8], at: usize) -> &[u8]
    requires { at + 16 ≤ length rows.now }
    ensures length { length result.now ≡ 16 }
    ensures samples { (i : ℕ) → i < 16 → slice_index result.now i ≡ slice_index rows.now (at + i) }
{
    &rows[at..at + 16]
}

// The differences of rows `j`, `j + 4`, `j + 8` and `j + 12` of a block from those of the 16 x 16
// samples of Y at column `x` of row `y`. Since `y` has sixteen bits, the compiler sees that the
// sums of rows don't wrap, and finds all rows of a block at fixed distances from the first.
#[inline(always)]
fn four_rows(block: &[u8; 256], reference: PictureRef<'_>, x: u32, y: u16, j: u32) -> u32
    requires inside { Inside (picture reference).format Y x (y + 15) 16 }
    requires x { x < 65536 }
    requires j { j < 4 }
    ensures value { result + (differences_from block.now (picture reference.entry) x y (j + 1)
        + differences_from block.now (picture reference.entry) x y (j + 5)
        + differences_from block.now (picture reference.entry) x y (j + 9)
        + differences_from block.now (picture reference.entry) x y (j + 13))
        ≡ differences_from block.now (picture reference.entry) x y j + differences_from block.now
        (picture reference.entry) x y (j + 4) + differences_from block.now (picture reference.entry)
        x y (j + 8) + differences_from block.now (picture reference.entry) x y (j + 12) }
    ensures most { result ≤ 16320 }
{
    sad_kernel_laws::parts_add();
    let y = u32::from(y);
    let first = reference.row(Plane::Y, x, y + j, 16);
    let second = reference.row(Plane::Y, x, y + (j + 4), 16);
    let third = reference.row(Plane::Y, x, y + (j + 8), 16);
    let fourth = reference.row(Plane::Y, x, y + (j + 12), 16);
    differences_of_four(block, j, first, second, third, fourth)
}

// The differences of a block from the 16 x 16 samples of Y at column `x` of row `y`.
#[inline(always)]
pub(crate) fn differences_at(block: &[u8; 256], reference: PictureRef<'_>, x: u32, y: u16) -> u32
    requires inside { Inside (picture reference).format Y x (y + 15) 16 }
    requires x { x < 65536 }
    ensures value { result ≡ differences_from block.now (picture reference.entry) x y 0 }
    ensures most { result ≤ 65280 }
{
    four_rows(block, reference, x, y, 0)
        + four_rows(block, reference, x, y, 1)
        + four_rows(block, reference, x, y, 2)
        + four_rows(block, reference, x, y, 3)
}

// The first of the best one and a vector of whole samples, which leads to column `x` of row `y`.
// All rows are summed up before it asks: what the sums of areas let through mostly needs them all.
// The zero vector has been looked at, so what it has ahead needs no look where the sum is too high.
#[inline(always)]
pub(crate) fn better_whole(
    window: Window<'_>,
    x: u32,
    y: u16,
    vector: Vector,
    best: Candidate,
) -> Candidate
    requires reach { InReach (picture window.reference).format window.mb vector.x vector.y }
    requires whole { IsEven vector }
    requires x { pos x
        ≡ whole_place (16 * (window.mb % columns_of (picture window.reference).format)) vector.x }
    requires y { pos y
        ≡ whole_place (16 * (window.mb / columns_of (picture window.reference).format)) vector.y }
    requires zero { before (candidate_of window.block.now
        (picture window.reference) window.mb 0 zero_vector) best ≡ false }
    requires cost { IsCost best.cost }
    ensures first { result ≡ earlier_of best (candidate_of window.entry.block.now
        (picture window.entry.reference) window.entry.mb 0 vector) }
    ensures cost { IsCost result.cost }
{
    let sum = differences_at(window.block, window.reference, x, y);
    if sum as i32 > best.cost {
        best
    } else {
        first(best, with_differences(vector, sum))
    }
}

// The picture, whose format is known where this is called: then its rows stand at distances that
// are known too.
#[inline(always)]
pub(crate) fn known(reference: PictureRef<'_>, format: Format) -> PictureRef<'_>
    requires { (picture reference).format ≡ format }
    ensures { picture result ≡ picture reference.entry }
{
    planes_laws::planes_are_bytes();
    PictureRef::new(format, reference.bytes())
}
