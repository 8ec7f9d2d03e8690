//! Sums of samples over areas of 8 x 8, by which most vectors are ruled out: two blocks differ by
//! at least as much as the sums of their quarters do.
ghost use Rattle.std.specs.Prelude.{◌≡◌, ℕ, ◌+◌, ◌%◌, ◌<◌, ◌≤◌, length, replicate, slice_index};
ghost use Rattle.std.specs.Int.{abs_diff, bit_at};
ghost use Rattle.motion_search.specs.Areas.{area_sum, AreSamplesAt, AreColumns, AreQuarters, sample_of_block, IsRow, sixteen};

use crate::lent::block_row;
use h263_planes::laws as planes_laws;
use std::simd::prelude::*;

// The sums of the samples in 32 columns beside each other over some rows.
#[derive(Clone, Copy)]
pub(crate) struct Columns {
    pub(crate) left: u16x16,
    pub(crate) right: u16x16,
}

// The sums of the 8 x 8 samples of the four quarters of a block.
#[derive(Clone, Copy)]
pub(crate) struct Quarters {
    pub(crate) top_left: u16,
    pub(crate) top_right: u16,
    pub(crate) bottom_left: u16,
    pub(crate) bottom_right: u16,
}

// The sums over no rows.
#[inline(always)]
pub(crate) fn no_rows() -> Columns
    ensures { (f : ℕ → ℕ → ℕ) (y : ℕ) → AreColumns f y 0 result }
{
    Columns {
        left: u16x16::splat(0),
        right: u16x16::splat(0),
    }
}

// Sixteen samples in lanes of sixteen bits.
#[inline(always)]
fn widened(samples: &[u8]) -> u16x16
    requires { length samples.now ≡ 16 }
    ensures { (f : ℕ → ℕ)
        → ((i : ℕ) → i < 16 → slice_index samples.now i ≡ f i) → result ≡ sixteen f }
{
    u8x16::from_slice(samples).cast()
}

// The sums with one more row below.
#[inline(always)]
pub(crate) fn with_row(columns: Columns, left: &[u8], right: &[u8]) -> Columns
    requires left { length left.now ≡ 16 }
    requires right { length right.now ≡ 16 }
    ensures { (f : ℕ → ℕ → ℕ) (y n : ℕ)
        → AreSamplesAt f → n < 8 → IsRow f (y + n) left.now right.now → AreColumns f y n columns
        → AreColumns f y (n + 1) result }
{
    Columns {
        left: columns.left + widened(left),
        right: columns.right + widened(right),
    }
}

// The sums without the uppermost row.
#[inline(always)]
pub(crate) fn without_row(columns: Columns, left: &[u8], right: &[u8]) -> Columns
    requires left { length left.now ≡ 16 }
    requires right { length right.now ≡ 16 }
    ensures { (f : ℕ → ℕ → ℕ) (y n : ℕ)
        → AreSamplesAt f → n < 8 → IsRow f y left.now right.now → AreColumns f y (n + 1) columns
        → AreColumns f (y + 1) n result }
{
    Columns {
        left: columns.left - widened(left),
        right: columns.right - widened(right),
    }
}

// The places of the lanes that stand 1, 2, 4 and 8 further on.
const ON_BY_ONE: [usize; 16] = [1, 2, 3, 4, 5, 6, 7, 8, 9, 10, 11, 12, 13, 14, 15, 16];

const ON_BY_TWO: [usize; 16] = [2, 3, 4, 5, 6, 7, 8, 9, 10, 11, 12, 13, 14, 15, 16, 17];

const ON_BY_FOUR: [usize; 16] = [4, 5, 6, 7, 8, 9, 10, 11, 12, 13, 14, 15, 16, 17, 18, 19];

const ON_BY_EIGHT: [usize; 16] = [8, 9, 10, 11, 12, 13, 14, 15, 16, 17, 18, 19, 20, 21, 22, 23];

// From the sums of columns of eight samples those of the areas in columns 0 to 15, and of the areas
// in columns 8 to 23: pairs of columns, pairs of pairs, and pairs of these. The last lanes of
// `right` go round and mean nothing.
#[inline(always)]
pub(crate) fn areas(columns: Columns) -> (u16x16, u16x16)
    ensures { (f : ℕ → ℕ → ℕ) (y : ℕ) → AreSamplesAt f → AreColumns f y 8 columns
        → (result.0 ≡ sixteen (λ i. area_sum f i y)) × (result.1 ≡ sixteen (λ i. area_sum f (8 + i) y)) }
{
    let (left, right) = (columns.left, columns.right);
    let left_two = left + left.shuffle(right, ON_BY_ONE);
    let right_two = right + right.rotate_elements_left::<1>();
    let left_four = left_two + left_two.shuffle(right_two, ON_BY_TWO);
    let right_four = right_two + right_two.rotate_elements_left::<2>();
    let left_eight = left_four + left_four.shuffle(right_four, ON_BY_FOUR);
    let right_eight = right_four + right_four.rotate_elements_left::<4>();
    (left_eight, left_eight.shuffle(right_eight, ON_BY_EIGHT))
}

// How far sixteen sums of an area are from another. Of both differences, which wrap, it is the
// smaller one.
#[inline(always)]
fn away(sums: u16x16, sum: u16) -> u16x16
    requires { sum ≤ 16320 }
    ensures { (f : ℕ → ℕ) → ((i : ℕ) → f i ≤ 16320)
        → sums ≡ sixteen f → result ≡ sixteen (λ i. abs_diff (f i) sum) }
{
    let other = u16x16::splat(sum);
    (sums - other).simd_min(other - sums)
}

// How far sixteen sums beside each other, from place `at` on, and those eight columns to the right of
// them are from the sums of two quarters, taken together.
#[inline(always)]
pub(crate) fn half_away(sums: &[u16], at: usize, left: u16, right: u16) -> u16x16
    requires left { left ≤ 16320 }
    requires right { right ≤ 16320 }
    requires room { at + 24 ≤ length sums.now }
    requires small { (k : ℕ) → slice_index sums.now k ≤ 16320 }
    ensures { result ≡ sixteen (λ i. abs_diff (slice_index sums.now (at + i)) left
        + abs_diff (slice_index sums.now (at + 8 + i)) right) }
{
    away(sums_at(sums, at), left) + away(sums_at(sums, at + 8), right)
}

// Sixteen sums beside each other, from place `at` on.
#[inline(always)]
fn sums_at(sums: &[u16], at: usize) -> u16x16
    requires { at + 16 ≤ length sums.now }
    ensures { result ≡ sixteen (λ i. slice_index sums.now (at + i)) }
{
    u16x16::from_slice(&sums[at..])
}

// Of sixteen blocks beside each other, of which is given how far the sums of their upper and of their
// lower quarters are from those of a block, those for which that is `limit` or less, the same in all
// lanes: bit i for the one in column i.
#[inline(always)]
pub(crate) fn marks_of(upper: u16x16, lower: u16x16, limit: u16x16) -> u64
    ensures { (top bottom : ℕ → ℕ) (most : ℕ) → upper ≡ sixteen top → lower ≡ sixteen bottom
        → limit ≡ replicate 16 most → ((i : ℕ) → top i + bottom i < 65536)
        → (i : ℕ) → i < 16 → bit_at result i ≡ 0 → most < top i + bottom i }
{
    (upper + lower).simd_le(limit).to_bitmask()
}

// The sums of eight rows of a block from row `j` on, in its sixteen columns twice.
#[inline(always)]
fn eight_rows(block: &[u8; 256], j: u32) -> Columns
    requires { j ≤ 8 }
    ensures { AreColumns (λ x y. sample_of_block block.now (x % 16) y) j 8 result }
{
    planes_laws::are_samples(block);
    let mut columns = no_rows();
    for k in 0..8u32 {
        let row = block_row(block, j + k);
        columns = with_row(columns, row, row);
    }
    columns
}

// The sums of the quarters of a block.
#[inline(always)]
pub(crate) fn quarters_of(block: &[u8; 256]) -> Quarters
    ensures { AreQuarters block.now result }
{
    planes_laws::are_samples(block);
    let (top, _) = areas(eight_rows(block, 0));
    let (bottom, _) = areas(eight_rows(block, 8));
    let top = top.to_array();
    let bottom = bottom.to_array();
    Quarters {
        top_left: top[0],
        top_right: top[8],
        bottom_left: bottom[0],
        bottom_right: bottom[8],
    }
}
