//! The transforms in two passes: the rows of the block, then the columns of what they give. Between
//! the passes stand exact numbers; only the end is rounded.
ghost use Rattle.std.specs.Prelude.{◌≡◌, ℕ, ◌*◌, ◌^◌, ◌<◌, ◌≤◌, pos, ◌+ℤ◌, ◌*ℤ◌, slice_index_or, All};
ghost use Rattle.h263_types.specs.Blocks.{IsCoefficient, IsValue};
ghost use Rattle.idct8.specs.Ranges.{IsSample, Within};
ghost use Rattle.idct8.specs.Transform.{entry, forward_at, inverse_at, rounded};
ghost use Rattle.idct8.specs.Passes.{pass_at, row_sums, transform_at};
ghost use Rattle.std.specs.Simd.Lanes.{put_chunk};
ghost use Rattle.idct8.specs.Vectors.{lane, EightWithin, RowsWithin, SumsWithin, row_at, sum_at};
ghost use Rattle.idct8.specs.declared.passes.Direction.TheVariants.{Inverse, Forward};

use crate::narrow::sums_of_rows;
use crate::parts::{nearest, split};
use crate::passes::{Direction, Row, Rows, Sums, pass};
use crate::turns::transposed;
use std::simd::prelude::*;

/// The inverse transform of a block of values, by rows: column u of row v has the value of the
/// frequencies u across and v down, -2048 to 2047. It gives a block by rows, each number within
/// 32,768 of 0.
pub fn inverse(values: &[i16; 64]) -> [i32; 64]
    requires { All IsValue values.now }
    ensures samples { (y x : ℕ) → y < 8 → x < 8 → entry result y x ≡ inverse_at values.now y x }
    ensures range { (y x : ℕ) → y < 8 → x < 8 → Within (2 ^ 15) (entry result y x) }
{
    let mut samples = [0; 64];
    inverse_of_first(values, 8, &mut samples);
    samples
}

/// The forward transform of a block of samples, or of their differences, by rows, each -255 to 255.
/// It gives a block of coefficients: column u of row v has that of the frequencies u across and v
/// down.
pub fn forward(samples: &[i16; 64]) -> [i32; 64]
    requires { All IsSample samples.now }
    ensures coefficients { (v u : ℕ)
        → v < 8 → u < 8 → entry result v u ≡ forward_at samples.now v u }
    ensures range { (v u : ℕ) → v < 8 → u < 8 → IsCoefficient (entry result v u) }
{
    let mut coefficients = [0; 64];
    forward_of(samples, &mut coefficients);
    coefficients
}

#[inline(always)]
fn forward_of(block: &[i16; 64], out: &mut [i32; 64])
    requires { All (Within (2 ^ 11)) block.now }
    ensures { (r k : ℕ) → r < 8 → k < 8 → entry out.new r k ≡ transform_at Forward block.now r k }
{
    let (high, low) = split(row_pass(block, Direction::Forward));
    let high = turned_pass(Direction::Forward, high);
    let low = turned_pass(Direction::Forward, low);
    round(high, low, out);
}

// The inverse transform of values of which those of the first `count` rows alone may be other than
// 0. The sums of a row stand in a row, so neither pass turns the block.
#[inline(always)]
fn inverse_of_first(block: &[i16; 64], count: usize, out: &mut [i32; 64])
    requires block { All (Within (2 ^ 11)) block.now }
    requires count { count ≤ 8 }
    requires zeros { (j i : ℕ) → count ≤ j → j < 8 → i < 8 → entry block.now j i ≡ pos 0 }
    ensures { (r k : ℕ) → r < 8 → k < 8 → entry out.new r k ≡ transform_at Inverse block.now r k }
{
    let (high, low) = split(sums_of_rows(block, count));
    let high = pass(Direction::Inverse, high);
    let low = pass(Direction::Inverse, low);
    round(high, low, out);
}

// The inverse transform of values of which those of the first two rows alone may be other than 0.
pub(crate) fn inverse_of_two_rows(values: &[i16; 64]) -> [i32; 64]
    requires values { All IsValue values.now }
    requires zeros { (j i : ℕ) → 2 ≤ j → j < 8 → i < 8 → entry values.now j i ≡ pos 0 }
    ensures { (y x : ℕ) → y < 8 → x < 8 → entry result y x ≡ inverse_at values.now y x }
{
    let mut samples = [0; 64];
    inverse_of_first(values, 2, &mut samples);
    samples
}

// The same of the first four.
pub(crate) fn inverse_of_four_rows(values: &[i16; 64]) -> [i32; 64]
    requires values { All IsValue values.now }
    requires zeros { (j i : ℕ) → 4 ≤ j → j < 8 → i < 8 → entry values.now j i ≡ pos 0 }
    ensures { (y x : ℕ) → y < 8 → x < 8 → entry result y x ≡ inverse_at values.now y x }
{
    let mut samples = [0; 64];
    inverse_of_first(values, 4, &mut samples);
    samples
}

// The first pass, over each row of the block: lane j of sum k is sum k of row j.
#[inline(always)]
fn row_pass(block: &[i16; 64], direction: Direction) -> Sums
    requires { All (Within (2 ^ 11)) block.now }
    ensures sums { (k j : ℕ)
        → k < 8 → j < 8 → lane (sum_at result k) j ≡ row_sums direction block.now j k }
    ensures size { SumsWithin 46546944 result }
{
    turned_pass(direction, rows(block))
}

// A pass over each of eight rows: lane j of sum k is sum k of row j.
#[inline(always)]
fn turned_pass(direction: Direction, r: Rows) -> Sums
    requires { RowsWithin 8191 r }
    ensures sums { (k j : ℕ)
        → k < 8 → j < 8 → lane (sum_at result k) j ≡ pass_at direction (row_at r j) k }
    ensures size { SumsWithin (2 ^ 30) result }
{
    pass(direction, transposed(r))
}

#[inline(always)]
pub(crate) fn rows(block: &[i16; 64]) -> Rows
    requires { All (Within (2 ^ 11)) block.now }
    ensures numbers { (j i : ℕ) → j < 8 → i < 8 → lane (row_at result j) i ≡ entry block.now j i }
    ensures size { RowsWithin 8191 result }
{
    let mut rows = [Row {
        lanes: i16x8::splat(0),
    }; 8];
    for j in 0..8 {
        rows[j] = Row {
            lanes: row(block, j),
        };
    }
    rows
}

#[inline(always)]
pub(crate) fn row(block: &[i16; 64], j: usize) -> i16x8
    requires j { j < 8 }
    requires block { All (Within (2 ^ 11)) block.now }
    ensures numbers { (i : ℕ) → i < 8 → lane result i ≡ entry block.now j i }
    ensures size { EightWithin 8191 result }
{
    i16x8::from_slice(&block[8 * j..])
}

#[inline(always)]
fn round(high: Sums, low: Sums, out: &mut [i32; 64])
    requires high { SumsWithin (2 ^ 30) high }
    requires low { SumsWithin (2 ^ 30) low }
    ensures { (r k : ℕ) → r < 8 → k < 8 →
        entry out.new r k ≡ rounded (pos 8192 *ℤ lane (sum_at high r) k +ℤ lane (sum_at low r) k) }
{
    for r in 0..8 {
        store(nearest(high[r].lanes, low[r].lanes), r, out);
    }
}

#[inline(always)]
fn store(v: i32x8, r: usize, out: &mut [i32; 64])
    requires v { EightWithin 270000 v }
    requires r { r < 8 }
    ensures { out.new ≡ put_chunk (8 * r) out.old v }
{
    v.copy_to_slice(&mut out[8 * r..]);
}
