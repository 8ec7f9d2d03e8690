//! Whether all coefficients of a block are small, by a test that is quicker than the transform.
//! Each row of the basis is even or odd across, and each column down. So a coefficient sees only
//! one of four parts of the block, which is folded across and down, with or without a change of
//! sign; and but for its rounding the square of a coefficient is at most a quarter of the sum of
//! squares of its part.
ghost use Rattle.std.specs.Prelude.{◌≡◌, ℕ, ◌+◌, ◌-◌, ◌<◌, ◌≤◌, All, IsTrue, pos, ◌+ℤ◌, ◌-ℤ◌, ◌≤ℤ◌, slice_index_or, unsigned_abs};
ghost use Rattle.idct8.specs.Ranges.{IsSample};
ghost use Rattle.idct8.specs.Sums.{total};
ghost use Rattle.idct8.specs.Transform.{entry, forward_at};
ghost use Rattle.idct8.specs.Vectors.{lane, EightWithin, RowsWithin, row_at, squared};

use crate::passes::{Row, Rows};
use crate::terms::pair;
use crate::turns::transposed;
use crate::two_passes::{row, rows};
use std::simd::prelude::*;

/// Whether a quick test shows that no coefficient of a block of samples, or of their differences,
/// is as large as `least`, 77 at most. `false` says nothing.
pub fn are_below(samples: &[i16; 64], least: u32) -> bool
    requires samples { All IsSample samples.now }
    requires least { least ≤ 77 }
    ensures { IsTrue result
        → (v u : ℕ) → v < 8 → u < 8 → unsigned_abs (forward_at samples.now v u) < least }
{
    let (sums, differences) = squares_across(folded(samples));
    let largest = larger_half(sums).max(larger_half(differences));
    largest + 4 * least + 4 < 4 * least * least
}

/// The sum of the squares of a block of samples, or of their differences.
pub fn sum_of_squares(samples: &[i16; 64]) -> u32
    requires { All IsSample samples.now }
    ensures sum { result ≡ total 64 (λ k. squared (slice_index_or samples.now k (pos 0))) }
    ensures most { result ≤ 4161600 }
{
    sum_of_lanes(squares_down(rows(samples)))
}

// The squares of each column of a block of samples, added up.
#[inline(always)]
fn squares_down(r: Rows) -> i32x8
    requires { RowsWithin 255 r }
    ensures value { (i : ℕ) → i < 8 → lane result i
        ≡ pos (squared (lane (row_at r 0) i) + squared (lane (row_at r 1) i)
        + squared (lane (row_at r 2) i) + squared (lane (row_at r 3) i)
        + (squared (lane (row_at r 4) i) + squared (lane (row_at r 5) i)
        + squared (lane (row_at r 6) i) + squared (lane (row_at r 7) i))) }
    ensures size { EightWithin 520200 result }
{
    squares_of_four(r[0].lanes, r[1].lanes, r[2].lanes, r[3].lanes)
        + squares_of_four(r[4].lanes, r[5].lanes, r[6].lanes, r[7].lanes)
}

// The sum of eight numbers, of which none is below 0.
#[inline(always)]
fn sum_of_lanes(v: i32x8) -> u32
    requires size { EightWithin 520200 v }
    requires up { (i : ℕ) → i < 8 → pos 0 ≤ℤ lane v i }
    ensures sum { result ≡ unsigned_abs (lane v 0)
        + unsigned_abs (lane v 1) + unsigned_abs (lane v 2) + unsigned_abs (lane v 3)
        + unsigned_abs (lane v 4) + unsigned_abs (lane v 5) + unsigned_abs (lane v 6)
        + unsigned_abs (lane v 7) }
    ensures most { result ≤ 4161600 }
{
    let n = v.to_array();
    n[0] as u32
        + n[1] as u32
        + n[2] as u32
        + n[3] as u32
        + n[4] as u32
        + n[5] as u32
        + n[6] as u32
        + n[7] as u32
}

// The sums and the differences of two vectors of samples, or of their differences.
#[inline(always)]
fn small_pair(a: i16x8, b: i16x8) -> (i16x8, i16x8)
    requires a { EightWithin 4095 a }
    requires b { EightWithin 4095 b }
    ensures sum { (i : ℕ) → i < 8 → lane result.0 i ≡ lane a i +ℤ lane b i }
    ensures difference { (i : ℕ) → i < 8 → lane result.1 i ≡ lane a i -ℤ lane b i }
    ensures sum_size { EightWithin 8191 result.0 }
    ensures difference_size { EightWithin 8191 result.1 }
{
    (a + b, a - b)
}

// Row `k` of a block with the row that mirrors it, and less that row.
#[inline(always)]
fn folded_row(block: &[i16; 64], k: usize) -> (i16x8, i16x8)
    requires block { All IsSample block.now }
    requires k { k < 4 }
    ensures sum { (i : ℕ)
        → i < 8 → lane result.0 i ≡ entry block.now k i +ℤ entry block.now (7 - k) i }
    ensures difference { (i : ℕ)
        → i < 8 → lane result.1 i ≡ entry block.now k i -ℤ entry block.now (7 - k) i }
    ensures sum_size { EightWithin 8191 result.0 }
    ensures difference_size { EightWithin 8191 result.1 }
{
    small_pair(row(block, k), row(block, 7 - k))
}

// The columns of a block that is folded down: four numbers with the mirrored ones, and then four
// less these.
#[inline(always)]
fn folded(block: &[i16; 64]) -> Rows
    requires { All IsSample block.now }
    ensures sums { (j k : ℕ) → j < 8
        → k < 4 → lane (row_at result j) k ≡ entry block.now k j +ℤ entry block.now (7 - k) j }
    ensures differences { (j k : ℕ) → j < 8 → k < 4
        → lane (row_at result j) (4 + k) ≡ entry block.now k j -ℤ entry block.now (7 - k) j }
    ensures size { RowsWithin 8191 result }
{
    let mut rows = [Row {
        lanes: i16x8::splat(0),
    }; 8];
    for k in 0..4 {
        let (sum, difference) = folded_row(block, k);
        rows[k] = Row { lanes: sum };
        rows[4 + k] = Row { lanes: difference };
    }
    transposed(rows)
}

// The squares of two vectors, added up.
#[inline(always)]
fn squares(a: i16x8, b: i16x8) -> i32x8
    requires a { EightWithin 16382 a }
    requires b { EightWithin 16382 b }
    ensures value { (i : ℕ) → i < 8 → lane result i ≡ pos (squared (lane a i) + squared (lane b i)) }
    ensures size { EightWithin 536739848 result }
{
    let x: i32x8 = a.cast();
    let y: i32x8 = b.cast();
    x * x + y * y
}

// The squares of four vectors, added up.
#[inline(always)]
fn squares_of_four(a: i16x8, b: i16x8, c: i16x8, d: i16x8) -> i32x8
    requires a { EightWithin 16382 a }
    requires b { EightWithin 16382 b }
    requires c { EightWithin 16382 c }
    requires d { EightWithin 16382 d }
    ensures value { (i : ℕ) → i < 8 → lane result i
        ≡ pos (squared (lane a i) + squared (lane b i) + squared (lane c i) + squared (lane d i)) }
    ensures size { EightWithin 1073479696 result }
{
    squares(a, b) + squares(c, d)
}

// The squares of each column with the mirrored one, added up over the columns, and those of each
// less that one.
#[inline(always)]
fn squares_across(r: Rows) -> (i32x8, i32x8)
    requires { RowsWithin 8191 r }
    ensures sums { (i : ℕ) → i < 8 → lane result.0 i
        ≡ pos (squared (lane (row_at r 0) i +ℤ lane (row_at r 7) i)
        + squared (lane (row_at r 1) i +ℤ lane (row_at r 6) i)
        + squared (lane (row_at r 2) i +ℤ lane (row_at r 5) i)
        + squared (lane (row_at r 3) i +ℤ lane (row_at r 4) i)) }
    ensures differences { (i : ℕ) → i < 8 → lane result.1 i
        ≡ pos (squared (lane (row_at r 0) i -ℤ lane (row_at r 7) i)
        + squared (lane (row_at r 1) i -ℤ lane (row_at r 6) i)
        + squared (lane (row_at r 2) i -ℤ lane (row_at r 5) i)
        + squared (lane (row_at r 3) i -ℤ lane (row_at r 4) i)) }
    ensures sums_size { EightWithin 1073479696 result.0 }
    ensures differences_size { EightWithin 1073479696 result.1 }
{
    let (p0, m0) = pair(r[0].lanes, r[7].lanes);
    let (p1, m1) = pair(r[1].lanes, r[6].lanes);
    let (p2, m2) = pair(r[2].lanes, r[5].lanes);
    let (p3, m3) = pair(r[3].lanes, r[4].lanes);
    (
        squares_of_four(p0, p1, p2, p3),
        squares_of_four(m0, m1, m2, m3),
    )
}

// The greater one of the sum of the first four numbers and that of the last four, of which none is
// below 0.
#[inline(always)]
fn larger_half(v: i32x8) -> u32
    requires { EightWithin 1073479696 v }
    ensures first { unsigned_abs (lane v 0)
        + unsigned_abs (lane v 1) + unsigned_abs (lane v 2) + unsigned_abs (lane v 3) ≤ result }
    ensures last { unsigned_abs (lane v 4)
        + unsigned_abs (lane v 5) + unsigned_abs (lane v 6) + unsigned_abs (lane v 7) ≤ result }
    ensures most { result ≤ 4293918784 }
{
    let n = v.to_array();
    let first = n[0].unsigned_abs()
        + n[1].unsigned_abs()
        + n[2].unsigned_abs()
        + n[3].unsigned_abs();
    let last = n[4].unsigned_abs()
        + n[5].unsigned_abs()
        + n[6].unsigned_abs()
        + n[7].unsigned_abs();
    first.max(last)
}
