//! The forward transform nearly: a pass over columns and one over rows, each rounded to 16 bits. It
//! gives sixteenths of coefficients, which bracket them
//! ([`near_brackets`](crate::laws::near_brackets)).
ghost use Rattle.std.specs.Prelude.{◌≡◌, ℕ, ◌*◌, ◌^◌, ◌<◌, All, length, pos, ◌+ℤ◌, ◌-ℤ◌, ◌*ℤ◌};
ghost use Rattle.std.specs.Int.{int_shr};
ghost use Rattle.idct8.specs.Near.{down_at, near_at};
ghost use Rattle.idct8.specs.Passes.{pass_at};
ghost use Rattle.std.specs.Simd.Lanes.{put_chunk};
ghost use Rattle.idct8.specs.Ranges.{IsSample, Within};
ghost use Rattle.idct8.specs.Transform.{entry};
ghost use Rattle.idct8.specs.Vectors.{lane, EightWithin, RowsWithin, SumsWithin, list_at, row_at, sum_at};
ghost use Rattle.idct8.specs.declared.passes.Direction.TheVariants.{Forward};

use crate::passes::{Direction, Row, Rows, Sum, Sums, pass};
use crate::terms::four_products;
use crate::turns::transposed;
use crate::two_passes::rows;
use std::simd::prelude::*;

/// Sixteenths of the coefficients of a block of samples, or of their differences, by rows, each
/// -255 to 255. They stand by columns: row v of column u, at place 8 * u + v, has that of the
/// frequencies u across and v down.
pub fn nearly(samples: &[i16; 64]) -> [i16; 64]
    requires { All IsSample samples.now }
    ensures sixteenths { (u v : ℕ) → u < 8 → v < 8 → entry result u v ≡ near_at samples.now v u }
    ensures range { All (Within 32640) result }
{
    let mut sixteenths = [0; 64];
    put_rows(across(transposed(down(samples))), &mut sixteenths);
    sixteenths
}

// Puts eight rows into a block.
#[inline(always)]
fn put_rows(r: Rows, out: &mut [i16; 64])
    requires { RowsWithin 32640 r }
    ensures long { length out.new ≡ 64 }
    ensures numbers { (j i : ℕ)
        → j < 8 → i < 8 → entry out.new j i ≡ lane (row_at r j) i }
{
    for j in 0..8 {
        store(r[j].lanes, j, out);
    }
}

#[inline(always)]
fn store(v: i16x8, j: usize, out: &mut [i16; 64])
    requires v { EightWithin 32640 v }
    requires j { j < 8 }
    ensures { out.new ≡ put_chunk (8 * j) out.old v }
{
    v.copy_to_slice(&mut out[8 * j..]);
}

// The pass over columns: lane x of row v is sum v of column x, rounded.
#[inline(always)]
fn down(samples: &[i16; 64]) -> Rows
    requires { All IsSample samples.now }
    ensures numbers { (v x : ℕ)
        → v < 8 → x < 8 → lane (row_at result v) x ≡ down_at samples.now v x }
    ensures size { RowsWithin 16320 result }
{
    let r = rows(samples);
    let mut rounded = first_rows(pass(Direction::Forward, r));
    let (first, middle) = plain_rows(r);
    rounded[0] = Row { lanes: first };
    rounded[4] = Row { lanes: middle };
    rounded
}

// Rows 0 and 4 of the pass over columns, all of whose factors are 2048 or -2048: so their sums are
// eight times plain ones, which fit 16 bits, and nothing is rounded.
#[inline(always)]
fn plain_rows(r: Rows) -> (i16x8, i16x8)
    requires { RowsWithin 255 r }
    ensures first { (x : ℕ) → x < 8
        → lane result.0 x ≡ int_shr (pass_at Forward (list_at r x) 0 +ℤ pos (2 ^ 7)) 8 }
    ensures middle { (x : ℕ) → x < 8
        → lane result.1 x ≡ int_shr (pass_at Forward (list_at r x) 4 +ℤ pos (2 ^ 7)) 8 }
    ensures first_size { EightWithin 16320 result.0 }
    ensures middle_size { EightWithin 16320 result.1 }
{
    eight_times(
        mirrored_sum(r[0].lanes, r[7].lanes),
        mirrored_sum(r[1].lanes, r[6].lanes),
        mirrored_sum(r[2].lanes, r[5].lanes),
        mirrored_sum(r[3].lanes, r[4].lanes),
    )
}

// The sum of a sample and the one that mirrors it, in eight columns.
#[inline(always)]
fn mirrored_sum(a: i16x8, b: i16x8) -> i16x8
    requires a { EightWithin 255 a }
    requires b { EightWithin 255 b }
    ensures sum { (i : ℕ) → i < 8 → lane result i ≡ lane a i +ℤ lane b i }
    ensures size { EightWithin 510 result }
{
    a + b
}

// Eight times the sum of four numbers, and eight times that of the outer two less the inner two.
#[inline(always)]
fn eight_times(p0: i16x8, p1: i16x8, p2: i16x8, p3: i16x8) -> (i16x8, i16x8)
    requires p0 { EightWithin 510 p0 }
    requires p1 { EightWithin 510 p1 }
    requires p2 { EightWithin 510 p2 }
    requires p3 { EightWithin 510 p3 }
    ensures sum { (i : ℕ) → i < 8
        → lane result.0 i ≡ pos 8 *ℤ (lane p0 i +ℤ lane p3 i +ℤ (lane p1 i +ℤ lane p2 i)) }
    ensures difference { (i : ℕ) → i < 8
        → lane result.1 i ≡ pos 8 *ℤ (lane p0 i +ℤ lane p3 i -ℤ (lane p1 i +ℤ lane p2 i)) }
    ensures sum_size { EightWithin 16320 result.0 }
    ensures difference_size { EightWithin 16320 result.1 }
{
    let outer = p0 + p3;
    let inner = p1 + p2;
    (doubled_thrice(outer + inner), doubled_thrice(outer - inner))
}

// Eight times eight numbers.
#[inline(always)]
fn doubled_thrice(v: i16x8) -> i16x8
    requires { EightWithin 2040 v }
    ensures product { (i : ℕ) → i < 8 → lane result i ≡ pos 8 *ℤ lane v i }
    ensures size { EightWithin 16320 result }
{
    let two = v + v;
    let four = two + two;
    four + four
}

// The pass over rows, which stand as columns.
#[inline(always)]
fn across(r: Rows) -> Rows
    requires { RowsWithin 16320 r }
    ensures numbers { (u v : ℕ) → u < 8 → v < 8 → lane (row_at result u) v
        ≡ int_shr (pass_at Forward (list_at r v) u +ℤ pos (2 ^ 12)) 13 }
    ensures size { RowsWithin 32640 result }
{
    second_rows(wide_pass(r))
}

// The sums and the differences of two inputs of the second pass.
#[inline(always)]
fn wide_pair(a: i16x8, b: i16x8) -> (i16x8, i16x8)
    requires a { EightWithin 16320 a }
    requires b { EightWithin 16320 b }
    ensures sum { (i : ℕ) → i < 8 → lane result.0 i ≡ lane a i +ℤ lane b i }
    ensures difference { (i : ℕ) → i < 8 → lane result.1 i ≡ lane a i -ℤ lane b i }
    ensures sum_size { EightWithin 32767 result.0 }
    ensures difference_size { EightWithin 32767 result.1 }
{
    (a + b, a - b)
}

// A forward pass over numbers of up to 16,320: sums of two of them fit 16 bits, those of four
// don't.
#[inline(always)]
fn wide_pass(r: Rows) -> Sums
    requires { RowsWithin 16320 r }
    ensures sums { (u i : ℕ)
        → u < 8 → i < 8 → lane (sum_at result u) i ≡ pass_at Forward (list_at r i) u }
    ensures size { SumsWithin 267386880 result }
{
    let (p0, m0) = wide_pair(r[0].lanes, r[7].lanes);
    let (p1, m1) = wide_pair(r[1].lanes, r[6].lanes);
    let (p2, m2) = wide_pair(r[2].lanes, r[5].lanes);
    let (p3, m3) = wide_pair(r[3].lanes, r[4].lanes);
    let s0 = four_products((2048, 2048, 2048, 2048), p0, p1, p2, p3);
    let s1 = four_products((2841, 2408, 1609, 565), m0, m1, m2, m3);
    let s2 = four_products((2676, 1108, -1108, -2676), p0, p1, p2, p3);
    let s3 = four_products((2408, -565, -2841, -1609), m0, m1, m2, m3);
    let s4 = four_products((2048, -2048, -2048, 2048), p0, p1, p2, p3);
    let s5 = four_products((1609, -2841, 565, 2408), m0, m1, m2, m3);
    let s6 = four_products((1108, -2676, 2676, -1108), p0, p1, p2, p3);
    let s7 = four_products((565, -1609, 2408, -2841), m0, m1, m2, m3);
    [
        Sum { lanes: s0 },
        Sum { lanes: s1 },
        Sum { lanes: s2 },
        Sum { lanes: s3 },
        Sum { lanes: s4 },
        Sum { lanes: s5 },
        Sum { lanes: s6 },
        Sum { lanes: s7 },
    ]
}

// Sums divided by 2^8, rounded to the nearest. They fit 16 bits: the limit is there for the
// compiler, which has one instruction for it and for the narrowing.
#[inline(always)]
fn first_rounded(v: i32x8) -> i16x8
    requires { EightWithin 4177920 v }
    ensures value { (i : ℕ) → i < 8 → lane result i ≡ int_shr (lane v i +ℤ pos (2 ^ 7)) 8 }
    ensures size { EightWithin 16320 result }
{
    let rounded = (v + i32x8::splat(128)) >> i32x8::splat(8);
    rounded
        .simd_clamp(i32x8::splat(-32_768), i32x8::splat(32_767))
        .cast()
}

// Sums divided by 2^13, likewise.
#[inline(always)]
fn second_rounded(v: i32x8) -> i16x8
    requires { EightWithin 267386880 v }
    ensures value { (i : ℕ) → i < 8 → lane result i ≡ int_shr (lane v i +ℤ pos (2 ^ 12)) 13 }
    ensures size { EightWithin 32640 result }
{
    let rounded = (v + i32x8::splat(4096)) >> i32x8::splat(13);
    rounded
        .simd_clamp(i32x8::splat(-32_768), i32x8::splat(32_767))
        .cast()
}

#[inline(always)]
fn first_rows(s: Sums) -> Rows
    requires { SumsWithin 4177920 s }
    ensures long { length result ≡ 8 }
    ensures numbers { (k i : ℕ) → k < 8
        → i < 8 → lane (row_at result k) i ≡ int_shr (lane (sum_at s k) i +ℤ pos (2 ^ 7)) 8 }
    ensures size { RowsWithin 16320 result }
{
    let mut rows = [Row {
        lanes: i16x8::splat(0),
    }; 8];
    for k in 0..8 {
        rows[k] = Row {
            lanes: first_rounded(s[k].lanes),
        };
    }
    rows
}

#[inline(always)]
fn second_rows(s: Sums) -> Rows
    requires { SumsWithin 267386880 s }
    ensures numbers { (k i : ℕ) → k < 8
        → i < 8 → lane (row_at result k) i ≡ int_shr (lane (sum_at s k) i +ℤ pos (2 ^ 12)) 13 }
    ensures size { RowsWithin 32640 result }
{
    let mut rows = [Row {
        lanes: i16x8::splat(0),
    }; 8];
    for k in 0..8 {
        rows[k] = Row {
            lanes: second_rounded(s[k].lanes),
        };
    }
    rows
}
