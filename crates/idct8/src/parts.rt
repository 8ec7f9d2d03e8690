//! Sums in two parts, so that a pass over sums is two passes over small numbers: a product of two
//! numbers of 16 bits is cheap in lanes, one of 32 bits isn't. No sum of the first pass is further
//! from 0 than 8 * 2841 * 2^11, 46,546,944.
ghost use Rattle.std.specs.Prelude.{◌≡◌, ℕ, ◌^◌, ◌<◌, pos, ◌+ℤ◌, ◌*ℤ◌, length};
ghost use Rattle.idct8.specs.Transform.{rounded};
ghost use Rattle.idct8.specs.Vectors.{lane, EightWithin, RowsWithin, SumsWithin, row_at, sum_at};

use crate::passes::{Row, Rows, Sums};
use std::simd::prelude::*;

// The low part has this many bits: so few that sums of four numbers, of either part, fit 16 bits.
const LOW_BITS: i32 = 13;

// What rounding to the nearest takes away, and its half.
pub(crate) const ROUNDED_BITS: i32 = 25;

pub(crate) const HALF: i32 = 0x100_0000;

// The high and the low part of each sum.
#[inline(always)]
fn parts(v: i32x8) -> (i16x8, i16x8)
    requires { EightWithin 46546944 v }
    ensures whole { (i : ℕ) → i < 8 → lane v i ≡ pos 8192 *ℤ lane result.0 i +ℤ lane result.1 i }
    ensures high_size { EightWithin 8191 result.0 }
    ensures low_size { EightWithin 8191 result.1 }
{
    let high = v >> i32x8::splat(LOW_BITS);
    let low = v - (high << i32x8::splat(LOW_BITS));
    (high.cast(), low.cast())
}

// The number whose parts are given, divided by 2^25 and rounded to the nearest: the low part counts
// only by what it carries over.
#[inline(always)]
pub(crate) fn nearest(high: i32x8, low: i32x8) -> i32x8
    requires high { EightWithin (2 ^ 30) high }
    requires low { EightWithin (2 ^ 30) low }
    ensures value { (i : ℕ)
        → i < 8 → lane result i ≡ rounded (pos 8192 *ℤ lane high i +ℤ lane low i) }
    ensures size { EightWithin 270000 result }
{
    let carried = (low + i32x8::splat(HALF)) >> i32x8::splat(LOW_BITS);
    (high + carried) >> i32x8::splat(ROUNDED_BITS - LOW_BITS)
}

// The high and the low parts of eight times eight sums.
#[inline(always)]
pub(crate) fn split(s: Sums) -> (Rows, Rows)
    requires { SumsWithin 46546944 s }
    ensures whole { (k i : ℕ) → k < 8 → i < 8 →
        lane (sum_at s k) i ≡ pos 8192 *ℤ lane (row_at result.0 k) i +ℤ lane (row_at result.1 k) i }
    ensures high_size { RowsWithin 8191 result.0 }
    ensures low_size { RowsWithin 8191 result.1 }
{
    let mut high = [Row {
        lanes: i16x8::splat(0),
    }; 8];
    let mut low = high;
    for k in 0..8 {
        let (h, l) = parts(s[k].lanes);
        high[k] = Row { lanes: h };
        low[k] = Row { lanes: l };
    }
    (high, low)
}
