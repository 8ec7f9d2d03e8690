//! The inverse transform of a block whose values stand in one row or in one column. The other pass
//! is over one value of frequency 0 each time, so it takes a sum 2048 times: no product, and a
//! shorter shift rounds the sum itself, which fits 32 bits whatever the values.
ghost use Rattle.std.specs.Prelude.{◌≡◌, ℕ, ◌*◌, ◌^◌, ◌<◌, ◌≤◌, pos, ◌+ℤ◌, ◌*ℤ◌, All, slice_index_or};
ghost use Rattle.std.specs.Int.{int_shr};
ghost use Rattle.h263_types.specs.Blocks.{IsValue};
ghost use Rattle.idct8.specs.Passes.{pass_at};
ghost use Rattle.idct8.specs.Ranges.{Within};
ghost use Rattle.idct8.specs.Transform.{entry, inverse_at, rounded};
ghost use Rattle.idct8.specs.Vectors.{lane, EightWithin};
ghost use Rattle.idct8.specs.declared.passes.Direction.TheVariants.{Inverse};

use crate::narrow::{row_of_sums, store};
use crate::two_passes::row;
use std::simd::prelude::*;

// 2048 times a sum, divided by 2^25, is the sum divided by 2^14; and the half of that.
const LINE_BITS: i32 = 14;

const LINE_HALF: i32 = 0x2000;

/// The inverse transform, in their place, of values of which only those of the first row may be
/// other than 0. All rows of what it gives are equal.
#[inline(always)]
pub fn inverse_of_row(block: &mut [i16; 64])
    requires values { All IsValue block.old }
    requires zeros { (at : ℕ) → 8 ≤ at → at < 64 → slice_index_or block.old at (pos 0) ≡ pos 0 }
    ensures numbers { (y x : ℕ)
        → y < 8 → x < 8 → entry block.new y x ≡ inverse_at block.old y x }
    ensures range { (y x : ℕ) → y < 8 → x < 8 → Within 32000 (entry block.new y x) }
{
    let numbers = line_numbers(row(block, 0));
    store_in_each_row(numbers, block);
}

/// The inverse transform, in their place, of values of which only those of the first column may be
/// other than 0. All columns of what it gives are equal.
#[inline(always)]
pub fn inverse_of_column(block: &mut [i16; 64])
    requires values { All IsValue block.old }
    requires zeros { (y x : ℕ)
        → y < 8 → 1 ≤ x → x < 8 → entry block.old y x ≡ pos 0 }
    ensures numbers { (y x : ℕ)
        → y < 8 → x < 8 → entry block.new y x ≡ inverse_at block.old y x }
    ensures range { (y x : ℕ) → y < 8 → x < 8 → Within 32000 (entry block.new y x) }
{
    let numbers = line_numbers(column(block));
    store_in_each_column(numbers, block);
}

// The first column.
#[inline(always)]
fn column(block: &[i16; 64]) -> i16x8
    requires { All IsValue block.now }
    ensures numbers { (j : ℕ) → j < 8 → lane result j ≡ entry block.now j 0 }
    ensures size { EightWithin 8191 result }
{
    let mut column = [0; 8];
    for j in 0..8 {
        column[j] = block[8 * j];
    }
    i16x8::from_array(column)
}

// What the transform gives along a line of values, the only ones of their block.
#[inline(always)]
fn line_numbers(line: i16x8) -> i16x8
    requires { EightWithin 8191 line }
    ensures numbers { (k : ℕ)
        → k < 8 → lane result k ≡ rounded (pos 2048 *ℤ pass_at Inverse line k) }
    ensures size { EightWithin 32000 result }
{
    line_quotients(row_of_sums(line))
}

// Eight sums divided by 2^14 and rounded to the nearest.
#[inline(always)]
fn line_quotients(v: i32x8) -> i16x8
    requires { EightWithin (2 ^ 28) v }
    ensures value { (i : ℕ) → i < 8 → lane result i ≡ int_shr (lane v i +ℤ pos 8192) 14 }
    ensures size { EightWithin 32000 result }
{
    ((v + i32x8::splat(LINE_HALF)) >> i32x8::splat(LINE_BITS)).cast()
}

// Each row is these numbers.
#[inline(always)]
fn store_in_each_row(v: i16x8, out: &mut [i16; 64])
    requires { EightWithin 32000 v }
    ensures { (r k : ℕ) → r < 8 → k < 8 → entry out.new r k ≡ lane v k }
{
    for r in 0..8 {
        store(v, r, out);
    }
}

// Each column is these numbers.
#[inline(always)]
fn store_in_each_column(v: i16x8, out: &mut [i16; 64])
    requires { EightWithin 32000 v }
    ensures { (r k : ℕ) → r < 8 → k < 8 → entry out.new r k ≡ lane v r }
{
    let numbers = v.to_array();
    for r in 0..8 {
        store(eight_of(numbers[r]), r, out);
    }
}

#[inline(always)]
fn eight_of(number: i16) -> i16x8
    requires { Within 32000 number }
    ensures numbers { (k : ℕ) → k < 8 → lane result k ≡ number }
    ensures size { EightWithin 32000 result }
{
    i16x8::splat(number)
}
