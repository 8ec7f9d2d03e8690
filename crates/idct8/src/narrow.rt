//! The inverse transform in 16 bits. What a coded block holds is mostly zeros and small values, and
//! then both passes fit 32 bits: no number of the basis is further from 0 than 2841, so no double
//! sum is further than 2841 * 2841 times the sum of the sizes of the values.
ghost use Rattle.std.specs.Prelude.{◌≡◌, ℕ, true, ◌+◌, ◌*◌, ◌-◌, ◌^◌, ◌<◌, ◌≤◌, pos, ◌+ℤ◌, ◌-ℤ◌, ◌*ℤ◌, All, slice_index_or};
ghost use Rattle.std.specs.Int.{int_shr};
ghost use Rattle.std.specs.Simd.Lanes.{put_chunk};
ghost use Rattle.h263_types.specs.Blocks.{IsValue};
ghost use Rattle.idct8.specs.Ranges.{Within};
ghost use Rattle.idct8.specs.Transform.{entry, inverse_at};
ghost use Rattle.idct8.specs.Passes.{AreColumnSums, pass_at, row_sums, transform_at};
ghost use Rattle.idct8.specs.Sizes.{cut_size, sizes_of};
ghost use Rattle.idct8.specs.Sums.{total};
ghost use Rattle.idct8.specs.Vectors.{lane, EightWithin, SixteenWithin, SumsWithin, column_at, sum_at};
ghost use Rattle.idct8.specs.declared.passes.Direction.TheVariants.{Inverse};

use crate::parts::{HALF, ROUNDED_BITS};
use crate::passes::{Sum, Sums};
use crate::two_passes::{inverse, inverse_of_four_rows, inverse_of_two_rows, row};
use std::simd::prelude::*;

// How large the sum of the sizes may be: 263 * 2841 * 2841 and half of the divisor 2^25 are less
// than 2^31.
const MOST: u16 = 263;

// A size counts no further than this, so that 64 of them fit 16 bits. It is more than `MOST`.
const LARGE: u16 = 1023;

// The basis at the first four places, by pairs of frequencies: for each place the numbers of 0 and
// 2, then for each those of 1 and 3.
const FIRST_PAIRS: [i32; 16] = [
    2048, 2676, 2048, 1108, 2048, -1108, 2048, -2676, 2841, 2408, 2408, -565, 1609, -2841, 565,
    -1609,
];

// Those of 4 and 6, then those of 5 and 7.
const LAST_PAIRS: [i32; 16] = [
    2048, 1108, -2048, -2676, -2048, 2676, 2048, -1108, 1609, 565, -2841, -1609, 565, 2408, 2408,
    -2841,
];

/// The inverse transform of a block of values, as [`inverse`] gives it, in 16 bits and in their
/// place. It is quick where the sum of the sizes of the values is at most 263.
pub fn narrow_inverse(block: &mut [i16; 64])
    requires { All IsValue block.old }
    ensures numbers { (y x : ℕ)
        → y < 8 → x < 8 → entry block.new y x ≡ inverse_at block.old y x }
    ensures range { (y x : ℕ) → y < 8 → x < 8 → Within 32000 (entry block.new y x) }
{
    inverse_by_rows(block, 8);
}

/// The same of values of which only those of the first `count` rows may be other than 0: the fewer
/// the rows, the quicker.
#[inline(always)]
pub fn inverse_by_rows(block: &mut [i16; 64], count: usize)
    requires values { All IsValue block.old }
    requires count { count ≤ 8 }
    requires zeros { (k : ℕ)
        → 8 * count ≤ k → k < 64 → slice_index_or block.old k (pos 0) ≡ pos 0 }
    ensures numbers { (y x : ℕ)
        → y < 8 → x < 8 → entry block.new y x ≡ inverse_at block.old y x }
    ensures range { (y x : ℕ) → y < 8 → x < 8 → Within 32000 (entry block.new y x) }
{
    if sizes(block, 8 * count) > MOST {
        *block = narrowed(&wide_inverse(block, count));
        return;
    }
    inverse_of_rows(block, count);
}

// The same in 32 bits, whatever the sizes.
#[inline(always)]
fn wide_inverse(values: &[i16; 64], count: usize) -> [i32; 64]
    requires values { All IsValue values.now }
    requires count { count ≤ 8 }
    requires zeros { (j i : ℕ) → count ≤ j → j < 8 → i < 8 → entry values.now j i ≡ pos 0 }
    ensures { (y x : ℕ) → y < 8 → x < 8 → entry result y x ≡ inverse_at values.now y x }
{
    if count <= 2 {
        inverse_of_two_rows(values)
    } else if count <= 4 {
        inverse_of_four_rows(values)
    } else {
        inverse(values)
    }
}

// The sum of the sizes of a block's first values, up to a place. None counts further than `LARGE`.
#[inline(always)]
fn sizes(values: &[i16; 64], to: usize) -> u16
    requires values { All IsValue values.now }
    requires places { to ≤ 64 }
    ensures value { result ≡ total to (λ k. cut_size values.now k) }
    ensures most { result ≤ 1023 * to }
{
    let mut sum: u16 = 0;
    for at in 0..to {
        sum += values[at].unsigned_abs().min(LARGE);
    }
    sum
}

// The same numbers in 16 bits.
#[inline(always)]
fn narrowed(numbers: &[i32; 64]) -> [i16; 64]
    requires { (at : ℕ) → at < 64 → Within 32000 (slice_index_or numbers.now at (pos 0)) }
    ensures { (at : ℕ) → at < 64
        → slice_index_or result at (pos 0) ≡ slice_index_or numbers.now at (pos 0) }
{
    let mut narrow = [0; 64];
    for at in 0..64 {
        narrow[at] = numbers[at] as i16;
    }
    narrow
}

// The inverse transform of small values, of which those from row `count` on are zeros.
#[inline(always)]
fn inverse_of_rows(block: &mut [i16; 64], count: usize)
    requires values { All (Within (2 ^ 11)) block.old }
    requires small { sizes_of block.old ≤ 263 }
    requires count { count ≤ 8 }
    requires zeros { (j i : ℕ)
        → count ≤ j → j < 8 → i < 8 → entry block.old j i ≡ pos 0 }
    ensures { (r k : ℕ)
        → r < 8 → k < 8 → entry block.new r k ≡ transform_at Inverse block.old r k }
{
    let sums = columns(sums_of_rows(block, count));
    store_rounded(sums, block);
}

// The first pass: the eight sums of each row.
#[inline(always)]
pub(crate) fn sums_of_rows(values: &[i16; 64], count: usize) -> Sums
    requires values { All (Within (2 ^ 11)) values.now }
    requires count { count ≤ 8 }
    requires zeros { (j i : ℕ)
        → count ≤ j → j < 8 → i < 8 → entry values.now j i ≡ pos 0 }
    ensures sums { (j k : ℕ) → j < 8
        → k < 8 → lane (sum_at result j) k ≡ row_sums Inverse values.now j k }
    ensures size { SumsWithin 46546944 result }
{
    let mut sums = [Sum {
        lanes: i32x8::splat(0),
    }; 8];
    for j in 0..count {
        sums[j] = Sum {
            lanes: row_of_sums(row(values, j)),
        };
    }
    sums
}

// The eight sums of a row at once. The even rows of the basis are symmetric and the odd ones
// antisymmetric, so places x and 7 - x share their two halves. The row needs no transposition.
#[inline(always)]
pub(crate) fn row_of_sums(r: i16x8) -> i32x8
    requires { EightWithin 8191 r }
    ensures sums { (k : ℕ) → k < 8 → lane result k ≡ pass_at Inverse r k }
    ensures size { EightWithin (2 ^ 28) result }
{
    let first = r.swizzle([0, 2, 0, 2, 0, 2, 0, 2, 1, 3, 1, 3, 1, 3, 1, 3]);
    let last = r.swizzle([4, 6, 4, 6, 4, 6, 4, 6, 5, 7, 5, 7, 5, 7, 5, 7]);
    unfolded(dots(first, FIRST_PAIRS) + dots(last, LAST_PAIRS))
}

// The sums of two products of neighbours: the compiler knows this form, and it is one instruction
// for four of them.
#[inline(always)]
fn dots(a: i16x16, m: [i32; 16]) -> i32x8
    requires a { SixteenWithin 8191 a }
    requires m { SixteenWithin 2841 m }
    ensures sums { (i : ℕ) → i < 8 → lane result i
        ≡ lane m (2 * i) *ℤ lane a (2 * i) +ℤ lane m (2 * i + 1) *ℤ lane a (2 * i + 1) }
    ensures size { EightWithin (2 ^ 26) result }
{
    let a: i32x16 = a.cast();
    let products = a * i32x16::from_array(m);
    let even: i32x8 = products.swizzle([0, 2, 4, 6, 8, 10, 12, 14]);
    let odd: i32x8 = products.swizzle([1, 3, 5, 7, 9, 11, 13, 15]);
    even + odd
}

// Eight sums from their even and their odd halves, four each: the sums of the halves in order, and
// their differences from the last to the first.
#[inline(always)]
fn unfolded(halves: i32x8) -> i32x8
    requires { EightWithin (2 ^ 27) halves }
    ensures sums { (k : ℕ) → k < 4 → lane result k ≡ lane halves k +ℤ lane halves (4 + k) }
    ensures differences { (k : ℕ) → k < 4
        → lane result (7 - k) ≡ lane halves k -ℤ lane halves (4 + k) }
    ensures size { EightWithin (2 ^ 28) result }
{
    let swapped = halves.swizzle([4, 5, 6, 7, 0, 1, 2, 3]);
    let sums = halves + swapped;
    let differences = halves - swapped;
    sums.shuffle(differences, [0, 1, 2, 3, 11, 10, 9, 8])
}

// The second pass, and half of what rounding divides by: for each y the sum over v of
// M[v][y] * s[v]. Lanes of 32 bits wrap, so what they hold on the way is right in its low 32 bits
// whatever it is; and only the results have to fit.
#[inline(always)]
fn columns(s: Sums) -> Sums
    requires size { SumsWithin 46546944 s }
    requires fits { (y i : ℕ)
        → y < 8 → i < 8 → Within 2130706431 (pass_at Inverse (column_at s i) y) }
    ensures { (y : ℕ) → y < 8 → AreColumnSums s y (sum_at result y) }
{
    let outer = s[0].lanes * i32x8::splat(2048) + i32x8::splat(HALF);
    let middle = s[4].lanes * i32x8::splat(2048);
    let inner0 = s[2].lanes * i32x8::splat(2676) + s[6].lanes * i32x8::splat(1108);
    let inner1 = s[2].lanes * i32x8::splat(1108) - s[6].lanes * i32x8::splat(2676);
    let even0 = outer + middle + inner0;
    let even1 = outer - middle + inner1;
    let even2 = outer - middle - inner1;
    let even3 = outer + middle - inner0;
    let odd0 = s[1].lanes * i32x8::splat(2841)
        + s[3].lanes * i32x8::splat(2408)
        + (s[5].lanes * i32x8::splat(1609) + s[7].lanes * i32x8::splat(565));
    let odd1 = s[1].lanes * i32x8::splat(2408)
        - s[3].lanes * i32x8::splat(565)
        - (s[5].lanes * i32x8::splat(2841) + s[7].lanes * i32x8::splat(1609));
    let odd2 = s[1].lanes * i32x8::splat(1609) - s[3].lanes * i32x8::splat(2841)
        + (s[5].lanes * i32x8::splat(565) + s[7].lanes * i32x8::splat(2408));
    let odd3 = s[1].lanes * i32x8::splat(565) - s[3].lanes * i32x8::splat(1609)
        + (s[5].lanes * i32x8::splat(2408) - s[7].lanes * i32x8::splat(2841));
    [
        Sum {
            lanes: even0 + odd0,
        },
        Sum {
            lanes: even1 + odd1,
        },
        Sum {
            lanes: even2 + odd2,
        },
        Sum {
            lanes: even3 + odd3,
        },
        Sum {
            lanes: even3 - odd3,
        },
        Sum {
            lanes: even2 - odd2,
        },
        Sum {
            lanes: even1 - odd1,
        },
        Sum {
            lanes: even0 - odd0,
        },
    ]
}

// The eight rows, divided and rounded, by rows.
#[inline(always)]
fn store_rounded(s: Sums, out: &mut [i16; 64])
    requires { SumsWithin (2 ^ 31 - 1) s }
    ensures { (r k : ℕ)
        → r < 8 → k < 8 → entry out.new r k ≡ int_shr (lane (sum_at s r) k) 25 }
{
    for r in 0..8 {
        store(quotients(s[r].lanes), r, out);
    }
}

// Eight sums divided by 2^25, downwards.
#[inline(always)]
fn quotients(v: i32x8) -> i16x8
    requires { EightWithin (2 ^ 31 - 1) v }
    ensures value { (i : ℕ) → i < 8 → lane result i ≡ int_shr (lane v i) 25 }
    ensures size { EightWithin 64 result }
{
    (v >> i32x8::splat(ROUNDED_BITS)).cast()
}

#[inline(always)]
pub(crate) fn store(v: i16x8, r: usize, out: &mut [i16; 64])
    requires v { EightWithin 32000 v }
    requires r { r < 8 }
    ensures { out.new ≡ put_chunk (8 * r) out.old v }
{
    v.copy_to_slice(&mut out[8 * r..]);
}
