//! Sums of absolute differences of samples, sixteen at a time.
//!
//! [`sad`] gives the whole sum, [`sad_until`] gives up where it comes to a bound, and
//! [`sad_of_four`] sums four rows together.
//!
//! ```rust
//! let a = [10, 20, 30, 40];
//! let b = [11, 18, 33, 36];
//! assert_eq!(rt; sad(&a, &b), 10);
//! assert_eq!(rt; (sad_until(&a, &b, 10), sad_until(&a, &b, 11)), (None, Some(10)));
//! ```
#![tactic(auto)]

ghost use Rattle.std.specs.Prelude.{◌≡◌, ◌+◌, ◌*◌, ◌≤◌, ◌↔◌, length, slice_range, IsNone, IfSome};
ghost use Rattle.std.specs.Int.{abs_diff};
ghost use Rattle.std.specs.Simd.Lanes.{chunk, zip2, Each1};
ghost use Rattle.sad_kernel.specs.Differences.{differences};

pub mod laws;

use std::simd::prelude::*;

const LANES: usize = 16;

const GROUP: usize = 64;

/// The sum of the absolute differences of two lists of samples: from 0 to 255 times their length.
#[inline]
pub fn sad(a: &[u8], b: &[u8]) -> u32
    requires same_length { length a.now ≡ length b.now }
    requires at_most { length a.now ≤ 65536 }
    ensures value { result ≡ differences a.now b.now }
    ensures most { result ≤ 255 * length a.now }
{
    let mut total = 0;
    let mut at = 0;
    while a.len() - at >= GROUP {
        total += of_sixty_four(a, b, at);
        at += GROUP;
    }
    total + by_sixteen(&a[at..], &b[at..])
}

/// The sum of the absolute differences, or `None` exactly where it is at least `stop`. It asks after
/// each sixteen samples, and goes no further once the sum has come to `stop`.
#[inline]
pub fn sad_until(a: &[u8], b: &[u8], stop: u32) -> Option<u32>
    requires same_length { length a.now ≡ length b.now }
    requires at_most { length a.now ≤ 65536 }
    ensures none { IsNone result ↔ (stop ≤ differences a.now b.now) }
    ensures some { IfSome result (λ sum. sum ≡ differences a.now b.now) }
{
    let mut so_far = 0;
    let mut at = 0;
    while a.len() - at >= LANES {
        so_far += of_sixteen(a, b, at);
        at += LANES;
        if so_far >= stop {
            return None;
        }
    }
    let sum = so_far + one_by_one(&a[at..], &b[at..]);
    if sum >= stop { None } else { Some(sum) }
}

// The sum of the differences by sixteen samples. Their lanes are added sixteen by sixteen, which is slower.
#[inline]
fn by_sixteen(a: &[u8], b: &[u8]) -> u32
    requires same_length { length a.now ≡ length b.now }
    requires at_most { length a.now ≤ 65536 }
    ensures { result ≡ differences a.now b.now }
{
    let mut total = 0;
    let mut at = 0;
    while a.len() - at >= LANES {
        total += of_sixteen(a, b, at);
        at += LANES;
    }
    total + one_by_one(&a[at..], &b[at..])
}

/// The sum of the absolute differences of four pairs of rows, each of sixteen samples.
#[inline(always)]
pub fn sad_of_four(
    first: (&[u8], &[u8]),
    second: (&[u8], &[u8]),
    third: (&[u8], &[u8]),
    fourth: (&[u8], &[u8]),
) -> u32
    requires first { (length first.0.now ≡ 16) × (length first.1.now ≡ 16) }
    requires second { (length second.0.now ≡ 16) × (length second.1.now ≡ 16) }
    requires third { (length third.0.now ≡ 16) × (length third.1.now ≡ 16) }
    requires fourth { (length fourth.0.now ≡ 16) × (length fourth.1.now ≡ 16) }
    ensures most { result ≤ 16320 }
    ensures value { result ≡ differences first.entry.0.now first.entry.1.now
        + differences second.entry.0.now second.entry.1.now + differences
        third.entry.0.now third.entry.1.now + differences fourth.entry.0.now fourth.entry.1.now }
{
    let upper = lanes(first.0, first.1, 0).strict_add(lanes(second.0, second.1, 0));
    let lower = lanes(third.0, third.1, 0).strict_add(lanes(fourth.0, fourth.1, 0));
    upper.strict_add(lower).strict_reduce_sum()
}

// The absolute differences of sixteen samples from `at` on. Of both differences, which wrap, it is
// the smaller one: the compiler knows this form, and sums it up by one instruction.
#[inline(always)]
fn lanes(a: &[u8], b: &[u8], at: usize) -> u32x16
    requires a { at + LANES ≤ length a.now }
    requires b { at + LANES ≤ length b.now }
    ensures value { result ≡ zip2 abs_diff (chunk at LANES a.now) (chunk at LANES b.now) }
    ensures length { length result ≡ LANES }
    ensures most { Each1 (λ d. d ≤ 255) result }
{
    let x: u32x16 = u8x16::from_slice(&a[at..]).cast();
    let y: u32x16 = u8x16::from_slice(&b[at..]).cast();
    (x - y).simd_min(y - x)
}

// Sixteen samples from `at` on.
#[inline(always)]
fn sixteen(samples: &[u8], at: usize) -> &[u8]
    requires { at + LANES ≤ length samples.now }
    ensures value { result.now ≡ slice_range samples.now at (at + LANES) }
    ensures length { length result.now ≡ LANES }
{
    &samples[at..at + LANES]
}

// The differences of sixty-four samples from `at` on.
#[inline(always)]
fn of_sixty_four(a: &[u8], b: &[u8], at: usize) -> u32
    requires a { at + GROUP ≤ length a.now }
    requires b { at + GROUP ≤ length b.now }
    ensures { result ≡ differences (chunk at GROUP a.now) (chunk at GROUP b.now) }
{
    sad_of_four(
        (sixteen(a, at), sixteen(b, at)),
        (sixteen(a, at + 16), sixteen(b, at + 16)),
        (sixteen(a, at + 32), sixteen(b, at + 32)),
        (sixteen(a, at + 48), sixteen(b, at + 48)),
    )
}

// The differences of sixteen samples from `at` on.
#[inline(always)]
fn of_sixteen(a: &[u8], b: &[u8], at: usize) -> u32
    requires a { at + LANES ≤ length a.now }
    requires b { at + LANES ≤ length b.now }
    ensures { result ≡ differences (chunk at LANES a.now) (chunk at LANES b.now) }
{
    lanes(a, b, at).strict_reduce_sum()
}

// The differences of a list that is too short for lanes.
#[inline(always)]
fn one_by_one(a: &[u8], b: &[u8]) -> u32
    requires same_length { length a.now ≡ length b.now }
    requires at_most { length a.now ≤ 65536 }
    ensures { result ≡ differences a.now b.now }
{
    let mut total = 0;
    for i in 0..a.len() {
        total += u32::from(a[i].abs_diff(b[i]));
    }
    total
}
