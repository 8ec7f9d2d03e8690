//! One pass of a transform over eight lists of eight numbers at once: lane i of each vector belongs
//! to list i, and each list has eight sums of eight terms. M is the table of the basis, by
//! frequency and place.
ghost use Rattle.std.specs.Prelude.{◌≡◌, ℕ, ◌^◌, ◌<◌};
ghost use Rattle.idct8.specs.Vectors.{lane, RowsWithin, SumsWithin, list_at, sum_at};
ghost use Rattle.idct8.specs.Passes.{pass_at};
ghost use Rattle.idct8.specs.declared.passes.Direction.TheVariants.{Inverse, Forward};

use crate::terms::{four_products, halves, mirrored, mirrored_less, pair, pair_of_sums, rotated};
use std::simd::prelude::*;

// Which of the two transforms.
#[derive(Clone, Copy)]
pub(crate) enum Direction {
    Inverse,
    Forward,
}

// Eight small numbers. The borrow checker takes an array of such structs, but none of vectors.
#[derive(Clone, Copy)]
pub(crate) struct Row {
    pub(crate) lanes: i16x8,
}

// Eight sums.
#[derive(Clone, Copy)]
pub(crate) struct Sum {
    pub(crate) lanes: i32x8,
}

pub(crate) type Rows = [Row; 8];

pub(crate) type Sums = [Sum; 8];

// For each x the sum over u of M[u][x] * r[u]. The even rows of M are symmetric and the odd ones
// antisymmetric, so x and 7 - x share their two halves; the even halves are mirrored once more.
#[inline(always)]
fn inverse_pass(r: Rows) -> Sums
    requires { RowsWithin 8191 r }
    ensures sums { (x i : ℕ)
        → x < 8 → i < 8 → lane (sum_at result x) i ≡ pass_at Inverse (list_at r i) x }
    ensures size { SumsWithin (2 ^ 30) result }
{
    let (outer_sum, outer_difference) = rotated(2048, r[0].lanes, 2048, r[4].lanes);
    let (inner_sum, inner_difference) = rotated(2676, r[2].lanes, 1108, r[6].lanes);
    let (even0, even3) = halves(outer_sum, inner_sum);
    let (even1, even2) = halves(outer_difference, inner_difference);
    let (odd0a, odd3a) = rotated(2841, r[1].lanes, 565, r[7].lanes);
    let (odd0b, odd3b) = rotated(1609, r[5].lanes, 2408, r[3].lanes);
    let (odd2a, odd1a) = rotated(1609, r[1].lanes, 2408, r[7].lanes);
    let (odd1b, odd2b) = rotated(565, r[3].lanes, 2841, r[5].lanes);
    let (s0, s7) = mirrored(even0, odd0a, odd0b);
    let (s1, s6) = mirrored_less(even1, odd1a, odd1b);
    let (s2, s5) = mirrored_less(even2, odd2a, odd2b);
    let (s3, s4) = mirrored(even3, odd3a, odd3b);
    [
        Sum { lanes: s0 },
        Sum { lanes: s1 },
        Sum { lanes: s2 },
        Sum { lanes: s3 },
        Sum { lanes: s4 },
        Sum { lanes: s5 },
        Sum { lanes: s6 },
        Sum { lanes: s7 },
    ]
}

// For each u the sum over x of M[u][x] * r[x]: the even sums need only r[x] + r[7 - x], which are
// mirrored once more, the odd ones only r[x] - r[7 - x].
#[inline(always)]
fn forward_pass(r: Rows) -> Sums
    requires { RowsWithin 8191 r }
    ensures sums { (u i : ℕ)
        → u < 8 → i < 8 → lane (sum_at result u) i ≡ pass_at Forward (list_at r i) u }
    ensures size { SumsWithin (2 ^ 30) result }
{
    let (p0, m0) = pair(r[0].lanes, r[7].lanes);
    let (p1, m1) = pair(r[1].lanes, r[6].lanes);
    let (p2, m2) = pair(r[2].lanes, r[5].lanes);
    let (p3, m3) = pair(r[3].lanes, r[4].lanes);
    let (q0, r0) = pair_of_sums(p0, p3);
    let (q1, r1) = pair_of_sums(p1, p2);
    let (s0, s4) = rotated(2048, q0, 2048, q1);
    let (s2, s6) = rotated(2676, r0, 1108, r1);
    let s1 = four_products((2841, 2408, 1609, 565), m0, m1, m2, m3);
    let s3 = four_products((2408, -565, -2841, -1609), m0, m1, m2, m3);
    let s5 = four_products((1609, -2841, 565, 2408), m0, m1, m2, m3);
    let s7 = four_products((565, -1609, 2408, -2841), m0, m1, m2, m3);
    [
        Sum { lanes: s0 },
        Sum { lanes: s1 },
        Sum { lanes: s2 },
        Sum { lanes: s3 },
        Sum { lanes: s4 },
        Sum { lanes: s5 },
        Sum { lanes: s6 },
        Sum { lanes: s7 },
    ]
}

// The eight sums of a pass over each of the eight lists.
#[inline(always)]
pub(crate) fn pass(direction: Direction, r: Rows) -> Sums
    requires { RowsWithin 8191 r }
    ensures sums { (k i : ℕ)
        → k < 8 → i < 8 → lane (sum_at result k) i ≡ pass_at direction (list_at r i) k }
    ensures size { SumsWithin (2 ^ 30) result }
{
    match direction {
        Direction::Inverse => inverse_pass(r),
        Direction::Forward => forward_pass(r),
    }
}
