//! The vectors of whole samples by strips: sixteen columns of the square around zero, from its
//! uppermost row down.
ghost use Rattle.std.specs.Prelude.{◌≡◌, ℕ, ◌+◌, ◌*◌, ◌<◌, ◌≤◌, pos, ◌≤ℤ◌, replicate};
ghost use Rattle.std.specs.Int.{bit_at};
ghost use Rattle.h263_types.specs.Sizes.{width_of};
ghost use Rattle.h263_planes.specs.Lent.{picture};
ghost use Rattle.sad_kernel.specs.Differences.{differences};
ghost use Rattle.motion_search.specs.Cost.{square, IsCost};
ghost use Rattle.motion_search.specs.Vectors.{whole_component};
ghost use Rattle.motion_search.specs.SoFar.{HasLimit, HoldsAround, IsNoBetter, IsNoWorse, IsBestSoFar};
ghost use Rattle.motion_search.specs.Areas.{AreQuarters, AreSumsOf, samples_from};

use crate::areas::{Quarters, half_away, marks_of};
use crate::candidate::Candidate;
use crate::kept::{KeptSums, STRIDE};
use crate::lent::better_whole;
use crate::marks::{lowest, without};
use crate::square::{across, down, end_in, first_in, place, whole_vector};
use crate::window::Window;
use std::simd::prelude::*;

// The best one so far, and what the differences of a vector may be at most for it to be looked at:
// as a number, and in each of sixteen lanes, by which vectors are ruled out.
#[derive(Clone, Copy)]
struct Leader {
    best: Candidate,
    most: u16,
    limit: u16x16,
}

// A candidate as the best one so far.
#[inline(always)]
fn led_by(best: Candidate) -> Leader
    requires cost { IsCost best.cost }
    ensures best { result.best ≡ best }
    ensures most { HasLimit result }
{
    let most = most(best);
    Leader {
        best,
        most,
        limit: u16x16::splat(most),
    }
}

// What a candidate may cost to be looked at, at most: nothing costs less than 0 but the zero
// vector.
#[inline(always)]
fn most(best: Candidate) -> u16
    requires cost { IsCost best.cost }
    ensures { best.cost ≤ℤ pos result }
{
    if best.cost < 0 { 0 } else { best.cost as u16 }
}

// Of the sixteen vectors that lead to sixteen columns beside each other of one row, those whose
// differences may be within the limit, which is the same in all lanes, by the sums of quarters, which
// stand from place `at` on: bit i for the one in column i.
#[inline(always)]
fn marks_in_row(
    window: Window<'_>,
    quarters: Quarters,
    sums: &KeptSums,
    at: usize,
    limit: u16x16,
) -> u64
    requires quarters { AreQuarters window.block.now quarters }
    requires sums { AreSumsOf (picture window.reference) sums.now }
    requires room { at + 3096 ≤ 14976 }
    ensures { (x y most i : ℕ) → sums.now.first ≤ y → y + 8 < sums.now.end
        → at + 384 * sums.now.first ≡ 384 * y + x
        → limit ≡ replicate 16 most → i < 16 → bit_at result i ≡ 0
        → x + i + 16 ≤ width_of (picture window.entry.reference).format
        → most < differences window.entry.block.now (square (λ k j. samples_from
        (picture window.entry.reference) x (i + k) (y + j))) }
{
    let upper = half_away(&sums.sums, at, quarters.top_left, quarters.top_right);
    let below = at + 8 * STRIDE;
    let lower = half_away(
        &sums.sums,
        below,
        quarters.bottom_left,
        quarters.bottom_right,
    );
    marks_of(upper, lower, limit)
}

// The first of the best one and the vector in a column and a row, where that is in the square and
// in reach. The row is known to be in reach, and the column to be far enough to the right, so one
// test is left.
#[inline(always)]
fn better_in_row(window: Window<'_>, column: u32, row: u32, best: Candidate) -> Candidate
    requires row { row ≤ 2 * window.radius }
    requires down { (window.reach.up ≤ℤ whole_component window.radius row)
        × (whole_component window.radius row ≤ℤ window.reach.down) }
    requires left { window.reach.left ≤ℤ whole_component window.radius column }
    requires so_far { IsBestSoFar window best }
    ensures so_far { IsBestSoFar window.entry result }
    ensures kept { IsNoWorse best result }
    ensures none { column < 2 * window.entry.radius + 1
        → IsNoBetter window.entry column row result }
{
    let across = across(window.reach);
    let end = end_in(window.radius, across);
    if column < end {
        let vector = whole_vector(window.radius, column, row);
        let x = place(window.left, column, window.radius);
        let y = place(window.top, row, window.radius) as u16;
        better_whole(window, x, y, vector, best)
    } else {
        best
    }
}

// The first of the best one and those of sixteen vectors beside each other that are marked. The
// others don't come before it.
#[inline(always)]
fn best_of_marked(
    window: Window<'_>,
    column: u32,
    row: u32,
    marks: u64,
    best: Candidate,
) -> Candidate
    requires column { column ≤ 2 * window.radius }
    requires row { row ≤ 2 * window.radius }
    requires down { (window.reach.up ≤ℤ whole_component window.radius row)
        × (whole_component window.radius row ≤ℤ window.reach.down) }
    requires left { window.reach.left ≤ℤ whole_component window.radius column }
    requires so_far { IsBestSoFar window best }
    requires others { (i : ℕ)
        → i < 16 → bit_at marks i ≡ 0 → IsNoBetter window (column + i) row best }
    ensures so_far { IsBestSoFar window.entry result }
    ensures kept { IsNoWorse best result }
    ensures none { (i : ℕ) → i < 16 → column + i < 2 * window.entry.radius + 1
        → IsNoBetter window.entry (column + i) row result }
{
    let mut first = best;
    let mut left = marks;
    while left != 0 {
        let i = lowest(left);
        first = better_in_row(window, column + i, row, first);
        left = without(left, i);
    }
    first
}

// The first of the best one and the vectors in sixteen columns of the square from `column` on. A row
// without marks leaves the limit as it stands in its lanes. The place of a row's sums runs on.
#[inline(always)]
pub(crate) fn best_of_strip(
    window: Window<'_>,
    quarters: Quarters,
    sums: &KeptSums,
    column: u32,
    best: Candidate,
) -> Candidate
    requires column { column ≤ 2 * window.radius }
    requires across { (window.reach.left ≤ℤ whole_component window.radius column)
        × (whole_component window.radius column ≤ℤ window.reach.right) }
    requires quarters { AreQuarters window.block.now quarters }
    requires sums { AreSumsOf (picture window.reference) sums.now }
    requires held { HoldsAround window sums.now }
    requires so_far { IsBestSoFar window best }
    ensures so_far { IsBestSoFar window.entry result }
    ensures kept { IsNoWorse best result }
    ensures none { (m i : ℕ) → m < 2 * window.entry.radius + 1 → i < 16
        → column + i < 2 * window.entry.radius + 1 → IsNoBetter window.entry (column + i) m result }
{
    let x = place(window.left, column, window.radius);
    let down = down(window.reach);
    let first_row = first_in(window.radius, down);
    let top = place(window.top, first_row, window.radius);
    let mut at = STRIDE * (top - sums.first) as usize + x as usize;
    let mut first = led_by(best);
    for row in first_row..end_in(window.radius, down) {
        let marks = marks_in_row(window, quarters, sums, at, first.limit);
        at += STRIDE;
        if marks != 0 {
            first = led_by(best_of_marked(window, column, row, marks, first.best));
        }
    }
    first.best
}
