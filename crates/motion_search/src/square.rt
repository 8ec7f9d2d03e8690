//! The square of the vectors of whole samples around zero.
ghost use Rattle.std.specs.Prelude.{◌≡◌, ℕ, ◌+◌, ◌*◌, ◌<◌, ◌≤◌, ◌↔◌, pos, ◌≤ℤ◌, false, if◌then◌else◌};
ghost use Rattle.h263_types.specs.Vectors.{whole_place};
ghost use Rattle.h263_planes.specs.Lent.{picture};
ghost use Rattle.motion_search.specs.Order.{before, earlier_of};
ghost use Rattle.motion_search.specs.Cost.{candidate_of, IsCost};
ghost use Rattle.motion_search.specs.Vectors.{in_reach, whole_at, whole_component, zero_vector};

use crate::candidate::Candidate;
use crate::lent::better_whole;
use crate::window::Window;
use crate::within::is_within;
use h263_types::{Reach, Vector};

// The vector in column `column` of row `row` of the square around zero.
#[inline(always)]
pub(crate) fn whole_vector(radius: u8, column: u32, row: u32) -> Vector
    requires radius { radius ≤ 15 }
    requires column { column ≤ 2 * radius }
    requires row { row ≤ 2 * radius }
    ensures { result ≡ whole_at radius column row }
{
    let middle = (2 * radius) as i8;
    Vector {
        x: (2 * column) as i8 - middle,
        y: (2 * row) as i8 - middle,
    }
}

// The least and the greatest component of the vectors in reach, across or down.
#[derive(Clone, Copy)]
pub(crate) struct Side {
    pub(crate) least: i8,
    pub(crate) most: i8,
}

// The side across.
#[inline(always)]
pub(crate) fn across(reach: Reach) -> Side
    ensures least { result.least ≡ reach.left }
    ensures most { result.most ≡ reach.right }
{
    Side {
        least: reach.left,
        most: reach.right,
    }
}

// The side down.
#[inline(always)]
pub(crate) fn down(reach: Reach) -> Side
    ensures least { result.least ≡ reach.up }
    ensures most { result.most ≡ reach.down }
{
    Side {
        least: reach.up,
        most: reach.down,
    }
}

// The first column or row of the square whose vectors lead no further back than the reach.
#[inline(always)]
pub(crate) fn first_in(radius: u8, side: Side) -> u32
    requires radius { radius ≤ 15 }
    ensures { (n : ℕ) → (result ≤ n) ↔ (side.least ≤ℤ whole_component radius n) }
{
    let least = i32::from(side.least) + 2 * i32::from(radius);
    if least <= 0 {
        0
    } else {
        (least as u32 + 1) / 2
    }
}

// The column or row after the last one whose vectors lead no further on than the reach.
#[inline(always)]
pub(crate) fn end_in(radius: u8, side: Side) -> u32
    requires radius { radius ≤ 15 }
    ensures { (n : ℕ)
        → (n < result) ↔ ((n < 2 * radius + 1) × (whole_component radius n ≤ℤ side.most)) }
{
    let end = 2 * u32::from(radius) + 1;
    let most = i32::from(side.most) + 2 * i32::from(radius);
    if most < 0 {
        0
    } else if most as u32 / 2 + 1 < end {
        most as u32 / 2 + 1
    } else {
        end
    }
}

// Where the vectors in column or row `k` of the square lead to from `at` on.
#[inline(always)]
pub(crate) fn place(at: u32, k: u32, radius: u8) -> u32
    requires at { at < 60000 }
    requires k { k ≤ 2 * radius }
    requires radius { radius ≤ 15 }
    requires inside { pos 0 ≤ℤ whole_place at (whole_component radius k) }
    ensures place { pos result ≡ whole_place at (whole_component radius k) }
    ensures most { result < 65536 }
{
    at + k - u32::from(radius)
}

// The column or the row of the square that lies nearest to a component of any vector.
#[inline(always)]
pub(crate) fn nearest(radius: u8, component: i8) -> u32
    requires { radius ≤ 15 }
    ensures { result ≤ 2 * radius }
{
    let most = 2 * i32::from(radius);
    let place = (i32::from(component) + most) / 2;
    if place < 0 {
        0
    } else if place > most {
        most as u32
    } else {
        place as u32
    }
}

// The first of the best one and the vector in a column and a row of the square, where that is in
// reach.
#[inline(always)]
pub(crate) fn better_at(window: Window<'_>, column: u32, row: u32, best: Candidate) -> Candidate
    requires column { column ≤ 2 * window.radius }
    requires row { row ≤ 2 * window.radius }
    requires zero { before (candidate_of window.block.now
        (picture window.reference) window.mb 0 zero_vector) best ≡ false }
    requires cost { IsCost best.cost }
    ensures first { result ≡ (if in_reach (picture window.entry.reference).format window.entry.mb
        (whole_at window.entry.radius column row)
        then earlier_of best (candidate_of window.entry.block.now (picture window.entry.reference)
        window.entry.mb 0 (whole_at window.entry.radius column row)) else best) }
    ensures cost { IsCost result.cost }
{
    let vector = whole_vector(window.radius, column, row);
    if is_within(window.reach, vector) {
        let x = place(window.left, column, window.radius);
        let y = place(window.top, row, window.radius) as u16;
        better_whole(window, x, y, vector, best)
    } else {
        best
    }
}
