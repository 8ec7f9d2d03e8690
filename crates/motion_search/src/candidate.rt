//! Vectors with their costs, and which of them comes first.
ghost use Rattle.std.specs.Prelude.{◌≡◌, ◌≤◌, ◌↔◌, pos, ◌-ℤ◌, ◌<ℤ◌, IsTrue};
ghost use Rattle.motion_search.specs.Order.{length_of, compared, earlier_of};
ghost use Rattle.motion_search.specs.Cost.{lead_of, IsCost};

use h263_types::Vector;
use std::cmp::Ordering;

// A vector and its cost.
#[derive(Clone, Copy)]
pub(crate) struct Candidate {
    pub(crate) vector: Vector,
    pub(crate) cost: i32,
}

// How far a vector leads, across and down.
fn length(vector: Vector) -> u16
    ensures { result ≡ length_of vector }
{
    u16::from(vector.x.unsigned_abs()) + u16::from(vector.y.unsigned_abs())
}

// By the cost, then by how far the vector leads, then by its vertical and its horizontal component.
fn compare(a: Candidate, b: Candidate) -> Ordering
    ensures { result ≡ compared a b }
{
    let by_cost = a.cost.cmp(&b.cost);
    let by_length = length(a.vector).cmp(&length(b.vector));
    let by_row = a.vector.y.cmp(&b.vector.y);
    let by_column = a.vector.x.cmp(&b.vector.x);
    by_cost.then(by_length.then(by_row.then(by_column)))
}

// Whether a candidate costs more than another.
#[inline(always)]
fn is_dearer(one: Candidate, other: Candidate) -> bool
    ensures { IsTrue result ↔ (other.cost <ℤ one.cost) }
{
    one.cost > other.cost
}

// The one of two candidates that comes first. Mostly the cost alone tells.
pub(crate) fn first(best: Candidate, other: Candidate) -> Candidate
    ensures { result ≡ earlier_of best other }
{
    if is_dearer(other, best) {
        best
    } else if compare(other, best).is_lt() {
        other
    } else {
        best
    }
}

// What the zero vector has ahead of all others.
pub(crate) fn lead(vector: Vector) -> u32
    ensures value { result ≡ lead_of vector }
    ensures most { result ≤ 100 }
{
    if vector.x == 0 && vector.y == 0 {
        100
    } else {
        0
    }
}

// A vector whose differences are `sum`.
pub(crate) fn with_differences(vector: Vector, sum: u32) -> Candidate
    requires sum { sum ≤ 65280 }
    ensures candidate { result
        ≡ record { vector = vector; cost = pos sum -ℤ pos (lead_of vector) } }
    ensures cost { IsCost result.cost }
{
    Candidate {
        vector,
        cost: sum as i32 - lead(vector) as i32,
    }
}

// Whether no other candidate comes before one: a cost below 0 is the zero vector's alone.
pub(crate) fn is_settled(best: Candidate) -> bool
    ensures { IsTrue result ↔ (best.cost <ℤ pos 0) }
{
    best.cost < 0
}
