//! Whether a vector is in reach.
ghost use Rattle.std.specs.Prelude.{◌≤ℤ◌, ◌↔◌, IsTrue};
ghost use Rattle.h263_types.specs.Vectors.{IsWithin};

use h263_types::{Reach, Vector};

// Whether a vector is between the least and the greatest ones.
#[inline(always)]
pub(crate) fn is_within(reach: Reach, vector: Vector) -> bool
    ensures { IsTrue result ↔ IsWithin reach vector.x vector.y }
{
    is_across(reach, vector) && is_down(reach, vector)
}

// Whether two vectors are.
#[inline(always)]
pub(crate) fn are_within(reach: Reach, one: Vector, other: Vector) -> bool
    ensures { IsTrue result ↔ (IsWithin reach one.x one.y × IsWithin reach other.x other.y) }
{
    is_within(reach, one) && is_within(reach, other)
}

#[inline(always)]
fn is_across(reach: Reach, vector: Vector) -> bool
    ensures { IsTrue result ↔ ((reach.left ≤ℤ vector.x) × (vector.x ≤ℤ reach.right)) }
{
    reach.left <= vector.x && vector.x <= reach.right
}

#[inline(always)]
fn is_down(reach: Reach, vector: Vector) -> bool
    ensures { IsTrue result ↔ ((reach.up ≤ℤ vector.y) × (vector.y ≤ℤ reach.down)) }
{
    reach.up <= vector.y && vector.y <= reach.down
}
