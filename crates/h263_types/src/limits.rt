//! How far the vectors of a macroblock may reach.
ghost use Rattle.std.specs.Prelude.{ℕ, ◌*◌, ◌<◌, ◌≤◌, ℤ, pos, ◌≤ℤ◌, neg_ℤ, ◌↔◌};
ghost use Rattle.h263_types.specs.Sizes.{mbs_of};
ghost use Rattle.h263_types.specs.Vectors.{InReach, InSide, IsWithin};

use crate::format::Format;
use crate::vector::Reach;

/// The reach of the vectors of macroblock `mb`, below `format.mbs()`: no sample that they refer to
/// lies outside the picture (H.263, 6.1.1; Annex D, which lets them point outside, isn't used).
pub fn reach(format: Format, mb: u32) -> Reach
    requires { mb < mbs_of format }
    ensures { (x y : ℤ) → InReach format mb x y ↔ IsWithin result x y }
{
    let columns = format.columns();
    let across = component_span(mb % columns, columns);
    let along = component_span(mb / columns, format.rows());
    Reach {
        left: across.least,
        right: across.most,
        up: along.least,
        down: along.most,
    }
}

// The least and the greatest of one component.
#[derive(Clone, Copy)]
struct Span {
    least: i8,
    most: i8,
}

// How far a component reaches from macroblock `at` of the `count` in a row or a column: by the
// whole range where a neighbour stands on that side, since 16 samples are more than half of 32, and
// not at all at an edge.
fn component_span(at: u32, count: u32) -> Span
    requires at { at < count }
    requires some { 3 ≤ count }
    requires count { count ≤ 100 }
    ensures { (v : ℤ) → ((neg_ℤ (pos 32) ≤ℤ v) × (v ≤ℤ pos 31) × InSide (16 * at) (16 * count) v)
        ↔ ((result.least ≤ℤ v) × (v ≤ℤ result.most)) }
{
    let least = if at == 0 { 0 } else { -32 };
    let most = if at + 1 == count { 0 } else { 31 };
    Span { least, most }
}
