//! Vectors whose prediction is computed.
ghost use Rattle.std.specs.Prelude.{◌≡◌, ◌<◌, ◌≤◌};
ghost use Rattle.h263_types.specs.Sizes.{mbs_of};
ghost use Rattle.h263_types.specs.Vectors.{InReach};
ghost use Rattle.h263_planes.specs.Lent.{picture};
ghost use Rattle.motion_search.specs.Order.{earlier_of};
ghost use Rattle.motion_search.specs.Cost.{candidate_of, IsCost};

use crate::around::differences_of_one;
use crate::candidate::{Candidate, first, with_differences};
use h263_planes::PictureRef;
use h263_types::Vector;

// The first of the best one and a vector in reach.
pub(crate) fn better_predicted(
    block: &[u8; 256],
    reference: PictureRef<'_>,
    mb: u32,
    rounding: u8,
    vector: Vector,
    best: Candidate,
) -> Candidate
    requires mb { mb < mbs_of (picture reference).format }
    requires reach { InReach (picture reference).format mb vector.x vector.y }
    requires rounding { rounding ≤ 1 }
    requires cost { IsCost best.cost }
    ensures first { result
        ≡ earlier_of best (candidate_of block.now (picture reference.entry) mb rounding vector) }
    ensures cost { IsCost result.cost }
{
    let sum = differences_of_one(block, reference, mb, rounding, vector);
    first(best, with_differences(vector, sum))
}
