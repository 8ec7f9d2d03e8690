//! The zero vector, from which the search begins.
ghost use Rattle.std.specs.Prelude.{◌≡◌, ◌<◌};
ghost use Rattle.h263_types.specs.Sizes.{mbs_of};
ghost use Rattle.h263_planes.specs.Lent.{picture};
ghost use Rattle.motion_search.specs.Cost.{candidate_of, IsCost};
ghost use Rattle.motion_search.specs.Vectors.{zero_vector};

use crate::candidate::{Candidate, with_differences};
use crate::lent::differences_at;
use h263_planes::{PictureRef, mb_place};
use h263_types::Vector;

// The zero vector with its cost.
pub(crate) fn zero(block: &[u8; 256], reference: PictureRef<'_>, mb: u32) -> Candidate
    requires mb { mb < mbs_of (picture reference).format }
    ensures candidate { result ≡ candidate_of block.now (picture reference.entry) mb 0 zero_vector }
    ensures cost { IsCost result.cost }
{
    let (column, row) = mb_place(reference.format(), mb);
    with_differences(
        Vector::ZERO,
        differences_at(block, reference, 16 * column, (16 * row) as u16),
    )
}
