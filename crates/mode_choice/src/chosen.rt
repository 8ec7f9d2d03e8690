//! What is chosen of a macroblock, and what its vector predicts.
ghost use Rattle.std.specs.Prelude.{◌≤◌, ◌<◌};
ghost use Rattle.h263_types.specs.Sizes.{mbs_of};
ghost use Rattle.h263_types.specs.Vectors.{InReach};
ghost use Rattle.h263_planes.specs.Lent.{picture};
ghost use Rattle.half_sample.specs.Macroblock.{IsPredicted};

use h263_planes::PictureRef;
use h263_types::{MarkedMb, Vector};
use half_sample::{Predicted, colours, luma};
use motion_search::KeptSums;

/// A macroblock as it is chosen, with its marks, and the samples that the vector of an inter
/// macroblock predicts: so that none of this need be found again to write or to reconstruct it. With
/// any other macroblock the samples are left over from an earlier one. The sums of the reference are
/// those that the search keeps for the next macroblock.
#[derive(Drop)]
pub struct Chosen {
    pub marked: MarkedMb,
    pub predicted: Predicted,
    pub sums: KeptSums,
}

impl Chosen {
    ghost use Rattle.std.specs.Prelude.{◌≡◌, replicate, Option};
    ghost use Rattle.h263_types.specs.declared.blocks.Mb.TheVariants.{Skip};
    ghost use Rattle.h263_planes.specs.Picture.{Picture};
    ghost use Rattle.motion_search.specs.Areas.{AreSumsOfAny};

    /// A place for what is chosen, one macroblock after the other.
    pub fn new() -> Chosen
        ensures mb { result.marked.mb ≡ Skip }
        ensures y { result.predicted.y ≡ replicate 256 0 }
        ensures cb { result.predicted.cb ≡ replicate 64 0 }
        ensures cr { result.predicted.cr ≡ replicate 64 0 }
        ensures sums { (reference : Option Picture) → AreSumsOfAny reference result.sums }
    {
        Chosen {
            marked: MarkedMb::skip(),
            predicted: Predicted {
                y: [0; 256],
                cb: [0; 64],
                cr: [0; 64],
            },
            sums: KeptSums::none(),
        }
    }
}

// The samples that a vector predicts for macroblock `mb` in the three planes, into their place.
pub(crate) fn predict_into(
    reference: PictureRef<'_>,
    mb: u32,
    vector: Vector,
    rounding: u8,
    out: &mut Predicted,
)
    requires mb { mb < mbs_of (picture reference).format }
    requires reach { InReach (picture reference).format mb vector.x vector.y }
    requires rounding { rounding ≤ 1 }
    ensures { IsPredicted (picture reference.entry) mb vector rounding out.new }
{
    luma(reference, mb, vector, rounding, &mut out.y);
    colours(reference, mb, vector, rounding, &mut out.cb, &mut out.cr);
}
