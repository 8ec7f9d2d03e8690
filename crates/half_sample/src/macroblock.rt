//! The predicted samples of a macroblock.
ghost use Rattle.std.specs.Prelude.{◌≤◌, ◌<◌};
ghost use Rattle.h263_types.specs.Sizes.{mbs_of};
ghost use Rattle.h263_types.specs.Vectors.{InReach};
ghost use Rattle.h263_planes.specs.Lent.{picture};
ghost use Rattle.h263_planes.specs.declared.Plane.TheVariants.{Cb, Cr, Y};
ghost use Rattle.half_sample.specs.Macroblock.{IsPredicted};
ghost use Rattle.half_sample.specs.Prediction.{ArePredicted, IsColour};

use crate::block::{colour_blocks, luma_block};
use crate::place::{half_of, place_of};
use h263_planes::{PictureRef, Plane};
use h263_types::Vector;

/// The samples that a vector predicts for a macroblock, by rows from the top: 16 x 16 of Y, 8 x 8
/// of Cb and of Cr.
#[derive(Drop)]
pub struct Predicted {
    pub y: [u8; 256],
    pub cb: [u8; 64],
    pub cr: [u8; 64],
}

/// The samples that a vector predicts for macroblock `mb` in the three planes. `rounding` is the
/// picture's rounding bit, 0 or 1 (H.263, 6.1).
#[inline]
pub fn predict(reference: PictureRef<'_>, mb: u32, vector: Vector, rounding: u8) -> Predicted
    requires mb { mb < mbs_of (picture reference).format }
    requires reach { InReach (picture reference).format mb vector.x vector.y }
    requires rounding { rounding ≤ 1 }
    ensures { IsPredicted (picture reference.entry) mb vector rounding result }
{
    let mut samples = Predicted {
        y: [0; 256],
        cb: [0; 64],
        cr: [0; 64],
    };
    luma(reference, mb, vector, rounding, &mut samples.y);
    colours(
        reference,
        mb,
        vector,
        rounding,
        &mut samples.cb,
        &mut samples.cr,
    );
    samples
}

/// The 16 x 16 luma samples that a vector predicts for macroblock `mb`, by rows from the top.
/// `rounding` is the picture's rounding bit, 0 or 1 (H.263, 6.1.2).
pub fn luma(reference: PictureRef<'_>, mb: u32, vector: Vector, rounding: u8, out: &mut [u8; 256])
    requires mb { mb < mbs_of (picture reference).format }
    requires reach { InReach (picture reference).format mb vector.x vector.y }
    requires rounding { rounding ≤ 1 }
    ensures { ArePredicted 16 (picture reference.entry) Y mb vector rounding out.new }
{
    let place = place_of(reference, Plane::Y, mb, vector);
    let half = half_of(Plane::Y, vector);
    luma_block(reference, place, half, rounding, out);
}

/// The 8 x 8 samples of a colour, Cb or Cr, that the macroblock's luma vector predicts, by rows
/// from the top. The vector's quarters of a colour's sample are taken as halves (H.263, 6.1.1).
pub fn chroma(
    reference: PictureRef<'_>,
    plane: Plane,
    mb: u32,
    vector: Vector,
    rounding: u8,
    out: &mut [u8; 64],
)
    requires colour { IsColour plane }
    requires mb { mb < mbs_of (picture reference).format }
    requires reach { InReach (picture reference).format mb vector.x vector.y }
    requires rounding { rounding ≤ 1 }
    ensures { ArePredicted 8 (picture reference.entry) plane mb vector rounding out.new }
{
    let mut other = [0; 64];
    match plane {
        Plane::Cb => colours(reference, mb, vector, rounding, out, &mut other),
        _ => colours(reference, mb, vector, rounding, &mut other, out),
    }
}

/// The same for both colours at once, which takes little longer than for one: their samples stand
/// beside one another in lanes.
pub fn colours(
    reference: PictureRef<'_>,
    mb: u32,
    vector: Vector,
    rounding: u8,
    cb: &mut [u8; 64],
    cr: &mut [u8; 64],
)
    requires mb { mb < mbs_of (picture reference).format }
    requires reach { InReach (picture reference).format mb vector.x vector.y }
    requires rounding { rounding ≤ 1 }
    ensures cb { ArePredicted 8 (picture reference.entry) Cb mb vector rounding cb.new }
    ensures cr { ArePredicted 8 (picture reference.entry) Cr mb vector rounding cr.new }
{
    let place = place_of(reference, Plane::Cb, mb, vector);
    let half = half_of(Plane::Cb, vector);
    colour_blocks(reference, place, half, rounding, cb, cr);
}
