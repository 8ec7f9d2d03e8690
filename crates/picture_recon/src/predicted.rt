//! Macroblocks that are predicted from the reference (H.263, 6.1 and 6.3).
ghost use Rattle.std.specs.Prelude.{◌≡◌, ℕ, ◌*◌, ◌<◌, ◌≤◌, ◌&&◌, All, length, nat_eq, if◌then◌else◌, Some};
ghost use Rattle.h263_types.specs.Blocks.{IsInterBlock, IsQuant};
ghost use Rattle.h263_types.specs.Sizes.{mbs_of};
ghost use Rattle.h263_types.specs.declared.blocks.Mb.TheVariants.{Inter};
ghost use Rattle.h263_types.specs.declared.vector.Vector.{Vector};
ghost use Rattle.h263_planes.specs.declared.Plane.{Plane};
ghost use Rattle.h263_planes.specs.Blocks.{mb_of};
ghost use Rattle.h263_planes.specs.Picture.{Picture};
ghost use Rattle.h263_planes.specs.Samples.{Inside, IsPicture, same_plane, sample_at};
ghost use Rattle.h263_planes.specs.Work.{loan_of, work};
ghost use Rattle.half_sample.specs.Macroblock.{IsPredicted};
ghost use Rattle.half_sample.specs.Prediction.{ArePredicted, columns_in, predicted_sample};
ghost use Rattle.picture_recon.specs.Marks.{AreMarkedIn};
ghost use Rattle.picture_recon.specs.Shown.{SetsMb};

use crate::coded::add_blocks;
use crate::squares::square_of;
use h263_planes::{PictureMut, Plane};
use h263_types::{Block, Format};
use half_sample::Predicted;

// Sets the samples of an inter macroblock: the predicted ones, and then those of the blocks that
// have levels, by their marks.
pub(crate) fn put_inter(
    predicted: &Predicted,
    quant: u8,
    blocks: &[Block; 6],
    marks: &[u64; 6],
    at: u32,
    out: &mut PictureMut<'_>,
)
    requires at { at < mbs_of (work out.old).format }
    requires quant { IsQuant quant }
    requires blocks { All IsInterBlock blocks.now }
    requires marks { AreMarkedIn blocks.now marks.now }
    requires whole { IsPicture (work out.old) }
    ensures same_loan { loan_of out.new ≡ loan_of out.old }
    ensures format { (work out.new).format ≡ (work out.old).format }
    ensures whole { IsPicture (work out.new) }
    ensures samples { (p : Picture) (v : Vector) (r : ℕ)
        → p.format ≡ (work out.old).format → IsPredicted p at v r predicted.now
        → SetsMb (work out.old).format r (Some p) at (Inter quant v blocks.now)
        (work out.old) (work out.new) }
{
    let format = out.format();
    put_predicted(predicted, at, format, out);
    add_blocks(quant, blocks, marks, at, format, out);
}

// Sets the samples of macroblock `at` to the predicted ones.
fn put_predicted(samples: &Predicted, at: u32, format: Format, out: &mut PictureMut<'_>)
    requires format { (work out.old).format ≡ format }
    requires at { at < mbs_of format }
    requires whole { IsPicture (work out.old) }
    ensures same_loan { loan_of out.new ≡ loan_of out.old }
    ensures format { (work out.new).format ≡ format }
    ensures whole { IsPicture (work out.new) }
    ensures samples { (p : Picture) (v : Vector) (r : ℕ)
        → p.format ≡ format → IsPredicted p at v r samples.now
        → (plane : Plane) (x y : ℕ) → Inside format plane x y 1
        → sample_at (work out.new) plane x y ≡ (if nat_eq (mb_of format plane x y) at
        then predicted_sample p plane x y v r else sample_at (work out.old) plane x y) }
{
    put_plane::<16>(Plane::Y, &samples.y, at, format, out);
    put_plane::<8>(Plane::Cb, &samples.cb, at, format, out);
    put_plane::<8>(Plane::Cr, &samples.cr, at, format, out);
}

// Sets the N x N samples of macroblock `at` in one plane, which are given by rows.
#[inline(always)]
fn put_plane<const N: usize>(
    plane: Plane,
    samples: &[u8],
    at: u32,
    format: Format,
    out: &mut PictureMut<'_>,
)
    requires format { (work out.old).format ≡ format }
    requires at { at < mbs_of format }
    requires least { 8 ≤ N }
    requires most { N ≤ 16 }
    requires size { N ≡ columns_in plane }
    requires samples { length samples.now ≡ N * N }
    requires whole { IsPicture (work out.old) }
    ensures same_loan { loan_of out.new ≡ loan_of out.old }
    ensures format { (work out.new).format ≡ format }
    ensures whole { IsPicture (work out.new) }
    ensures samples { (p : Picture) (v : Vector) (r : ℕ)
        → p.format ≡ format → ArePredicted N p plane at v r samples.now
        → (other : Plane) (x y : ℕ) → Inside format other x y 1 → sample_at (work out.new) other x y
        ≡ (if same_plane plane other && nat_eq (mb_of format other x y) at
        then predicted_sample p other x y v r else sample_at (work out.old) other x y) }
{
    let square = square_of(format, plane, at);
    out.set_square::<N>(plane, square.x, square.y, samples);
}
