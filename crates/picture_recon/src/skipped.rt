//! Macroblocks that are not coded: the reference's samples at the same place (H.263, 5.3.1).
ghost use Rattle.std.specs.Prelude.{◌≡◌, ℕ, ◌<◌, ◌≤◌, ◌&&◌, nat_eq, if◌then◌else◌};
ghost use Rattle.h263_types.specs.Sizes.{mbs_of};
ghost use Rattle.h263_planes.specs.declared.Plane.{Plane};
ghost use Rattle.h263_planes.specs.Blocks.{mb_of};
ghost use Rattle.h263_planes.specs.Lent.{picture};
ghost use Rattle.h263_planes.specs.Samples.{Inside, IsPicture, same_plane, sample_at};
ghost use Rattle.h263_planes.specs.Work.{loan_of, work};
ghost use Rattle.half_sample.specs.Prediction.{columns_in};

use crate::squares::square_of;
use h263_planes::{PictureMut, PictureRef, Plane};
use h263_types::Format;

// Copies the samples of macroblock `at`.
pub(crate) fn put_skipped(
    reference: PictureRef<'_>,
    at: u32,
    format: Format,
    out: &mut PictureMut<'_>,
)
    requires reference { (picture reference).format ≡ format }
    requires format { (work out.old).format ≡ format }
    requires at { at < mbs_of format }
    requires whole { IsPicture (work out.old) }
    ensures same_loan { loan_of out.new ≡ loan_of out.old }
    ensures format { (work out.new).format ≡ format }
    ensures whole { IsPicture (work out.new) }
    ensures samples { (plane : Plane) (x y : ℕ) → Inside format plane x y 1
        → sample_at (work out.new) plane x y ≡ (if nat_eq (mb_of format plane x y) at then sample_at
        (picture reference.entry) plane x y else sample_at (work out.old) plane x y) }
{
    copy_in_plane::<16>(reference, Plane::Y, at, format, out);
    copy_in_plane::<8>(reference, Plane::Cb, at, format, out);
    copy_in_plane::<8>(reference, Plane::Cr, at, format, out);
}

// Copies the N x N samples of macroblock `at` in one plane.
#[inline(always)]
fn copy_in_plane<const N: usize>(
    reference: PictureRef<'_>,
    plane: Plane,
    at: u32,
    format: Format,
    out: &mut PictureMut<'_>,
)
    requires reference { (picture reference).format ≡ format }
    requires format { (work out.old).format ≡ format }
    requires at { at < mbs_of format }
    requires least { 8 ≤ N }
    requires most { N ≤ 16 }
    requires size { N ≡ columns_in plane }
    requires whole { IsPicture (work out.old) }
    ensures same_loan { loan_of out.new ≡ loan_of out.old }
    ensures format { (work out.new).format ≡ format }
    ensures whole { IsPicture (work out.new) }
    ensures samples { (other : Plane) (x y : ℕ)
        → Inside format other x y 1 → sample_at (work out.new) other x y
        ≡ (if same_plane plane other && nat_eq (mb_of format other x y) at then sample_at
        (picture reference.entry) other x y else sample_at (work out.old) other x y) }
{
    let square = square_of(format, plane, at);
    out.copy_square::<N>(plane, square.x, square.y, reference);
}
