//! Reconstruction of macroblocks in their picture.
ghost use Rattle.std.specs.Prelude.{◌≡◌, ℕ, ◌+◌, ◌<◌, ◌≤◌, ◌&&◌, length, nat_le, nat_lt, if◌then◌else◌, Option};
ghost use Rattle.std.specs.Option.{option_map};
ghost use Rattle.h263_types.specs.Blocks.{IsHeadOf, IsIntraMb, IsMb, IsOfKind, mb_in};
ghost use Rattle.h263_types.specs.References.{ReachesInside};
ghost use Rattle.h263_types.specs.Sizes.{mbs_of};
ghost use Rattle.h263_types.specs.declared.blocks.Mb.TheVariants.{Intra};
ghost use Rattle.h263_planes.specs.declared.Plane.{Plane};
ghost use Rattle.h263_planes.specs.Blocks.{mb_of};
ghost use Rattle.h263_planes.specs.Lent.{picture};
ghost use Rattle.h263_planes.specs.Picture.{Picture};
ghost use Rattle.h263_planes.specs.References.{HasReference};
ghost use Rattle.h263_planes.specs.Samples.{Inside, IsPicture, sample_at};
ghost use Rattle.h263_planes.specs.Work.{loan_of, work};
ghost use Rattle.h263_types.specs.Vectors.{InReach};
ghost use Rattle.half_sample.specs.Macroblock.{IsPredicted, IsPredictionOf};
ghost use Rattle.h263_types.specs.Marks.{IsMarked};
ghost use Rattle.picture_recon.specs.Marks.{AreMarkedIn};
ghost use Rattle.picture_recon.specs.Samples.{sample_in};
ghost use Rattle.picture_recon.specs.Shown.{SetsMb};

use crate::coded::draw_blocks;
use crate::predicted::put_inter;
use crate::skipped::put_skipped;
use crate::values::{marks_of_few, marks_of_six};
use h263_planes::{PictureMut, PictureRef};
use h263_types::{Block, Format, MarkedMb, Mb, SliceHead, Vector, laws as types_laws};
use half_sample::{Predicted, colours, luma};
use picture_header::Header;

/// Sets the samples of macroblock `at` in `out`, a picture of the header's format; all other
/// samples stay. A P picture has a reference, and in it a macroblock may be skipped or predicted
/// (H.263, 6.1 to 6.3).
pub fn recon_mb(
    mb: &Mb,
    at: u32,
    header: &Header,
    reference: Option<PictureRef<'_>>,
    out: &mut PictureMut<'_>,
)
    requires reference { HasReference header.now.kind header.now.format
        (option_map picture reference) }
    requires rounding { header.now.rounding ≤ 1 }
    requires format { (work out.old).format ≡ header.now.format }
    requires at { at < mbs_of header.now.format }
    requires of_kind { IsOfKind header.now.kind mb.now }
    requires in_range { IsMb mb.now }
    requires reach { ReachesInside header.now.format at mb.now }
    ensures same_loan { loan_of out.new ≡ loan_of out.old }
    ensures format { (work out.new).format ≡ header.now.format }
    ensures whole { IsPicture (work out.new) }
    ensures samples { SetsMb header.now.format header.now.rounding
        (option_map picture reference.entry) at mb.now (work out.old) (work out.new) }
{
    let mut predicted = no_samples();
    recon_by(mb, at, header, reference, &mut predicted, out);
}

// A place for predicted samples.
#[inline(always)]
fn no_samples() -> Predicted {
    Predicted {
        y: [0; 256],
        cb: [0; 64],
        cr: [0; 64],
    }
}

// The same, with a place for predicted samples, whatever it holds: so that a slice's macroblocks
// have one, which isn't cleared for each.
fn recon_by(
    mb: &Mb,
    at: u32,
    header: &Header,
    reference: Option<PictureRef<'_>>,
    predicted: &mut Predicted,
    out: &mut PictureMut<'_>,
)
    requires reference { HasReference header.now.kind header.now.format
        (option_map picture reference) }
    requires rounding { header.now.rounding ≤ 1 }
    requires format { (work out.old).format ≡ header.now.format }
    requires at { at < mbs_of header.now.format }
    requires of_kind { IsOfKind header.now.kind mb.now }
    requires in_range { IsMb mb.now }
    requires reach { ReachesInside header.now.format at mb.now }
    ensures same_loan { loan_of out.new ≡ loan_of out.old }
    ensures format { (work out.new).format ≡ header.now.format }
    ensures whole { IsPicture (work out.new) }
    ensures samples { SetsMb header.now.format header.now.rounding
        (option_map picture reference.entry) at mb.now (work out.old) (work out.new) }
{
    out.is_picture();
    match mb {
        Mb::Skip => {
            if let Some(picture) = reference {
                put_skipped(picture, at, header.format, out);
            }
        }
        Mb::Intra { quant, blocks } => {
            let marks = marks_of_six(blocks);
            put_intra(*quant, blocks, &marks, at, header.format, out)
        }
        Mb::Inter {
            quant,
            vector,
            blocks,
        } => {
            if let Some(picture) = reference {
                predict_into(picture, at, *vector, header.rounding, predicted);
                let marks = marks_of_few(blocks);
                put_inter(predicted, *quant, blocks, &marks, at, out);
            }
        }
    }
}

// The samples that a vector predicts for macroblock `mb` in the three planes, into their place.
fn predict_into(
    reference: PictureRef<'_>,
    mb: u32,
    vector: Vector,
    rounding: u8,
    out: &mut Predicted,
)
    requires mb { mb < mbs_of (picture reference).format }
    requires reach { InReach (picture reference).format mb vector.x vector.y }
    requires rounding { rounding ≤ 1 }
    ensures { IsPredicted (picture reference.entry) mb vector rounding out.new }
{
    luma(reference, mb, vector, rounding, &mut out.y);
    colours(reference, mb, vector, rounding, &mut out.cb, &mut out.cr);
}

/// The same as [`recon_mb`], of a macroblock that has its marks beside it, where what the vector of
/// an inter macroblock predicts is known: so neither is found again.
pub fn recon_predicted(
    mb: &MarkedMb,
    predicted: &Predicted,
    at: u32,
    header: &Header,
    reference: Option<PictureRef<'_>>,
    out: &mut PictureMut<'_>,
)
    requires reference { HasReference header.now.kind header.now.format
        (option_map picture reference) }
    requires rounding { header.now.rounding ≤ 1 }
    requires format { (work out.old).format ≡ header.now.format }
    requires at { at < mbs_of header.now.format }
    requires of_kind { IsOfKind header.now.kind mb.now.mb }
    requires in_range { IsMb mb.now.mb }
    requires reach { ReachesInside header.now.format at mb.now.mb }
    requires predicted { IsPredictionOf header.now.rounding (option_map picture reference)
        at mb.now.mb predicted.now }
    requires marks { IsMarked mb.now }
    ensures same_loan { loan_of out.new ≡ loan_of out.old }
    ensures format { (work out.new).format ≡ header.now.format }
    ensures whole { IsPicture (work out.new) }
    ensures samples { SetsMb header.now.format header.now.rounding
        (option_map picture reference.entry) at mb.now.mb (work out.old) (work out.new) }
{
    types_laws::marks();
    out.is_picture();
    match &mb.mb {
        Mb::Skip => {
            if let Some(picture) = reference {
                put_skipped(picture, at, header.format, out);
            }
        }
        Mb::Intra { quant, blocks } => {
            put_intra(*quant, blocks, &mb.coded, at, header.format, out)
        }
        Mb::Inter {
            quant,
            vector: _,
            blocks,
        } => put_inter(predicted, *quant, blocks, &mb.coded, at, out),
    }
}

// Sets the samples of an intra macroblock.
pub(crate) fn put_intra(
    quant: u8,
    blocks: &[Block; 6],
    marks: &[u64; 6],
    at: u32,
    format: Format,
    out: &mut PictureMut<'_>,
)
    requires format { (work out.old).format ≡ format }
    requires at { at < mbs_of format }
    requires in_range { IsIntraMb quant blocks.now }
    requires marks { AreMarkedIn blocks.now marks.now }
    requires whole { IsPicture (work out.old) }
    ensures same_loan { loan_of out.new ≡ loan_of out.old }
    ensures format { (work out.new).format ≡ format }
    ensures whole { IsPicture (work out.new) }
    ensures samples { (rounding : ℕ) (reference : Option Picture) →
        SetsMb format rounding reference at (Intra quant blocks.now) (work out.old) (work out.new) }
{
    draw_blocks(quant, blocks, marks, at, format, out);
}

/// Sets the samples of the macroblocks of a slice in `out`, a picture of the header's format. `mbs`
/// are those of a whole picture, of which only the slice's are used; all other samples stay. A P
/// picture has a reference.
pub fn recon_slice(
    mbs: &[Mb],
    head: SliceHead,
    header: &Header,
    reference: Option<PictureRef<'_>>,
    out: &mut PictureMut<'_>,
)
    requires reference { HasReference header.now.kind header.now.format
        (option_map picture reference) }
    requires rounding { header.now.rounding ≤ 1 }
    requires format { (work out.old).format ≡ header.now.format }
    requires mbs { length mbs.now ≡ mbs_of header.now.format }
    requires head { IsHeadOf header.now.format head }
    requires of_kind { (k : ℕ) → head.first ≤ k
        → k < head.first + head.count → IsOfKind header.now.kind (mb_in mbs.now k) }
    requires in_range { (k : ℕ)
        → head.first ≤ k → k < head.first + head.count → IsMb (mb_in mbs.now k) }
    requires reach { (k : ℕ) → head.first ≤ k
        → k < head.first + head.count → ReachesInside header.now.format k (mb_in mbs.now k) }
    ensures same_loan { loan_of out.new ≡ loan_of out.old }
    ensures format { (work out.new).format ≡ header.now.format }
    ensures whole { IsPicture (work out.new) }
    ensures samples { (plane : Plane) (x y : ℕ) → Inside header.now.format plane x y 1 → sample_at
        (work out.new) plane x y ≡ (if nat_le head.first (mb_of header.now.format plane x y)
        && nat_lt (mb_of header.now.format plane x y) (head.first + head.count)
        then sample_in header.now.rounding (option_map picture reference.entry) (mb_in mbs.now
        (mb_of header.now.format plane x y)) plane x y else sample_at (work out.old) plane x y) }
{
    out.is_picture();
    let mut predicted = no_samples();
    for at in head.first..head.first + head.count {
        recon_by(
            &mbs[at as usize],
            at,
            header,
            reference,
            &mut predicted,
            out,
        );
    }
}
