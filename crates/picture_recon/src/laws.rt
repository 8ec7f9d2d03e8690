//! What ties a picture's samples to its reconstruction. Each law is the contract of a function that
//! does nothing else.
ghost use Rattle.std.specs.Prelude.{◌≡◌, ℕ, ◌+◌, List, length, Option};
ghost use Rattle.h263_types.specs.declared.blocks.Mb.{Mb};
ghost use Rattle.h263_planes.specs.declared.Plane.{Plane};
ghost use Rattle.h263_types.specs.declared.format.Format.{Format};
ghost use Rattle.h263_planes.specs.Picture.{Picture};
ghost use Rattle.h263_planes.specs.Blocks.{mb_of};
ghost use Rattle.h263_planes.specs.Samples.{Inside, IsWhole, sample_at};
ghost use Rattle.h263_types.specs.Blocks.{mb_in};
ghost use Rattle.h263_types.specs.Sizes.{mbs_of};
ghost use Rattle.picture_recon.specs.Samples.{reconstruction, sample_in};
ghost use Rattle.picture_recon.specs.Shown.{IsPartFrom, SetsMb, SetsSlice, ShowsFirst};

use h263_planes::laws::{numbered_samples, samples_are_picture};

/// A whole picture whose every sample is that of its macroblock is the reconstruction of the
/// macroblocks, and the reconstruction is such a picture.
pub fn samples_are_reconstruction()
    ensures only { (p : Picture) (rounding : ℕ) (reference : Option Picture) (mbs : List Mb)
        → IsWhole p → ((plane : Plane) (x y : ℕ) → Inside p.format plane x y 1 → sample_at
        p plane x y ≡ sample_in rounding reference (mb_in mbs (mb_of p.format plane x y)) plane x y)
        → p ≡ reconstruction p.format rounding reference mbs }
    ensures whole { (f : Format) (rounding : ℕ) (reference : Option Picture) (mbs : List Mb)
        → IsWhole (reconstruction f rounding reference mbs) }
    ensures format { (f : Format) (rounding : ℕ) (reference : Option Picture) (mbs : List Mb)
        → (reconstruction f rounding reference mbs).format ≡ f }
    ensures samples { (f : Format)
        (rounding : ℕ) (reference : Option Picture) (mbs : List Mb) (plane : Plane) (x y : ℕ)
        → Inside f plane x y 1 → sample_at (reconstruction f rounding reference mbs) plane x y
        ≡ sample_in rounding reference (mb_in mbs (mb_of f plane x y)) plane x y }
{
    samples_are_picture();
}

/// A picture shows one macroblock after the other, or one slice after the other, and once it shows
/// all of them it is their reconstruction.
pub fn shown_one_by_one()
    ensures none { (f : Format) (rounding : ℕ) (reference : Option Picture)
        (mbs : List Mb) (p : Picture) → ShowsFirst f rounding reference mbs 0 p }
    ensures macroblock { (f : Format) (rounding : ℕ) (reference : Option Picture)
        (mbs : List Mb) (at : ℕ) (old new : Picture) → ShowsFirst f rounding reference mbs at old
        → SetsMb f rounding reference at (mb_in mbs at) old new
        → ShowsFirst f rounding reference mbs (at + 1) new }
    ensures slice { (f : Format) (rounding : ℕ) (reference : Option Picture) (mbs : List Mb)
        (first : ℕ) (run : List Mb) (old new : Picture) → ShowsFirst f rounding reference
        mbs first old → IsPartFrom mbs first run → SetsSlice f rounding reference first run old new
        → ShowsFirst f rounding reference mbs (first + length run) new }
    ensures all { (p : Picture) (rounding : ℕ) (reference : Option Picture) (mbs : List Mb)
        → IsWhole p → ShowsFirst p.format rounding reference mbs (mbs_of p.format) p
        → p ≡ reconstruction p.format rounding reference mbs }
{
    numbered_samples();
    samples_are_reconstruction();
}
