//! Where a vector leads from a macroblock.
ghost use Rattle.std.specs.Prelude.{◌≡◌, pos, ◌+ℤ◌, ◌*◌, ◌≤ℤ◌, ◌<◌};
ghost use Rattle.h263_types.specs.Sizes.{mbs_of};
ghost use Rattle.h263_types.specs.Vectors.{InReach};
ghost use Rattle.h263_planes.specs.Lent.{picture};
ghost use Rattle.half_sample.specs.Places.{IsHalfOf, LeadsTo};
ghost use Rattle.half_sample.specs.Prediction.{columns_in, is_half, whole_part};

use h263_planes::{PictureRef, Plane, mb_place};
use h263_types::Vector;

// The place from which a block is read: column `x` of row `y`. Since a row has sixteen bits, the
// compiler sees that the sums of rows don't wrap, and goes from one row to the next by an addition.
#[derive(Clone, Copy)]
pub(crate) struct Place {
    pub(crate) x: u32,
    pub(crate) y: u16,
}

// Whether a block is read half a sample further right, and half a sample further down.
#[derive(Clone, Copy)]
pub(crate) struct Half {
    pub(crate) x: bool,
    pub(crate) y: bool,
}

// The place to which a vector leads from macroblock `mb`, in whole samples of the plane.
#[inline(always)]
pub(crate) fn place_of(reference: PictureRef<'_>, plane: Plane, mb: u32, vector: Vector) -> Place
    requires mb { mb < mbs_of (picture reference).format }
    requires reach { InReach (picture reference).format mb vector.x vector.y }
    ensures leads { LeadsTo (columns_in plane)
        (picture reference.entry).format plane mb vector result }
    ensures x { result.x < 65536 }
    ensures y { result.y < 60000 }
{
    let (column, row) = mb_place(reference.format(), mb);
    Place {
        x: moved(plane, column, vector.x),
        y: moved(plane, row, vector.y) as u16,
    }
}

// The column or row of samples to which a component leads from column or row `k` of macroblocks.
#[inline(always)]
fn moved(plane: Plane, k: u32, component: i8) -> u32
    requires k { k < 32 }
    requires inside { pos 0 ≤ℤ (pos (columns_in plane * k) +ℤ whole_part plane component) }
    ensures place { pos result ≡ pos (columns_in plane * k) +ℤ whole_part plane component }
    ensures range { result < 1024 }
{
    match plane {
        Plane::Y => (16 * k as i32 + i32::from(component >> 1)) as u32,
        Plane::Cb => (8 * k as i32 + i32::from(component >> 2)) as u32,
        Plane::Cr => (8 * k as i32 + i32::from(component >> 2)) as u32,
    }
}

// Whether a vector leads half a sample of the plane further.
#[inline(always)]
pub(crate) fn half_of(plane: Plane, vector: Vector) -> Half
    ensures { IsHalfOf plane vector result }
{
    Half {
        x: is_between(plane, vector.x),
        y: is_between(plane, vector.y),
    }
}

// Whether a component leads half a sample of the plane further.
#[inline(always)]
fn is_between(plane: Plane, component: i8) -> bool
    ensures { result ≡ is_half plane component }
{
    match plane {
        Plane::Y => component.unsigned_abs() % 2 == 1,
        Plane::Cb | Plane::Cr => component.unsigned_abs() % 4 != 0,
    }
}
