//! The samples of a macroblock in one plane.
ghost use Rattle.std.specs.Prelude.{◌≡◌, ℕ, ◌*◌, ◌/◌, ◌%◌, ◌<◌, ◌&&◌, nat_eq};
ghost use Rattle.h263_types.specs.Sizes.{columns_of, mbs_of};
ghost use Rattle.h263_planes.specs.declared.Plane.{Plane};
ghost use Rattle.h263_planes.specs.Blocks.{mb_of};
ghost use Rattle.h263_planes.specs.Samples.{Inside, in_block, same_plane};
ghost use Rattle.half_sample.specs.Prediction.{columns_in};
ghost use Rattle.picture_recon.specs.Squares.{IsInside};

use h263_planes::{Plane, mb_place};
use h263_types::Format;

// A macroblock's samples in one plane: `size` columns and rows from a column and a row on.
#[derive(Clone, Copy)]
pub(crate) struct Square {
    pub(crate) x: u32,
    pub(crate) y: u32,
    pub(crate) size: u32,
}

// The samples of macroblock `at` in a plane.
#[inline(always)]
pub(crate) fn square_of(format: Format, plane: Plane, at: u32) -> Square
    requires { at < mbs_of format }
    ensures size { result.size ≡ columns_in plane }
    ensures column { result.x ≡ result.size * (at % columns_of format) }
    ensures row { result.y ≡ result.size * (at / columns_of format) }
    ensures inside { IsInside format plane result }
    ensures samples { (other : Plane) (x y : ℕ) → Inside format other x y 1
        → in_block plane result.x result.y result.size result.size other x y
        ≡ (same_plane plane other && nat_eq (mb_of format other x y) at) }
{
    let size = match plane {
        Plane::Y => 16,
        Plane::Cb | Plane::Cr => 8,
    };
    let (column, row) = mb_place(format, at);
    Square {
        x: size * column,
        y: size * row,
        size,
    }
}
