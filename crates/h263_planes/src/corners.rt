//! The corners of a macroblock's blocks.
ghost use Rattle.std.specs.Prelude.{◌≡◌, ℕ, ◌/◌, ◌%◌, ◌<◌, ◌&&◌, nat_eq};
ghost use Rattle.h263_types.specs.Sizes.{columns_of, mbs_of};
ghost use Rattle.h263_planes.specs.declared.Plane.{Plane};
ghost use Rattle.h263_planes.specs.Samples.{Inside, in_block};
ghost use Rattle.h263_planes.specs.Blocks.{IsCorner, block_of, corner_of, mb_of};

use crate::Plane;
use crate::blocks::Corner;
use h263_types::Format;

/// Where block `block` of macroblock `mb` begins; blocks 0 to 3 are of Y in reading order, 4 is Cb
/// and 5 is Cr (H.263, 4.2.1).
pub fn block_corner(format: Format, mb: u32, block: u32) -> Corner
    requires mb { mb < mbs_of format }
    requires block { block < 6 }
    ensures corner { result ≡ corner_of format mb block }
    ensures inside { IsCorner format result }
    ensures samples { (plane : Plane) (i j : ℕ)
        → Inside format plane i j 1 → in_block result.plane result.x result.y 8 8 plane i j
        ≡ (nat_eq (mb_of format plane i j) mb && nat_eq (block_of plane i j) block) }
{
    let (column, row) = mb_place(format, mb);
    if block < 4 {
        Corner {
            plane: Plane::Y,
            x: 16 * column + 8 * (block % 2),
            y: 16 * row + 8 * (block / 2),
        }
    } else {
        Corner {
            plane: if block == 4 { Plane::Cb } else { Plane::Cr },
            x: 8 * column,
            y: 8 * row,
        }
    }
}

/// The column and the row of macroblock `mb`, in macroblocks. Each format has a division by a
/// number of its own, which needs no divider.
pub fn mb_place(format: Format, mb: u32) -> (u32, u32)
    ensures column { result.0 ≡ mb % columns_of format }
    ensures row { result.1 ≡ mb / columns_of format }
{
    match format {
        Format::SubQcif => divided(mb, Format::SubQcif.columns()),
        Format::Qcif => divided(mb, Format::Qcif.columns()),
        Format::Cif => divided(mb, Format::Cif.columns()),
    }
}

// The remainder and the quotient.
#[inline(always)]
fn divided(mb: u32, columns: u32) -> (u32, u32)
    requires { 0 < columns }
    ensures column { result.0 ≡ mb % columns }
    ensures row { result.1 ≡ mb / columns }
{
    (mb % columns, mb / columns)
}
