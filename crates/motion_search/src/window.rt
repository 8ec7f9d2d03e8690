//! What the first step of the search goes over.
ghost use Rattle.std.specs.Prelude.{◌≡◌, ◌*◌, ◌%◌, ◌/◌, ◌<◌, ◌≤◌, ◌↔◌, ℤ};
ghost use Rattle.h263_types.specs.Sizes.{columns_of, mbs_of};
ghost use Rattle.h263_types.specs.Vectors.{InReach, IsWithin};
ghost use Rattle.h263_planes.specs.Lent.{picture};

use h263_planes::PictureRef;
use h263_types::{Reach, Vector};

// How many whole samples far a search goes, 0 to 15, and near which vector it begins.
#[derive(Clone, Copy)]
pub(crate) struct SearchArea {
    pub(crate) radius: u8,
    pub(crate) guess: Vector,
}

// The samples of a macroblock, the picture that is to predict it, its first column and row there,
// how far its vectors reach, and how many whole samples far they are searched.
#[derive(Clone, Copy)]
pub(crate) struct Window<'a> {
    pub(crate) block: &'a [u8; 256],
    pub(crate) reference: PictureRef<'a>,
    pub(crate) mb: u32,
    pub(crate) left: u32,
    pub(crate) top: u32,
    pub(crate) reach: Reach,
    pub(crate) radius: u8,
    ghost inside: { mb < mbs_of (picture reference).format },
    ghost at_left: { left ≡ 16 * (mb % columns_of (picture reference).format) },
    ghost at_top: { top ≡ 16 * (mb / columns_of (picture reference).format) },
    ghost reaches: { (x y : ℤ) → InReach (picture reference).format mb x y ↔ IsWithin reach x y },
    ghost narrow: { radius ≤ 15 },
}
