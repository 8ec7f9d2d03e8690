//! The predictions of the eight vectors half a sample away from one of whole samples.
ghost use Rattle.std.specs.Prelude.{◌≡◌, ◌+◌, ◌≤◌, ◌<◌, ◌+ℤ◌, pos, length, slice_range};
ghost use Rattle.h263_types.specs.Sizes.{mbs_of};
ghost use Rattle.h263_types.specs.Vectors.{InReach};
ghost use Rattle.h263_planes.specs.Lent.{picture};
ghost use Rattle.h263_planes.specs.Samples.{Inside};
ghost use Rattle.h263_planes.specs.declared.Plane.TheVariants.{Y};
ghost use Rattle.half_sample.specs.Around.{AreAround, IsBetween};
ghost use Rattle.half_sample.specs.Rows.{AreRowsAround, IsSampleLine, ReadsAround};

use crate::place::{Place, place_of};
use crate::rows::{load, mean, of_mean, of_means, store};
use h263_planes::{PictureRef, Plane};
use h263_types::Vector;
use std::simd::prelude::*;

/// Seventeen rows of sixteen luma samples for each of five places half a sample off a vector of
/// whole samples, from the row above on: what all eight of its neighbours predict.
#[derive(Drop)]
pub struct Around {
    pub left: [u8; 272],
    pub right: [u8; 272],
    pub up: [u8; 272],
    pub up_left: [u8; 272],
    pub up_right: [u8; 272],
}

// Sixteen samples of a row, and their averages with those one column further left and further
// right, rounded up, with what is odd where a sum of two samples is.
#[derive(Clone, Copy)]
struct Line {
    centre: u8x16,
    left: u8x16,
    left_odd: u8x16,
    right: u8x16,
    right_odd: u8x16,
}

// Sixteen of eighteen samples.
#[inline(always)]
fn sixteen(row: &[u8], at: usize) -> &[u8]
    requires row { length row.now ≡ 18 }
    requires at { at ≤ 2 }
    ensures value { result.now ≡ slice_range row.now at (at + 16) }
    ensures length { length result.now ≡ 16 }
{
    &row[at..at + 16]
}

// The line of the eighteen samples from column `x` of row `y` on.
#[inline(always)]
fn line_at(reference: PictureRef<'_>, x: u32, y: u32) -> Line
    requires { Inside (picture reference).format Y x y 18 }
    ensures { IsSampleLine (picture reference.entry) x y result }
{
    let row = reference.row(Plane::Y, x, y, 18);
    let before = load::<16>(sixteen(row, 0));
    let centre = load::<16>(sixteen(row, 1));
    let after = load::<16>(sixteen(row, 2));
    Line {
        centre,
        left: mean(before, centre),
        left_odd: before ^ centre,
        right: mean(centre, after),
        right_odd: centre ^ after,
    }
}

// Seventeen rows of each place, from eighteen of the reference. Each of these is loaded once, and
// its averages serve the rows above and below. Called with a rounding that is known, it has a loop
// for this one alone.
#[inline(always)]
fn rows_around(reference: PictureRef<'_>, place: Place, rounding: u8, out: &mut Around)
    requires place { ReadsAround (picture reference).format place }
    requires rounding { rounding ≤ 1 }
    ensures { AreRowsAround (picture reference.entry) rounding place.x place.y 17 out.new }
{
    let top = u32::from(place.y);
    let mut above = line_at(reference, place.x, top);
    for j in 0..17usize {
        let below = line_at(reference, place.x, top + (j as u32 + 1));
        let at = 16 * j;
        let (l, m) = (above.left, below.left);
        let (r, s) = (above.right, below.right);
        let odd = above.centre ^ below.centre;
        let up = mean(above.centre, below.centre);
        store(of_mean(l, above.left_odd, rounding), &mut out.left, at);
        store(of_mean(r, above.right_odd, rounding), &mut out.right, at);
        store(of_mean(up, odd, rounding), &mut out.up, at);
        store(
            of_means(l, above.left_odd, m, below.left_odd, rounding),
            &mut out.up_left,
            at,
        );
        store(
            of_means(r, above.right_odd, s, below.right_odd, rounding),
            &mut out.up_right,
            at,
        );
        above = below;
    }
}

/// The luma samples that the eight neighbours of a vector of whole samples predict for macroblock
/// `mb`. `vector` is the one of them half a sample further up and left; `rounding` is the picture's
/// rounding bit, 0 or 1 (H.263, 6.1.2).
pub fn luma_around(
    reference: PictureRef<'_>,
    mb: u32,
    vector: Vector,
    rounding: u8,
    out: &mut Around,
)
    requires mb { mb < mbs_of (picture reference).format }
    requires reach { InReach (picture reference).format mb vector.x vector.y }
    requires beyond { InReach (picture reference).format mb (vector.x +ℤ pos 2) (vector.y +ℤ pos 2) }
    requires between { IsBetween vector }
    requires rounding { rounding ≤ 1 }
    ensures { AreAround (picture reference.entry) mb vector rounding out.new }
{
    let place = place_of(reference, Plane::Y, mb, vector);
    rows_rounded(reference, place, rounding, out);
}

// The same for any rounding.
#[inline(always)]
fn rows_rounded(reference: PictureRef<'_>, place: Place, rounding: u8, out: &mut Around)
    requires place { ReadsAround (picture reference).format place }
    requires rounding { rounding ≤ 1 }
    ensures { AreRowsAround (picture reference.entry) rounding place.x place.y 17 out.new }
{
    match rounding {
        0 => rows_around(reference, place, 0, out),
        _ => rows_around(reference, place, 1, out),
    }
}
