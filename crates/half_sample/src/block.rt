//! Predicted blocks at a whole place, or half a sample off it.
ghost use Rattle.std.specs.Prelude.{◌≡◌, ◌*◌, ◌≤◌, cond, length};
ghost use Rattle.h263_planes.specs.Lent.{picture};
ghost use Rattle.h263_planes.specs.declared.Plane.TheVariants.{Cb, Cr, Y};
ghost use Rattle.half_sample.specs.Places.{AreInterpolated, BlockInside};
ghost use Rattle.half_sample.specs.Sources.{AreLanesFrom, HasRows};

use crate::place::{Half, Place};
use crate::rows::store;
use crate::source::{Source, line_from, next_row};
use h263_planes::{PictureRef, Plane};

const WHOLE: Half = Half { x: false, y: false };

const RIGHT: Half = Half { x: true, y: false };

const BELOW: Half = Half { x: false, y: true };

const BOTH: Half = Half { x: true, y: true };

// Sixteen rows of luma. Called with a case that is known, it has a loop for this case alone.
#[inline(always)]
fn luma_rows(source: Source<'_>, half: Half, rounding: u8, out: &mut [u8])
    requires rows { HasRows source half 16 }
    requires rounding { rounding ≤ 1 }
    requires out { length out.old ≡ 16 * 16 }
    ensures { AreLanesFrom 16 source.entry half rounding 0 16 out.new }
{
    let mut above = line_from(source, 0, half.x);
    let mut at = 0;
    for j in 0..16usize {
        let step = next_row(source, at, half, rounding, above);
        store(step.row, out, 16 * j);
        above = step.below;
        at += source.width;
    }
}

// Eight rows of each colour, likewise.
#[inline(always)]
fn colour_rows(source: Source<'_>, half: Half, rounding: u8, cb: &mut [u8], cr: &mut [u8])
    requires rows { HasRows source half 8 }
    requires rounding { rounding ≤ 1 }
    requires cb { length cb.old ≡ 8 * 8 }
    requires cr { length cr.old ≡ 8 * 8 }
    ensures cb { AreLanesFrom 8 source.entry half rounding 0 8 cb.new }
    ensures cr { AreLanesFrom 8 source.entry half rounding 8 8 cr.new }
{
    let mut above = line_from(source, 0, half.x);
    let mut at = 0;
    for j in 0..8usize {
        let step = next_row(source, at, half, rounding, above);
        store(step.row.extract::<0, 8>(), cb, 8 * j);
        store(step.row.extract::<8, 8>(), cr, 8 * j);
        above = step.below;
        at += source.width;
    }
}

// The 16 x 16 predicted samples of luma. Called with a case that is known, it has a loop for this
// case alone.
#[inline(always)]
fn luma_of(reference: PictureRef<'_>, place: Place, half: Half, rounding: u8, out: &mut [u8])
    requires inside { BlockInside 16 16 (picture reference).format Y place half }
    requires rounding { rounding ≤ 1 }
    requires out { length out.old ≡ 16 * 16 }
    ensures { AreInterpolated 16 16 (picture reference.entry) Y place half rounding out.new }
{
    let (columns, count) = (16 + one_if(half.x), 16 + one_if(half.y));
    let rows = reference.rows(Plane::Y, place.x, u32::from(place.y), columns, count);
    let source = Source {
        rows,
        others: rows,
        width: reference.width(Plane::Y),
        colours: false,
    };
    luma_rows(source, half, rounding, out);
}

// The 8 x 8 predicted samples of each colour, likewise.
#[inline(always)]
fn colours_of(
    reference: PictureRef<'_>,
    place: Place,
    half: Half,
    rounding: u8,
    cb: &mut [u8],
    cr: &mut [u8],
)
    requires inside { BlockInside 8 8 (picture reference).format Cb place half }
    requires rounding { rounding ≤ 1 }
    requires cb { length cb.old ≡ 8 * 8 }
    requires cr { length cr.old ≡ 8 * 8 }
    ensures cb { AreInterpolated 8 8 (picture reference.entry) Cb place half rounding cb.new }
    ensures cr { AreInterpolated 8 8 (picture reference.entry) Cr place half rounding cr.new }
{
    let (columns, count) = (8 + one_if(half.x), 8 + one_if(half.y));
    let y = u32::from(place.y);
    let source = Source {
        rows: reference.rows(Plane::Cb, place.x, y, columns, count),
        others: reference.rows(Plane::Cr, place.x, y, columns, count),
        width: reference.width(Plane::Cb),
        colours: true,
    };
    colour_rows(source, half, rounding, cb, cr);
}

// One row or column more where a block is read half a sample further.
#[inline(always)]
fn one_if(half: bool) -> u32
    ensures { result ≡ cond half 1 0 }
{
    if half { 1 } else { 0 }
}

// The 16 x 16 predicted samples of luma.
#[inline(always)]
pub(crate) fn luma_block(
    reference: PictureRef<'_>,
    place: Place,
    half: Half,
    rounding: u8,
    out: &mut [u8],
)
    requires inside { BlockInside 16 16 (picture reference).format Y place half }
    requires rounding { rounding ≤ 1 }
    requires out { length out.old ≡ 16 * 16 }
    ensures { AreInterpolated 16 16 (picture reference.entry) Y place half rounding out.new }
{
    match (half.x, half.y, rounding) {
        (false, false, _) => luma_of(reference, place, WHOLE, 0, out),
        (true, false, 0) => luma_of(reference, place, RIGHT, 0, out),
        (true, false, _) => luma_of(reference, place, RIGHT, 1, out),
        (false, true, 0) => luma_of(reference, place, BELOW, 0, out),
        (false, true, _) => luma_of(reference, place, BELOW, 1, out),
        (true, true, 0) => luma_of(reference, place, BOTH, 0, out),
        (true, true, _) => luma_of(reference, place, BOTH, 1, out),
    }
}

// The 8 x 8 predicted samples of each colour.
#[inline(always)]
pub(crate) fn colour_blocks(
    reference: PictureRef<'_>,
    place: Place,
    half: Half,
    rounding: u8,
    cb: &mut [u8],
    cr: &mut [u8],
)
    requires inside { BlockInside 8 8 (picture reference).format Cb place half }
    requires rounding { rounding ≤ 1 }
    requires cb { length cb.old ≡ 8 * 8 }
    requires cr { length cr.old ≡ 8 * 8 }
    ensures cb { AreInterpolated 8 8 (picture reference.entry) Cb place half rounding cb.new }
    ensures cr { AreInterpolated 8 8 (picture reference.entry) Cr place half rounding cr.new }
{
    match (half.x, half.y, rounding) {
        (false, false, _) => colours_of(reference, place, WHOLE, 0, cb, cr),
        (true, false, 0) => colours_of(reference, place, RIGHT, 0, cb, cr),
        (true, false, _) => colours_of(reference, place, RIGHT, 1, cb, cr),
        (false, true, 0) => colours_of(reference, place, BELOW, 0, cb, cr),
        (false, true, _) => colours_of(reference, place, BELOW, 1, cb, cr),
        (true, true, 0) => colours_of(reference, place, BOTH, 0, cb, cr),
        (true, true, _) => colours_of(reference, place, BOTH, 1, cb, cr),
    }
}
