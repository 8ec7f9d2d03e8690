//! The best of the vectors of whole samples within the radius.
ghost use Rattle.std.specs.Prelude.{◌≡◌, ℕ, ◌+◌, ◌*◌, ◌<◌, ◌≤◌};
ghost use Rattle.h263_types.specs.Sizes.{mbs_of, width_of};
ghost use Rattle.h263_planes.specs.Lent.{picture};
ghost use Rattle.motion_search.specs.Cost.{candidate_of, IsCost};
ghost use Rattle.motion_search.specs.Vectors.{zero_vector};
ghost use Rattle.motion_search.specs.Best.{best_whole};
ghost use Rattle.motion_search.specs.SoFar.{HoldsAround, IsNoBetter, IsBestSoFar};
ghost use Rattle.motion_search.specs.Areas.{AreQuarters, AreSumsOf};

use crate::areas::{Quarters, quarters_of};
use crate::candidate::{Candidate, is_settled};
use crate::kept::KeptSums;
use crate::lent::known;
use crate::square::{across, better_at, end_in, first_in, nearest};
use crate::start::zero;
use crate::strip::best_of_strip;
use crate::window::{SearchArea, Window};
use h263_planes::PictureRef;
use h263_types::{Format, reach};

// The first of the vectors of whole samples within the radius. A low cost that is found early rules
// out many of the others. So the one nearest to the guess is looked at before all others. Each width
// has code of its own, in which rows stand at known distances.
#[inline(always)]
fn best_in<const WIDTH: u32>(
    block: &[u8; 256],
    reference: PictureRef<'_>,
    mb: u32,
    area: SearchArea,
    sums: &mut KeptSums,
    zero: Candidate,
) -> Candidate
    requires width { width_of (picture reference).format ≡ WIDTH }
    requires mb { mb < mbs_of (picture reference).format }
    requires radius { area.radius ≤ 15 }
    requires zero { zero ≡ candidate_of block.now (picture reference) mb 0 zero_vector }
    requires cost { IsCost zero.cost }
    requires sums { AreSumsOf (picture reference) sums.old }
    ensures best { (rounding : ℕ)
        → result ≡ best_whole block.now (picture reference.entry) mb area.radius rounding }
    ensures cost { IsCost result.cost }
    ensures sums { AreSumsOf (picture reference.entry) sums.new }
{
    let radius = area.radius;
    let format = reference.format();
    let left = 16 * (mb % format.columns());
    let top = 16 * (mb / format.columns());
    let reach = reach(format, mb);
    let window = Window {
        block,
        reference,
        mb,
        left,
        top,
        reach,
        radius,
    };
    let across = nearest(radius, area.guess.x);
    let down = nearest(radius, area.guess.y);
    let mut first = better_at(window, across, down, zero);
    let quarters = quarters_of(block);
    let from = first_of_rows(top, radius);
    let end = end_of_rows(top, radius, format.height());
    sums.hold(reference, from, end);
    best_of_strips(window, quarters, sums, first)
}

// The first of the best one and all vectors of the square, sixteen columns at once.
#[inline(always)]
fn best_of_strips(
    window: Window<'_>,
    quarters: Quarters,
    sums: &KeptSums,
    best: Candidate,
) -> Candidate
    requires quarters { AreQuarters window.block.now quarters }
    requires sums { AreSumsOf (picture window.reference) sums.now }
    requires held { HoldsAround window sums.now }
    requires so_far { IsBestSoFar window best }
    ensures so_far { IsBestSoFar window.entry result }
    ensures none { (m n : ℕ) → m < 2 * window.entry.radius + 1
        → n < 2 * window.entry.radius + 1 → IsNoBetter window.entry n m result }
{
    let mut first = best;
    let across = across(window.reach);
    let mut column = first_in(window.radius, across);
    while column < end_in(window.radius, across) {
        first = best_of_strip(window, quarters, sums, column, first);
        column += 16;
    }
    first
}

// The first row of areas to which the vectors lead from row `top` on.
#[inline(always)]
fn first_of_rows(top: u32, radius: u8) -> u32
    ensures near { top ≤ result + radius }
    ensures first { (y : ℕ) → top ≤ y + radius → result ≤ y }
{
    let radius = u32::from(radius);
    if top < radius { 0 } else { top - radius }
}

// The row after the last one to which they lead, or eight rows further down, where the lower
// quarters are: `height` is the picture's.
#[inline(always)]
fn end_of_rows(top: u32, radius: u8, height: u32) -> u32
    requires radius { radius ≤ 15 }
    requires top { top + 16 ≤ height }
    requires height { height < 60000 }
    ensures near { result ≤ top + radius + 9 }
    ensures inside { result + 7 ≤ height }
    ensures end { (y : ℕ) → y ≤ top + radius → y + 16 ≤ height → y + 8 < result }
{
    let end = top + u32::from(radius) + 9;
    if end + 7 < height { end } else { height - 7 }
}

// The first of the vectors of whole samples within the radius, 0 to 15. Their costs don't depend on
// the rounding, and the answer doesn't depend on the guess, from which the search begins.
pub(crate) fn best_of_whole(
    block: &[u8; 256],
    reference: PictureRef<'_>,
    mb: u32,
    area: SearchArea,
    sums: &mut KeptSums,
) -> Candidate
    requires mb { mb < mbs_of (picture reference).format }
    requires radius { area.radius ≤ 15 }
    requires sums { AreSumsOf (picture reference) sums.old }
    ensures best { (rounding : ℕ)
        → result ≡ best_whole block.now (picture reference.entry) mb area.radius rounding }
    ensures cost { IsCost result.cost }
    ensures sums { AreSumsOf (picture reference.entry) sums.new }
{
    let zero = zero(block, reference, mb);
    if is_settled(zero) {
        return zero;
    }
    let r = reference;
    // for each format by itself, so that its rows stand at distances that are known
    match reference.format() {
        Format::SubQcif => {
            best_in::<128>(block, known(r, Format::SubQcif), mb, area, sums, zero)
        }
        Format::Qcif => best_in::<176>(block, known(r, Format::Qcif), mb, area, sums, zero),
        Format::Cif => best_in::<352>(block, known(r, Format::Cif), mb, area, sums, zero),
    }
}
