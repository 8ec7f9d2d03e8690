//! The neighbours half a sample away.
ghost use Rattle.std.specs.Prelude.{◌≡◌, ℕ, ◌+◌, ◌/◌, ◌<◌, ◌≤◌, ◌↔◌, ℤ, pos, ◌-ℤ◌, ◌<ℤ◌, IsTrue, if◌then◌else◌};
ghost use Rattle.h263_types.specs.Blocks.{IsVector};
ghost use Rattle.h263_types.specs.Sizes.{mbs_of};
ghost use Rattle.h263_types.specs.Vectors.{InReach, IsWithin};
ghost use Rattle.h263_planes.specs.Lent.{picture};
ghost use Rattle.motion_search.specs.Order.{earlier_of};
ghost use Rattle.motion_search.specs.Cost.{candidate_of, lead_of, IsCost};
ghost use Rattle.motion_search.specs.Vectors.{vector_around, in_reach, IsEven};
ghost use Rattle.motion_search.specs.Best.{best_near, IsCandidate};

use crate::around::{differences_around, neighbour};
use crate::candidate::{Candidate, first, is_settled, with_differences};
use crate::predicted::better_predicted;
use crate::within::{are_within, is_within};
use h263_planes::PictureRef;
use h263_types::{Reach, Vector, reach};
use half_sample::Around;

// The first of a candidate and those of its neighbours that are in reach, each by itself: at the
// picture's edge.
fn best_at_edge(
    block: &[u8; 256],
    reference: PictureRef<'_>,
    mb: u32,
    rounding: u8,
    reach: Reach,
    best: Candidate,
) -> Candidate
    requires mb { mb < mbs_of (picture reference).format }
    requires reach { (x y : ℤ) → InReach (picture reference).format mb x y ↔ IsWithin reach x y }
    requires rounding { rounding ≤ 1 }
    requires candidate { IsCandidate block.now (picture reference) mb rounding best }
    requires cost { IsCost best.cost }
    ensures best { result ≡ best_near block.now (picture reference.entry) mb rounding best }
    ensures cost { IsCost result.cost }
{
    let mut first = best;
    for n in 0..8u32 {
        let vector = neighbour(best.vector, n);
        if is_within(reach, vector) {
            first = better_predicted(block, reference, mb, rounding, vector, first);
        }
    }
    first
}

// The first of a candidate and its neighbours, all of which are in reach.
fn best_inside(
    block: &[u8; 256],
    reference: PictureRef<'_>,
    mb: u32,
    rounding: u8,
    best: Candidate,
    rows: &mut Around,
) -> Candidate
    requires mb { mb < mbs_of (picture reference).format }
    requires inside { (k : ℕ) → k < 9
        → InReach (picture reference).format mb (vector_around best.vector k).x (vector_around best.vector k).y }
    requires rounding { rounding ≤ 1 }
    requires candidate { IsCandidate block.now (picture reference) mb rounding best }
    requires whole { IsEven best.vector }
    requires cost { IsCost best.cost }
    ensures best { result ≡ best_near block.now (picture reference.entry) mb rounding best }
    ensures cost { IsCost result.cost }
{
    let sums = differences_around(block, reference, mb, rounding, best.vector, rows);
    let mut so_far = best;
    for n in 0..8u32 {
        so_far = better_neighbour(so_far, best.vector, n, sums[n as usize]);
    }
    so_far
}

// The first of the best one so far and neighbour `n` of a vector of whole samples, whose differences
// are `sum`. It isn't the zero vector, so it has nothing ahead: where its differences are more than
// the best one costs, no more is asked of it.
#[inline(always)]
fn better_neighbour(so_far: Candidate, vector: Vector, n: u32, sum: u32) -> Candidate
    requires vector { IsVector vector }
    requires whole { IsEven vector }
    requires n { n < 8 }
    requires sum { sum ≤ 65280 }
    requires cost { IsCost so_far.cost }
    ensures first { result ≡ earlier_of so_far (record {
      vector = vector_around vector (n + n / 4);
      cost = pos sum -ℤ pos (lead_of (vector_around vector (n + n / 4)));
    }) }
    ensures cost { IsCost result.cost }
{
    if is_below(so_far.cost, sum) {
        return so_far;
    }
    first(so_far, with_differences(neighbour(vector, n), sum))
}

// Whether a cost is less than so many differences.
#[inline(always)]
fn is_below(cost: i32, sum: u32) -> bool
    requires { sum ≤ 65280 }
    ensures { IsTrue result ↔ (cost <ℤ pos sum) }
{
    cost < sum as i32
}

// The first of a candidate of whole samples and its neighbours. `rows` is a place for what these
// predict, whatever it holds.
pub(crate) fn best_of_neighbours(
    block: &[u8; 256],
    reference: PictureRef<'_>,
    mb: u32,
    rounding: u8,
    best: Candidate,
    rows: &mut Around,
) -> Candidate
    requires mb { mb < mbs_of (picture reference).format }
    requires rounding { rounding ≤ 1 }
    requires candidate { IsCandidate block.now (picture reference) mb rounding best }
    requires whole { IsEven best.vector }
    requires cost { IsCost best.cost }
    ensures best { result ≡ best_near block.now (picture reference.entry) mb rounding best }
    ensures cost { IsCost result.cost }
{
    if is_settled(best) {
        return best;
    }
    let reach = reach(reference.format(), mb);
    let up_left = neighbour(best.vector, 0);
    let down_right = neighbour(best.vector, 7);
    if are_within(reach, up_left, down_right) {
        best_inside(block, reference, mb, rounding, best, rows)
    } else {
        best_at_edge(block, reference, mb, rounding, reach, best)
    }
}
