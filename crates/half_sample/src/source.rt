//! Rows that are read in sixteen lanes: of luma, or of both colours beside one another.
ghost use Rattle.std.specs.Prelude.{◌≡◌, ℕ, ◌+◌, ◌≤◌, ◌<◌, true, cond, length, slice_index};
ghost use Rattle.half_sample.specs.Rows.{IsRowOfSamples};
ghost use Rattle.half_sample.specs.Sources.{columns_beside, lane_between, lane_of, IsLineOf, Reaches};

use crate::place::Half;
use crate::rows::{load, mean, of_mean, of_means};
use std::simd::prelude::*;

// Rows of samples, each `width` places after the one above it, and where they are of a colour those
// of the other one; else the same again.
#[derive(Clone, Copy)]
pub(crate) struct Source<'a> {
    pub(crate) rows: &'a [u8],
    pub(crate) others: &'a [u8],
    pub(crate) width: usize,
    pub(crate) colours: bool,
}

// The averages of sixteen samples and those one column further right, rounded up, with what is odd
// where a sum of two is; or the samples themselves.
#[derive(Clone, Copy)]
pub(crate) struct Means {
    pub(crate) means: u8x16,
    pub(crate) odd: u8x16,
}

// A row of sixteen predicted samples, and the line below it where that was read.
#[derive(Clone, Copy)]
pub(crate) struct Step {
    pub(crate) row: u8x16,
    pub(crate) below: Means,
}

// The lanes of two vectors, one after the other.
const BESIDE: [usize; 16] = [0, 1, 2, 3, 4, 5, 6, 7, 8, 9, 10, 11, 12, 13, 14, 15];

// `N` samples from a place on.
#[inline(always)]
fn samples_at<const N: usize>(rows: &[u8], at: usize) -> Simd<u8, N>
    requires { at + N ≤ length rows.now }
    ensures samples { IsRowOfSamples N result }
    ensures value { (i : ℕ) → i < N → slice_index result i ≡ slice_index rows.now (at + i) }
{
    load(&rows[at..at + N])
}

// Eight samples, and eight of another list.
#[inline(always)]
fn both(rows: &[u8], others: &[u8], at: usize) -> u8x16
    requires rows { at + 8 ≤ length rows.now }
    requires others { at + 8 ≤ length others.now }
    ensures samples { IsRowOfSamples 16 result }
    ensures first { (i : ℕ) → i < 8 → slice_index result i ≡ slice_index rows.now (at + i) }
    ensures second { (i : ℕ) → i < 8
        → slice_index result (8 + i) ≡ slice_index others.now (at + i) }
{
    let first = samples_at::<8>(rows, at);
    let second = samples_at::<8>(others, at);
    first.shuffle(second, BESIDE)
}

// The sixteen samples at a place.
#[inline(always)]
fn sixteen(source: Source<'_>, at: usize) -> u8x16
    requires { Reaches source at (columns_beside source.colours) }
    ensures samples { IsRowOfSamples 16 result }
    ensures value { (i : ℕ) → i < 16 → slice_index result i ≡ lane_of source.entry at i }
{
    if source.colours {
        return both(source.rows, source.others, at);
    }
    samples_at::<16>(source.rows, at)
}

// The line at a place.
#[inline(always)]
pub(crate) fn line_from(source: Source<'_>, at: usize, right: bool) -> Means
    requires { Reaches source at (columns_beside source.colours + cond right 1 0) }
    ensures { IsLineOf source.entry at right result }
{
    let here = sixteen(source, at);
    if !right {
        return Means {
            means: here,
            odd: Simd::splat(0),
        };
    }
    let further = sixteen(source, at + 1);
    Means {
        means: mean(here, further),
        odd: here ^ further,
    }
}

// The row that is predicted at a place. Where it is half a sample further down, the line there is
// at hand.
#[inline(always)]
pub(crate) fn next_row(
    source: Source<'_>,
    at: usize,
    half: Half,
    rounding: u8,
    above: Means,
) -> Step
    requires rounding { rounding ≤ 1 }
    requires reach { Reaches source (at + cond half.y source.width 0)
        (columns_beside source.colours + cond half.x 1 0) }
    requires above { half.y ≡ true → IsLineOf source at half.x above }
    ensures long { length result.row ≡ 16 }
    ensures row { (i : ℕ) → i < 16
        → slice_index result.row i ≡ lane_between source.entry half rounding at i }
    ensures below { half.y ≡ true
        → IsLineOf source.entry (at + source.entry.width) half.x result.below }
{
    if !half.y {
        let here = line_from(source, at, half.x);
        return Step {
            row: of_mean(here.means, here.odd, rounding),
            below: above,
        };
    }
    let below = line_from(source, at + source.width, half.x);
    Step {
        row: of_means(above.means, above.odd, below.means, below.odd, rounding),
        below,
    }
}
