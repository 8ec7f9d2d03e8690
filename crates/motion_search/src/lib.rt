//! The motion search: of the vectors of whole samples around a macroblock the one that predicts it
//! best, and then of that one and its neighbours half a sample away. The choice is this project's
//! own; H.263 leaves it to the coder.
//!
//! [`search`] answers the [`Vector`](h263_types::Vector) and its cost, and [`search_from`] the same,
//! sooner: it begins at a guess, and [`KeptSums`] are what the search of one macroblock leaves to
//! those after it.
//!
//! ```rust
//! // columns of 10 and 11 by turns: half a sample across lies 11 where that is rounded up
//! let frame = PictureRef::new(Format::SubQcif, &[11; SIZE]);
//! assert_eq!(rt; search(frame, reference, 0, 7, 0), (Vector { x: 1, y: 0 }, 0));
//! ```
//!
//! # Decisions
//!
//! - **Sums of areas rule out most vectors.** Blocks differ by at least what the sums of their 8 x
//!   8 quarters do together. One comparison marks which of sixteen vectors may still win. Tried,
//!   and rejected: sums of a whole picture (200 kB) or for each vector (they cost more than they
//!   save); areas of 4 x 4: of the vectors that pass, they rule out 61 in 100 in grain, 42 in
//!   textures and 50 in a pan, but a test takes 22 instructions where a whole sum takes 57, and
//!   making them more than that saves.
//!
//! - **Sums are kept for the next row of macroblocks.** They are made once a row, and the next row
//!   moves up those that it needs (`KeptSums`). At the right edge the last sixteen columns stand
//!   twice: areas that reach into the second half belong to no vector in reach.
//!
//! - **Rows are visited from the top down.** Each row is marked against the best cost so far.
//!   Tried, and rejected: from the middle outwards, which left 27.3 vectors a macroblock for 27.5
//!   at a noise of 3, and 37.9 for 34.8 at a cut.
//!
//! - **The limit stands in sixteen lanes**, made again only after a row with marks. Tried, and
//!   rejected: the same in a function that returns the lanes, 10,000 to 19,000 instructions more.
//!
//! - **The place of a row's sums runs on** from row to row. Worked out anew for each row, in 32 bits,
//!   it takes 36,000 instructions more of a predicted picture at a noise of 3 (4,241,000 for
//!   4,205,000). Tried, and rejected: worked out anew in 64 bits, 29,000 more.
//!
//! - **Vectors that remain are summed up whole.** `sad` adds the lanes of 64 samples before it sums
//!   them up, which saves 54,000 instructions a picture in the deviations. Tried, and rejected:
//!   early exits. Of 221,253 vectors at a noise of 3 none ended after four rows, 1,542 after eight.
//!
//! - **The search begins with the last macroblock's vector.** A low cost found early rules out
//!   more: a trial in C, without sums, took 40 to 47 % less time where all moved by (6, 5), and 5
//!   to 15 % less at (2, 1).
//!
//! - **A half step predicts eight neighbours in one pass.** Where all are in reach (`luma_around`),
//!   neighbours above and below share fifteen rows, which saves 330,000 instructions of a predicted
//!   picture of grain. Tried, and rejected: a test after each quarter of the rows, which took a
//!   third more on a moving texture with noise; and bounds by the sums of quarters before the
//!   differences, which rule out 5.4 of the eight in textures, 3.2 in a pan and 0.3 in grain, but
//!   cost what they save. The rows stand beside the sums, in a place that isn't cleared for each
//!   macroblock: in plain Rust some 34,000 instructions fewer (`KeptSums`).
#![tactic(auto)]

ghost use Rattle.std.specs.Prelude.{◌≡◌, ◌<◌, ◌≤◌};
ghost use Rattle.h263_types.specs.Sizes.{mbs_of};
ghost use Rattle.h263_types.specs.Vectors.{InReach};
ghost use Rattle.h263_planes.specs.Lent.{picture};
ghost use Rattle.motion_search.specs.Cost.{samples_of, IsCost};
ghost use Rattle.motion_search.specs.Best.{best_vector};
ghost use Rattle.motion_search.specs.Areas.{AreSumsOf};

mod areas;
mod around;
mod candidate;
mod half;
mod kept;
pub mod laws;
mod lent;
mod marks;
mod predicted;
mod square;
mod start;
mod strip;
mod whole;
mod window;
mod within;

use crate::half::best_of_neighbours;
use crate::whole::best_of_whole;
use crate::window::SearchArea;
use h263_planes::PictureRef;
use h263_types::Vector;
use half_sample::luma;
pub use kept::KeptSums;

/// The vector by which `reference` predicts macroblock `mb` of `frame` best, and its cost: the 256
/// absolute luma differences, less 100 for the zero vector. The search goes `radius` whole samples
/// far, 0 to 15, and then half a sample further; `rounding` is the picture's rounding bit, 0 or 1.
pub fn search(
    frame: PictureRef<'_>,
    reference: PictureRef<'_>,
    mb: u32,
    radius: u8,
    rounding: u8,
) -> (Vector, i32)
    requires format { (picture frame).format ≡ (picture reference).format }
    requires mb { mb < mbs_of (picture reference).format }
    requires radius { radius ≤ 15 }
    requires rounding { rounding ≤ 1 }
    ensures vector { result.0
        ≡ (best_vector (picture frame.entry) (picture reference.entry) mb radius rounding).vector }
    ensures cost { result.1
        ≡ (best_vector (picture frame.entry) (picture reference.entry) mb radius rounding).cost }
    ensures reach { InReach (picture reference.entry).format mb result.0.x result.0.y }
    ensures range { IsCost result.1 }
{
    let mut sums = KeptSums::none();
    search_from(
        frame,
        reference,
        mb,
        radius,
        rounding,
        Vector::ZERO,
        &mut sums,
    )
}

/// The same for one macroblock of many. It answers what [`search`] answers whatever `guess` is,
/// sooner where the guess is near, as a neighbour's vector. `sums` are those that were kept of this
/// reference, or none: it adds those that it needs.
pub fn search_from(
    frame: PictureRef<'_>,
    reference: PictureRef<'_>,
    mb: u32,
    radius: u8,
    rounding: u8,
    guess: Vector,
    sums: &mut KeptSums,
) -> (Vector, i32)
    requires format { (picture frame).format ≡ (picture reference).format }
    requires mb { mb < mbs_of (picture reference).format }
    requires radius { radius ≤ 15 }
    requires rounding { rounding ≤ 1 }
    requires sums { AreSumsOf (picture reference) sums.old }
    ensures vector { result.0
        ≡ (best_vector (picture frame.entry) (picture reference.entry) mb radius rounding).vector }
    ensures cost { result.1
        ≡ (best_vector (picture frame.entry) (picture reference.entry) mb radius rounding).cost }
    ensures reach { InReach (picture reference.entry).format mb result.0.x result.0.y }
    ensures range { IsCost result.1 }
    ensures sums { AreSumsOf (picture reference.entry) sums.new }
{
    let block = samples(frame, mb);
    let area = SearchArea { radius, guess };
    let whole = best_of_whole(&block, reference, mb, area, sums);
    let best = best_of_neighbours(&block, reference, mb, rounding, whole, &mut sums.around);
    (best.vector, best.cost)
}

// The luma samples of a macroblock, by rows from the top: what the zero vector predicts from the
// frame itself.
fn samples(frame: PictureRef<'_>, mb: u32) -> [u8; 256]
    requires mb { mb < mbs_of (picture frame).format }
    ensures { result ≡ samples_of (picture frame.entry) mb }
{
    let mut block = [0; 256];
    luma(frame, mb, Vector::ZERO, 0, &mut block);
    block
}
