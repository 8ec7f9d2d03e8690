//! The choice of each macroblock: how it is coded, and with which levels. H.263 leaves this to the
//! encoder.
//!
//! [`choose`] answers an [`Mb`](h263_types::Mb) that is not coded, predicted by a vector, or coded
//! by itself; [`choose_into`] writes it into a place that is kept, a [`Chosen`].
//!
//! ```rust
//! // one sample that is lighter by 78 leaves no level
//! let mut lighter = [100; SIZE];
//! lighter[128 * 16 + 16] = 178;
//! let frame = PictureRef::new(Format::SubQcif, &lighter);
//! assert!(rt; choose(frame, Some(reference), 9, &header, &params) == Mb::Skip);
//! ```
//!
//! # Decisions
//!
//! - **Levels come from sixteenths.** Two passes rounded to 16 bits (`nearly`) bracket every
//!   coefficient between neighbours. A level on which both agree is exact; a block with another is
//!   transformed again by `forward`. One quotient tells it: by what it leaves, three sixteenths
//!   more are a step more or not (`level_with_rest`). Up to quantiser 4 `forward` runs alone: too
//!   many blocks would be done twice. Tried, and rejected: `nearly` from quantiser 6 on, which
//!   spares an intra picture 0.7 % at 5 and costs a predicted one 2.4 %.
//!
//! - **Blocks that can't have a level are not transformed.** No coefficient's square exceeds the
//!   sum of squares, which the transform keeps, but for rounding (`are_small`). Each sees one of
//!   four symmetric parts, so its square is at most a quarter of that part's sum (`are_below`).
//!   Tried, and rejected: the energies of eight rows of frequencies between `nearly`'s passes. A
//!   first pass costs more than the test, and most blocks have no level: in plain Rust up to
//!   244,000 instructions a predicted picture more in 20 of 21 cases, 29,000 less once.
//!   Tried, and rejected: `are_below` folded across first, without its transposition, which costs
//!   as many instructions as it spares.
//!
//! - **Intra blocks are transformed without that test.** Few have INTRADC alone. Tried, and
//!   rejected: `are_below`, which took a block from 165 ns to 192 in the made video, where none of
//!   2,376 has INTRADC alone, and to 62 where five of six have.
//!
//! - **A skip is told by the marks of the levels**, which are at hand: in plain Rust 34,000
//!   instructions fewer a predicted picture of textures, 37,000 where nothing moves.
//!
//! - **A deviation is worked out only where it may decide.** That is where the vector costs more
//!   than 500 and the macroblock's halves don't differ too much: its samples lie at least as far
//!   from their mean as its halves from each other (`halves_apart`). In plain Rust this second test
//!   saved 79,000 instructions of a predicted picture.
#![tactic(auto)]

mod chosen;
mod coefficients;
mod deviation;
mod intra;
pub mod laws;
mod macroblock;
mod order;
mod predicted;
mod residual;
mod samples;
mod sure;
mod transformed;

pub use chosen::Chosen;
pub use macroblock::{choose, choose_into};
