//! Reconstruction: the samples of macroblocks, from their levels (H.263, 6.2) and, in P pictures,
//! from a reference (6.1, 6.3).
//!
//! [`recon_mb`] draws one macroblock into a picture that is lent, [`recon_predicted`] one whose
//! prediction is at hand, [`recon_slice`] those of a slice. [`put_undrawn`] leaves an intra
//! macroblock's levels where its samples are to stand, and [`draw_undrawn`] draws such a picture
//! when it is wanted.
//!
//! ```rust
//! let mut out = PictureMut::new(Format::SubQcif, &mut bytes);
//! recon_mb(&macroblock(), 9, &HEADER, None, &mut out);
//! for (plane, x, y, want) in SAMPLES {
//!     assert_eq!(rt; out.seen().sample(plane, x, y), want);
//! }
//! ```
//!
//! # Decisions
//!
//! - **Reconstruction takes only format and rounding of a header.** So it is a function of a header
//!   without numbers. INTRADC's (F + 4) / 8 is rounded down, which after its limit equals rounding
//!   toward zero.
//!
//! - **A block with its first level alone is flat.** An intra block is INTRADC, an inter block adds
//!   (value + 4) / 8, rounded down, with no transform.
//!
//! - **A slice has one place for what is predicted**, which isn't cleared or copied for each
//!   macroblock, and of a predicted one's blocks those without levels are told from their largest
//!   size. In plain Rust the two spare grain and a noise of 3 about 42,000 instructions a predicted
//!   picture.
#![tactic(auto)]

mod blocks;
mod classes;
mod coded;
pub mod laws;
mod macroblocks;
mod predicted;
mod skipped;
mod squares;
mod undrawn;
mod values;

pub use macroblocks::{recon_mb, recon_predicted, recon_slice};
pub use undrawn::{draw_undrawn, put_undrawn};
