//! Prediction of a macroblock's samples from a picture that is lent: whole and half samples (H.263,
//! 6.1).
//!
//! [`predict`] gives all of a macroblock as [`Predicted`]; [`luma`] and [`chroma`] fill one of its
//! planes, [`colours`] both of colour.
//!
//! ```rust
//! // columns of 10 and 11 by turns: half a sample across is 11, and 10 with the rounding bit
//! let vector = Vector { x: 1, y: 0 };
//! let mut out = [0; 256];
//! luma(picture, 9, vector, 0, &mut out);
//! assert_eq!(rt; out[0], 11);
//! luma(picture, 9, vector, 1, &mut out);
//! assert_eq!(rt; out[0], 10);
//! ```
//!
//! # Decisions
//!
//! - **Prediction is in lanes of eight bits.** The average of two is one instruction; that of four
//!   is of two averages, less 1 where these rounded up more than the standard (`excess_of`). Cb and
//!   Cr stand beside one another in sixteen lanes, since a vector leads both to the same place.
//!   What a row and the one below it have in common is worked out once. Where a block isn't between
//!   columns, a sample takes the place of its right neighbour, so one form serves all four cases.
//!   Tried, and rejected: lanes of sixteen bits, where each sample is widened and narrowed.
#![tactic(auto)]

mod around;
mod block;
mod macroblock;
mod place;
mod rows;
mod source;

pub use around::{Around, luma_around};
pub use macroblock::{Predicted, chroma, colours, luma, predict};
