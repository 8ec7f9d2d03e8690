//! The transforms of a block of 8 x 8 numbers (H.263, 6.2.4): [`inverse`] gives samples, or what
//! they differ by from a prediction; [`forward`] gives coefficients. Both are exact: a double sum
//! with one rounding. [`nearly`] gives sixteenths of coefficients, which bracket them
//! ([`near_brackets`](laws::near_brackets)), in three fifths of the instructions.
//!
//! ```rust
//! // 100 at the lowest frequency across, and nothing else
//! let mut values = [0; 64];
//! values[1] = 100;
//! let samples = inverse(&values);
//! for y in 0..8 {
//!     let row = &samples[8 * y..8 * y + 8];
//!     assert_eq!(rt; row, [17, 15, 10, 3, -3, -10, -15, -17].as_slice());
//! }
//! ```
//!
//! # Decisions
//!
//! - **Rows first, then columns, by lanes.** A pass takes eight vectors of 16 bits to eight of 32.
//!   The sums between have up to 27 bits, so the second pass runs twice, on their high and low
//!   parts: (H + ((L + 2^24) >> 13)) >> 12 is the same rounding. With rows first the result needn't
//!   be transposed.
//!
//! - **Small values stay in 32 bits.** Values whose sizes add up to at most 263 fit, since no
//!   number of the basis exceeds 2841. Larger blocks, a quarter of those of made textures, take the
//!   second pass twice. Where one row or column alone has levels, one pass and a shift by 14
//!   suffice, whatever the sizes.
//!
//! - **The forward pass takes odd sums from sixteen lanes.** With `four_products` the compiler
//!   finds the multiply-add of both pairs: 623 instructions a block for 737 (in a copy in Rust).
//!   Tried, and rejected: no transposition in the first pass (649, or 598 with rows folded first:
//!   too little for a second form); even sums likewise (725).
//!
//! - **A transform's rows are structs of one vector.** Workaround (`Row`): the rules of borrowing
//!   don't cover `[i16x8; 8]` yet. Tried, and rejected: structs of eight fields (105 ns for 88),
//!   and arrays of numbers (a third longer still).
#![tactic(auto)]

pub mod laws;
mod lines;
mod narrow;
mod parts;
mod passes;
mod sixteenths;
mod small;
mod terms;
mod turns;
mod two_passes;

pub use lines::{inverse_of_column, inverse_of_row};
pub use narrow::{inverse_by_rows, narrow_inverse};
pub use sixteenths::nearly;
pub use small::{are_below, sum_of_squares};
pub use two_passes::{forward, inverse};
