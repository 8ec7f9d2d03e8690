//! Macroblocks of a slice, read and written, and the vectors that they are predicted from (H.263,
//! 5.3 and 6.1.1).
//!
//! `specs/Text` gives the syntax of a macroblock, and `specs/Written` the text that is written of
//! it. [`read_mb`] finds exactly what the syntax says, or the first fault at its place, and
//! [`write_mb`] writes what is read again, [`write_marked`] the same by marks that are known. A
//! macroblock is an [`Mb`](h263_types::Mb); [`predictor`] is the vector that its own is coded
//! against.
//!
//! ```rust
//! // not coded where the first bit is 1; after it the reader stands at bit 1
//! let mut mb = Mb::Intra { quant: 8, blocks };
//! read_mb(&mut BitReader::new(&[0x80], 0, 8), Kind::P, 8, predictor, reach, &mut mb)?;
//! assert!(rt; mb == Mb::Skip);
//! ```
//!
//! # Decisions
//!
//! - **Vectors are handled by component.** Workaround: the checker passes a signed number as its
//!   bits, so `moved_by` and `median` take one component.
//!
//! - **Few numbers are put.** COD, MCBPC and CBPY are one, both differences of the vector another: of
//!   five stores two are left, 44,000 instructions fewer in a predicted picture of CIF.
//!
//! - **A macroblock of an I picture is read without reach and prediction** (`read_mb_in_i`): 41,000
//!   instructions fewer a picture. Tried, and rejected: six blocks that aren't coded cleared at once,
//!   which takes as many instructions as one by one.
#![tactic(auto)]

pub mod laws;
mod prediction;
mod reading;
mod writing;

pub use prediction::predictor;
pub use reading::{pass_skipped, read_mb, read_mb_in_i};
pub use writing::{write_marked, write_mb};
