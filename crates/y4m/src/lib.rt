//! Y4M text: a video is read from a desk frame by frame, and pictures are written to one.
//!
//! A [`Y4mReader`] reads; why it stops is a [`VideoStop`], and what is wrong with a video a
//! [`Y4mFault`] with its byte. [`write_head`] and [`write_frame`] write pictures with their marks.
//!
//! ```rust
//! // after "YUV4MPEG2 W128 H96\n", "FRAME\n" and 18,432 bytes
//! let mut reader = Y4mReader::head(&mut desk)?;
//! assert_eq!(rt; reader.format(), Format::SubQcif);
//! assert_eq!(rt; reader.frame(&mut desk, &mut samples), Ok(true));
//! assert_eq!(rt; reader.frame(&mut desk, &mut samples), Ok(false));
//! ```
//!
//! # Decisions
//!
//! - **A Y4M line is read whole before it is checked.** Nothing after it may be taken, so the
//!   reader takes the fewest bytes that a line can have, then one at a time. So a failed read
//!   within a line comes before any fault of it.
//!
//! - **The place of NotY4m.** `place_of_not_y4m` states it without a reader, inside the first word
//!   and just after it. Beyond, any byte may lead to a video, unless the newline is missing at byte
//!   256 or at the end.
#![tactic(auto)]

mod fault;
mod frame;
mod head;
mod input;
pub mod laws;
mod line;
mod reader;
mod writer;

pub use fault::{VideoStop, Y4mFault};
pub use reader::{MAX_FRAMES, Y4mReader};
pub use writer::{write_frame, write_head};
