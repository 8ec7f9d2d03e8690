//! How a run ends, and the lines of its report.
//!
//! A [`Status`] is what a run ends with, and [`refusal_line`] says why. A [`Line`] is built word by
//! word; [`picture_line`] is the line of a picture.
//!
//! ```rust
//! let mut line = Line::empty();
//! line.pair("played", 4);
//! line.pair("held", 1_048_576);
//! line.end();
//! assert_eq!(rt; line.text(), b"played 4 held 1048576\n".as_slice());
//! ```
//!
//! # Decisions
//!
//! - **A run can always write its last line.** `refusal_line` has no precondition; its line is
//!   empty for Ok, WriteFault and a report that could not be opened. A line of counts asks for room
//!   for its text, or 22 bytes more than the word (`HasRoomForWord`), so callers needn't know the
//!   digits.
#![tactic(auto)]

mod line;
mod picture;
mod refusal;
mod status;

pub use line::Line;
pub use picture::picture_line;
pub use refusal::refusal_line;
pub use status::Status;
