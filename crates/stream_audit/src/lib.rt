//! An audit of any sender: it judges a log of the packets that a sender sent and of the feedback
//! that it had. Where the verdict is yes, no receiver of the stream refuses a packet or shows a
//! whole picture other than exactly (`laws::audited_streams`).
//!
//! An [`Audit`] takes the entries of a log and comes to a [`Verdict`], which names the first
//! [`Rule`] that is broken. [`verdict_text`] makes its line.
//!
//! ```rust
//! let mut audit = Audit::start(rt.alloc(), &Params::of(Format::SubQcif))?;
//! audit.packet(&FLAT_PACKET);
//! assert_eq!(rt; audit.verdict(), Verdict::Yes { pictures: 1 });
//! audit.packet(&FLAT_PACKET);
//! let rule = Rule::Overlap;
//! assert_eq!(rt; audit.close(), Verdict::No { number: 0, rule });
//! ```
//!
//! # Decisions
//!
//! - **A log is audited as a stream of items.** Feedback between two packets of a picture counts as
//!   after it, which makes no difference there. What comes back need only spell a message that was
//!   said, not be the same bytes. A TRP equal to the picture's TR names the picture 2H before,
//!   which is in no window.
//!
//! - **An audit has room for 2^24 pictures.** Each entry of a log begins at most one. A stream with
//!   its feedback is the run of a sender that captured its pictures, so `sender_stands` applies.
#![tactic(auto)]

mod audit;
mod judging;
mod kept;
pub mod laws;
mod taking;
mod text;
mod verdict;
pub mod worked;

pub use audit::Audit;
pub use text::{Text, verdict_text};
pub use verdict::{Rule, Verdict};
