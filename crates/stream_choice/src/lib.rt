//! Which stream a receiver follows, where anyone may have sent a packet; and how many packets it
//! looks at.
//!
//! [`Streams`] says of each packet, by its SSRC, which run of a receiver takes it ([`Taker`]). A
//! stream is followed from its first complete picture on, as long as no half second goes by without
//! one, or until it ends; another is tried beside it then. Of those that were followed before one keeps
//! its run. A [`Budget`] grants so many packets in each second.
//!
//! ```rust
//! let mut streams = Streams::new();
//! assert_eq!(rt; streams.packet(7, 0), Taker::Begins);
//! streams.completed(Run::Tried, 1);
//! assert_eq!(rt; (streams.packet(7, 2), streams.packet(8, 2)), (Taker::Followed, Taker::NoRun));
//! ```
#![tactic(auto)]

mod budget;
pub mod laws;
mod stream;
mod streams;
mod trial;

pub use budget::Budget;
pub use streams::{Run, Streams, Taker, Turn};
