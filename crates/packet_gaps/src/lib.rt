//! Which packets of a stream are missing, and which of them may be asked for again: the Generic
//! NACK of RFC 4585, 6.2.1.
//!
//! [`Gaps`] is told of each packet that comes, and of each play. What it then asks for can come
//! before its picture is due, a round trip after it was asked for; no packet is asked for a third
//! time, or again within a round trip. It keeps 64 gaps at most, the newest, and takes no memory. A
//! packet or a play takes 64 steps at most, an answer 18 times as many.
//!
//! ```rust
//! let mut gaps = Gaps::new();
//! gaps.arrived(65_534, 3);
//! gaps.arrived(1, 4);
//! let moment = Moment { time: 0, round_trip: 50, next: 3, due: 40, period: 33 };
//! let nack = gaps.ask(&moment);
//! assert_eq!(rt; nack, Some(Nack { packet: 65_535, following: 1 }));
//! ```
//!
//! # Decisions
//!
//! - **A gap is of the picture of the packet after it**, or of an earlier one: which of them can't be
//!   known. So the later one's time decides.
//! - **Sequence numbers are counted on**, as RFC 3550 does for its reports, so that a number that
//!   comes again after 65,536 packets is another one. A gap that is 32,768 behind or more isn't
//!   asked for, since its 16 bits may mean another packet by then.
//! - **The mask is looked up bit by bit**, so that it needs no order of the gaps to be right.
#![tactic(auto)]

mod asking;
mod gap;
mod gaps;
mod kept;
pub mod laws;
mod moment;

pub use gaps::{Gaps, Nack};
pub use moment::Moment;
