//! The packets of RTP that were sent last, so that a NACK (RFC 4585, 6.2.1) can be answered: each is
//! found by its sequence number, byte for byte.
//!
//! [`Repeats`] has a place for each remainder of sequence numbers, and in it the last packet whose
//! number has this remainder. All memory is taken at the start; to keep or to find a packet takes no
//! more steps where many are kept.
//!
//! ```rust
//! let mut repeats = Repeats::start(alloc, 512, 1_500)?;
//! repeats.keep(&packet);
//! assert_eq!(rt; repeats.find(7), Some(packet.as_slice()));
//! assert_eq!(rt; repeats.find(8), None);
//! ```
//!
//! # Decisions
//!
//! - **The places are a power of two**, so that numbers that follow one another have places that do,
//!   also where they begin again after 65,535. So the last packets are kept, at least as many as
//!   were asked for, and fewer than twice as many.
#![tactic(auto)]

pub mod laws;
mod repeats;

pub use repeats::Repeats;
