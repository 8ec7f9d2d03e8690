//! Packets of one slice from packets that follow on one another, or that carry several slices
//! (RFC 4629).
//!
//! A [`Joiner`] takes packets in any order, and holds those of the last 64 numbers. Once a unit of
//! packets is whole it gives a packet for each of its slices.
//!
//! ```rust
//! let mut joiner = Joiner::start(alloc)?;
//! let took = joiner.take(&packet, Format::Qcif);
//! let mut count = 0;
//! while let Some(packet) = joiner.next() {
//!     count += 1;
//! }
//! joiner.finish();
//! assert_eq!(rt; (took, count), (Took::Held, 1));
//! ```
//!
//! # Decisions
//!
//! - **A payload header that is cut.** For the joiner Ended is at the extra header's first bit,
//!   even where V's byte is missing (without a joiner at that byte). For a cut inside the 16 bits
//!   it is at the first of them.
//!
//! - **Held packets are in a `Vec` by number modulo 64.** When the greatest number grows by n, n
//!   places are cleared. Tried, and rejected: a `circular_buffer`, which counts from its oldest
//!   item, and so needs an empty place for each gap.
//!
//! - **A part may be empty.** Data that begins with two bytes of zeros and a byte of at least 128
//!   has an empty first part, given as a packet without data. No data is one empty part.
//!
//! - **A unit is copied once.** It goes into the outgoing slot when its first packet is asked for;
//!   headers are written just before each part. Workaround: `next` says what the joiner ends as by
//!   a starred clause (`passes`), for which alone clauses see `given`.
#![tactic(auto)]

mod front;
mod giving;
mod joiner;
pub mod laws;
mod parts;
mod ring;
mod split;
mod took;
mod units;
pub mod worked;

pub use joiner::Joiner;
pub use took::Took;
