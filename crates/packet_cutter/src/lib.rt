//! A picture cut into packets, each with the longest slice that keeps it within the limit (RFC
//! 4629).
//!
//! `specs/Cut` says where a picture is cut, and `specs/Packets` gives each packet's bits. A
//! [`Cutter`] takes its memory at the start, and then the macroblocks of one picture after another.
//!
//! ```rust
//! let mut cutter = Cutter::start(rt.alloc(), &SMALL)?;
//! cutter.begin(0, &FIRST);
//! for _ in 0..48 {
//!     cutter.add(&mb);
//! }
//! cutter.finish();
//! assert_eq!(rt; (cutter.count(), cutter.packet(0)), (1, FLAT_PACKET.as_slice()));
//! ```
//!
//! # Decisions
//!
//! - **The cutter reserves `limit` bytes a macroblock.** That saves a bound on the sum of its
//!   packets. Of a header the cut depends on the length alone (`HaveOneForm`).
#![tactic(auto)]

mod cutter;
mod filling;
pub mod laws;
mod packets;

pub use cutter::Cutter;
