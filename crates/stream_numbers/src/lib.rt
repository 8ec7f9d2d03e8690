//! Which picture each packet of a stream is of, and when that was captured.
//!
//! A packet says both by numbers that start anew: the temporal reference (H.263, 5.1.2) after 256 or
//! 1,024 pictures, the timestamp (RFC 3550, 5.1) after 2^32 ticks of 90 kHz, the sequence number
//! after 2^16 packets. [`Numbers`] counts them on, by the packets in any order, and answers a
//! [`Place`]. No stream runs ahead of the receiver's clock by more than two seconds.
//!
//! ```rust
//! let mut numbers = Numbers::start(Rate { period: 256, rate: 30_000, second: 1_001 });
//! numbers.place(&Packet { reference: 255, sequence: 7, timestamp: 0 }, 0);
//! let place = numbers.place(&Packet { reference: 0, sequence: 8, timestamp: 3_003 }, 33_000_000);
//! assert_eq!(rt; place.map(|place| place.number), Some(256));
//! ```
#![tactic(auto)]

mod counting;
pub mod laws;
mod newest;
mod numbers;
mod packet;
mod rate;
mod stepping;

pub use numbers::Numbers;
pub use packet::{Packet, Place};
pub use rate::Rate;
