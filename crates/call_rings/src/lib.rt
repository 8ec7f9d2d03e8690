//! What the network of a recorded call keeps: the packets of the last pictures in [`SentPackets`],
//! and the last messages in a [`MessageRing`].
//!
//! All memory is taken at the start. Packets are bytes, and a message is the bytes that were said.
//!
//! ```rust
//! let mut ring = SentPackets::start(alloc, 2, 5, 2)?;
//! ring.begin();
//! ring.push(&[1, 2, 3]);
//! assert_eq!(rt; ring.packet(0, 0), Some([1, 2, 3].as_slice()));
//! ring.begin();
//! ring.begin();
//! assert_eq!(rt; ring.packet(0, 0), None);
//! ```
//!
//! # Decisions
//!
//! - **The last pictures are in circular buffers.** So are their references, and the messages of
//!   `duplex`'s headers. Each picture's packets have a room of their own (`KeptPackets`). All rooms
//!   are requested at the start and none is filled, so a page is touched only when bytes land on
//!   it.
//!
//! - **Rooms say that a step allocates nothing.** `HasMemory` says that each room is as large as
//!   was requested, at least, and holds no more than that. std promises that `extend_from_slice`
//!   then succeeds, but not that the capacity stays.
#![tactic(auto)]

mod kept;
pub mod laws;
mod messages;
mod sent_packets;

pub use messages::MessageRing;
pub use sent_packets::SentPackets;
