//! One way of a call: the pictures of one party go from a sender to a receiver, over a network that
//! keeps their packets until they are delivered.
//!
//! `specs/Both` joins both ends, `specs/Way` says what is kept between them. Both ends are lent to
//! each call of a [`Network`]. It is a [`Way`], which answers what the receiver says, and keeps that
//! besides, by its number, for a trace that brings it back so. What an event may not do is an
//! [`EventRefusal`]; the `check` functions tell it by the counts of both ends, before anything is done.
//!
//! ```rust
//! let mut network = Network::start(alloc, &params, params.clock.period())?;
//! let number = network.send(&mut sender, frame, &[]);
//! network.deliver_all(&mut receiver, number);
//! let mark = network.play(&mut receiver).mark;
//! ```
//!
//! # Decisions
//!
//! - **Far messages.** A far message is reported by its own number, even once it has left the ring.
//!   In `duplex` it refuses even a packet that doesn't exist: nearness asks about the picture.
//!
//! - **A way has words, not a model.** Other crates speak of a `Way` and a `Network` by the words
//!   of `one_way/specs/Way` (`kept_in`, `tally_of`, `OnlyCounts`). A model's value must map back to
//!   the struct, so it would have the same three parts, and others would still name them. Readers
//!   of files have two or three plain fields, and are models (`Y4mPlace`, `TracePlace`,
//!   `LogPlace`).
#![tactic(auto)]

mod both;
pub mod laws;
mod network;
mod references;
mod refusals;
mod tally;
mod way;

pub use both::Both;
pub use network::Network;
pub use references::References;
pub use refusals::{EventRefusal, check_back, check_capture, check_packet, check_play, is_late};
pub use tally::Tally;
pub use way::{Way, are_bytes, bring_back};
