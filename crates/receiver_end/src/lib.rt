//! The receiver of a call: it takes packets as they come, decodes their slices at once, shows a
//! picture at each play, and says what it has and what it lacks (H.263, Annex N).
//!
//! A [`Receiver`] answers [`Heard`] to a packet and [`Played`] to a play; a [`PacketFault`] says
//! why a packet was refused.
//!
//! ```rust
//! let mut receiver = Receiver::start(rt.alloc(), &Params::of(Format::SubQcif))?;
//! let nothing = receiver.play();
//! let late = receiver.packet(&FLAT_PACKET);
//! receiver.finish();
//! assert_eq!(rt; (nothing.mark, late), (Mark::Held, Heard::Late));
//! ```
//!
//! # Decisions
//!
//! - **A receiver has `lead + 2` work pictures.** One for each open number and one for the last
//!   played, by number modulo `lead + 2`. A complete picture is shown from its slot, which no open
//!   number takes before the next play.
//!
//! - **A repeated packet is read whole.** The first fault of its bytes comes before Late, Early and
//!   Repeat, and may stand in its last macroblock. What was taken isn't kept as bytes to compare.
#![tactic(auto)]

mod answers;
mod drawing;
mod judging;
mod kept;
pub mod laws;
mod messages;
mod numbers;
mod patching;
mod playing;
mod receiver;
mod starting;
mod taking;

pub use answers::{Arrival, Heard, PacketFault, Played};
pub use receiver::Receiver;
