//! A receiver that knows when its pictures are due.
//!
//! A [`TimedReceiver`] owns a [`Receiver`](receiver_end::Receiver) and its
//! [`Times`](playout_times::Times). A packet that comes is heard at once, however late it is, unless
//! its picture was played; the next picture is played when it is due.
//!
//! ```rust
//! let params = Params::of(Format::SubQcif);
//! let mut receiver = TimedReceiver::start_at(rt.alloc(), &params, 0, 100)?;
//! let heard = receiver.arrival(&FLAT_PACKET, Arrival { picture: 0, captured: 0, at: 30 });
//! assert_eq!(rt; receiver.due(), Some(130));
//! receiver.finish();
//! ```
#![tactic(auto)]

pub mod laws;
mod timed;

pub use timed::TimedReceiver;
