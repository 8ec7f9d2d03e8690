//! A call of one sender and several receivers, in memory: the group, the packets of its last pictures,
//! and each receiver with what it says.
//!
//! A [`Broadcast`] has the [`Group`](group_sender::Group), and keeps the packets and references of its
//! last pictures, which are the same for all. A [`Viewer`] is one receiver with the messages that it
//! said and the marks of its plays; it is lent the broadcast where packets reach it. `specs/Viewing`
//! is what a receiver has done; what a group has done is `Groups` of `group_sender`.
//!
//! ```rust
//! let mut cast = Broadcast::start(alloc, &params, params.clock.period())?;
//! cast.join(0);
//! let mut viewer = Viewer::start(alloc, &params)?;
//! let number = cast.send(frame);
//! viewer.deliver_all(&cast, number);
//! if let Some((_, said)) = viewer.message(0) {
//!     cast.hear(0, said.text());
//! }
//! ```
//!
//! # Decisions
//!
//! - **Each receiver by itself.** A receiver's run is its own entries, and the group's run its own:
//!   nothing here joins them, so a receiver more costs a value and not a proof. The law `group` of
//!   `group_sender` says what they come to together.
//!
//! - **A message that has left the ring is far.** Of each receiver the last 1,024 are kept. One
//!   before them is refused by its own number, as `call` tells it.
#![tactic(auto)]

mod broadcast;
pub mod laws;
mod refusals;
mod viewer;

pub use broadcast::Broadcast;
pub use refusals::{check_message, check_next, check_number, check_shown};
pub use viewer::Viewer;
