//! The ends of both parties of a call, in memory: no desk is known here.
//!
//! [`PartyEnds`] are the ends of one party's pictures: the party's own sender, the other party's
//! receiver of them, the way between both, and the messages that travel with them. What that
//! receiver says waits with the other party for its next picture header, and comes back with the
//! packets of that picture. So a delivery and a play take the ends of both parties, `own` those of
//! the picture's party.
//!
//! `specs/Pair` says what both have done, by the definitions of `duplex_call`. The `check`
//! functions tell a refusal before anything is done.
//!
//! ```rust
//! let mut a = PartyEnds::start(alloc, &params)?;
//! let mut b = PartyEnds::start(alloc, &params)?;
//! a.send(frame);
//! check_delivery(&a, &b, 0)?;
//! deliver_all(&mut a, &mut b, 0);
//! let mark = play(&mut a, &mut b).mark;
//! ```
#![tactic(auto)]

mod bringing;
mod checks;
mod events;
mod headers;
pub mod laws;
mod party;
mod saying;

pub use checks::{check_delivery, check_play, check_send};
pub use events::{deliver, deliver_all, play};
pub use headers::CarriedRing;
pub use party::PartyEnds;
