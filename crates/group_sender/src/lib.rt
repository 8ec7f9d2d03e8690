//! One sender for up to 16 receivers: each picture refers to the newest one that all of them are
//! known to have (H.263, Annex N), so what one of them loses spoils no later picture of anybody.
//!
//! A [`Group`] has a [`Sender`](sender_end::Sender) and 16 places. A receiver joins at a place, and
//! begins with the next picture (`Receiver::start_at` of `receiver_end`). `specs/Running` is what a
//! group has done: its pictures, and of each receiver what its messages have told since it joined.
//!
//! ```rust
//! group.join(0);
//! group.join(1);
//! group.code(frame, &[]);
//! group.feedback(0, &[0xC0, 0x04, 0x00]); // an ACK of picture 0
//! assert_eq!(rt; group.waiting_for(), Some(1));
//! assert_eq!(rt; group.code(frame, &[]).reference, None);
//! group.feedback(1, &[0xC0, 0x04, 0x00]);
//! assert_eq!(rt; group.code(frame, &[]).reference, Some(0));
//! ```
//!
//! # Decisions
//!
//! - **The group chooses, its sender codes.** `Sender::code_from` takes the reference; the sender
//!   is told of no message. Tried, and rejected: telling it by messages of its own what all have,
//!   and to forget where a receiver joins. Then one that joins and leaves at once costs an intra
//!   picture that nobody needed.
//!
//! - **A place keeps its selector when its receiver changes.** Who joins is known to have nothing
//!   from before, so what was said of earlier pictures, by it or by another, doesn't count.
//!
//! - **Where nobody is there, all have every picture.** So each refers to the one before.
//!
//! - **Who holds back is told, not put out.** `waiting_for` names the first receiver that is known
//!   to have no picture in the window. How long to wait for it is the caller's choice.
#![tactic(auto)]

mod group;
pub mod laws;
mod member;
mod members;
mod waiting;

pub use group::Group;
