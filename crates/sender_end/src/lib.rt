//! The sender of a call by itself: frames are coded into packets, and feedback tells which
//! pictures the other end has (H.263, Annex N).
//!
//! Contracts see a sender as the record of `specs/State`. `specs/Stands` says for which entries it
//! stands: `sender_run` of `call_model` is what it has coded and knows. A [`Sender`] answers
//! [`Coded`] to a frame and [`Feedback`] to a message; its [`Pace`](h263_types::Pace) gives the
//! quantiser.
//!
//! ```rust
//! sender.code(frame, &[]);
//! sender.feedback(&[0xC0, 0x04, 0x00]); // an ACK of picture 0
//! let coded = sender.code(frame, &[]);
//! assert_eq!(rt; coded.reference, Some(0));
//! sender.finish();
//! ```
//!
//! # Decisions
//!
//! - **A sender is one value, including its pace.** `SendPace` is a pace with a target or without.
//!   Clauses see the packets of the last picture, not the cutter. Tried, and rejected: a machine of
//!   `send` for any pace, which proves everything twice.
//!
//! - **A sender holds a run, not a list of entries.** So its pace may change with each picture. It
//!   keeps how many pictures were coded at its last forget; a lower reference is none
//!   (`from_floor`). Tried, and rejected: an empty list of known pictures after a forget. A late
//!   acknowledgement makes an old one known again.
//!
//! - **Who wants packets alone says so at the start.** A sender of `start_without_recon` leaves an
//!   intra picture undrawn until another is predicted from it, which most never see. Contracts see
//!   the pictures as they are once all are drawn, so no clause of the other calls tells the two
//!   starts apart. `recon` has `draws_all` as a condition, which `start` gives and no call takes
//!   away: of a sender of `start` it may be asked after any list of calls, as ever. Tried, and
//!   rejected: a second `code` that doesn't draw (all its clauses twice, and `recon` hangs on which
//!   was called last); a type of its own without `recon` (who lends a sender on names the type, so
//!   all of its contracts twice).
//!
//! - **Only intra pictures are left undrawn.** The prediction of another is at hand while it is
//!   coded. So drawing one late is one step, never a chain. Its levels, a byte each, stand where its
//!   samples are to stand: it takes no memory but a byte for its quantiser.
#![tactic(auto)]

mod answers;
mod coding;
mod headers;
mod late;
mod next;
mod sender;

pub use answers::{Coded, Feedback};
pub use sender::Sender;
