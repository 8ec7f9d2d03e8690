//! Both ends of a call for C, and for what loads a library of C. `include/h263rps.h` declares the
//! functions, and docs/LIBRARY.md says how they are used.
//!
//! A slot is what C keeps of an end ([`Slot`]). Each function answers 0, or the number of a
//! [`EndRefusal`] that changed nothing. Clauses see in a slot the end inside it, which stands for a
//! list of entries as that end by itself does.
//!
//! No crate can stand on a static library, and tests of its own would prove all of it twice: they are
//! `library/tests/slots.c`, by the exports.
//!
//! # Decisions
//!
//! - **An end for C is a slot of numbers.** A slot holds a pointer to a box, and a ghost field says
//!   what is in it. Six functions on that pointer are proved step by step, all else like other
//!   code. Nothing can check that C hands back the slot that it got. Workaround: an exported
//!   function can't take a type that contains a `Vec`.
//!
//! - **A play that lends its picture is two exports.** `h263rps_raw_receiver_next` plays, and
//!   `h263rps_raw_receiver_shown` writes the loan into a parameter. Workaround: a contract can
//!   describe a lent slot only after the loan (`KeepsEnd`), and an exported function can't return a
//!   reference.
#![tactic(auto)]

mod answers;
mod asked;
mod counting;
mod datagram;
mod ends;
mod group;
mod group_slots;
mod handles;
mod joining;
mod kept_group;
mod kept_session;
pub mod laws;
mod lining;
mod managing;
mod messages;
mod pacing;
mod receiver;
mod refusals;
mod repeating;
mod resetting;
mod running;
mod sender;
mod sending;
mod session;
mod session_answers;
mod session_repair;
mod session_slots;
mod start;
mod starting;
mod statistics;
mod timing;

pub use answers::{Answer, CMessage, Made, Reply};
pub use asked::Asked;
pub use counting::Statistics;
pub use group_slots::GroupSlot;
pub use handles::Slot;
pub use lining::CBounds;
pub use refusals::EndRefusal;
pub use session_answers::{CArrived, CCounts, CNack, CTurn};
pub use session_slots::SessionSlot;
pub use start::Start;
pub use timing::Timing;

/// The most pictures of a run.
const MOST_PICTURES: u32 = 1_048_576;
