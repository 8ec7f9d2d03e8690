//! The command of a sender alone: it meets the entries of a log, captures a frame of its video at
//! each capture, and writes the packets as the log that the other end meets.
//!
//! `specs/Send` says what it does next, by what is left of its inputs; the packets are those of
//! `sender_run` of `call_model`. The command is [`Send`], a machine of `desk_program`.
//!
//! ```rust
//! let order = &[(Role::Video, "in"), (Role::Events, "log"), (Role::Wire, "wire")];
//! let status = perform::<D, Send>(alloc, params, order, desk);
//! ```
#![tactic(auto)]

mod capture;
pub mod laws;
mod machine;
mod sending;
mod tally;

pub use machine::Send;
pub use sending::Sending;
use tally::Tally;
