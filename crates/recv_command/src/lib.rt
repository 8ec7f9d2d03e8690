//! The receiver alone, as a command: packets and plays come from a log, and what it shows, says and
//! counts goes to the pictures, the wire and the report. The command is [`Recv`], a machine of
//! `log_command` for [`Receiving`]. [`Join`] is the same with a joiner before the receiver.
//!
//! ```rust
//! let order = &[(Role::Events, "log"), (Role::Pictures, "out"), (Role::Wire, "wire")];
//! let status = perform::<D, Recv>(alloc, params, order, desk);
//! ```
//!
//! # Decisions
//!
//! - **`recv --join` is a second command over the log.** `Joining` has the plain command's rules
//!   for each packet that the joiner gives (`hears`). After a failed write the receiver still hears
//!   the rest of that entry. A packet of 65,400 coded bytes may give 21,801, so counts have 64
//!   bits.
#![tactic(auto)]

mod delivering;
mod join;
mod join_tally;
pub mod laws;
mod parts;
mod recv;
mod tally;

pub use join::{Join, Joining};
pub use join_tally::JoinTally;
pub use recv::{Receiving, Recv};
pub use tally::Tally;
