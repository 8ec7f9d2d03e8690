//! The command that plays a call of one sender and up to three receivers over a trace.
//!
//! The video is coded once; each receiver has its own packets, plays and messages, by the lines of the
//! trace that begin with its number. `specs/Group` says what the command does with each line, by the
//! runs of the group and of each receiver; `specs/Lines` what a line says.
//!
//! ```rust
//! let pictures = [(Role::Pictures, "one.y4m"), (Role::Pictures2, "two.y4m")];
//! let order = &[(Role::Video, "in.y4m"), (Role::Events, "trace"), pictures[0], pictures[1]];
//! let status = perform::<D, GroupCall>(alloc, &GroupTerms { params, receivers: 2 }, order, desk);
//! ```
//!
//! # Decisions
//!
//! - **Three receivers.** A desk has three roles that pictures can go to: those of the first and of
//!   the second party, and that of a log, which this command hasn't. A group has up to 16 places; more
//!   outputs want more roles of every desk.
//!
//! - **All are there from the start.** No line has a receiver join or leave. Its number is a digit, and
//!   one that nobody has makes a bad line.
//!
//! - **A frame is for all.** `S` has no number. It is refused for the first receiver to which half a
//!   period of pictures is on the way.
#![tactic(auto)]

mod begin;
mod event;
pub mod laws;
mod line;
mod room;
mod show;
mod terms;
mod viewers;

pub use begin::GroupCall;
pub use event::OwnLine;
pub use line::{GroupLine, OwnEvent, group_line};
pub use room::Room;
pub use terms::GroupTerms;
pub use viewers::Viewers;
