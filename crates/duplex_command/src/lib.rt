//! The command that plays a call of two parties: each sends a video and receives the other's, and
//! their messages travel in the picture headers of the other way.
//!
//! `specs/Duplex` says what it does with each line of the trace, by the ideal calls of both ways.
//! A turn is written once, for the first party: the second one's is that turn over the desk with
//! both exchanged. What an event does to the ends of both parties is `duplex_ends`'s. `specs/Begin`
//! says how it begins: both heads are read, and then those of the pictures written.
//!
//! ```rust
//! let videos = [(Role::Video, "a.y4m"), (Role::Video2, "b.y4m")];
//! let pictures = [(Role::Pictures, "a_shown.y4m"), (Role::Pictures2, "b_shown.y4m")];
//! let order = &[videos[0], videos[1], (Role::Events, "trace"), pictures[0], pictures[1]];
//! let status = perform::<D, Duplex>(alloc, &params, order, desk);
//! ```
//!
//! # Decisions
//!
//! - **Two parties are one desk seen two ways.** For b a turn of `duplex` runs over a `Second`,
//!   which exchanges the roles; one lemma carries the result back. A desk tells its loans, which no
//!   call changes: else a call through a lent `Second` could replace it by one over another desk.
#![tactic(auto)]

mod begin;
mod event;
mod heads;
pub mod laws;
mod second;
mod show;
mod station;
mod talk;

pub use begin::Duplex;
pub use second::{second_result, second_status};
pub use station::Station;
pub use talk::Talk;
