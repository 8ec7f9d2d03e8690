//! The trace of a call: lines that are read from a desk one by one, each with its number, and the
//! event that a line says.
//!
//! [`line`] reads one line to an [`Event`]; a [`TraceReader`] reads a whole trace, and why it stops
//! is a [`TraceStop`] with its [`TraceFault`].
//!
//! ```rust
//! assert_eq!(rt; line(b"S"), Ok(Event::Send));
//! assert_eq!(rt; line(b"D 0.0"), Ok(Event::Packet { number: 0, place: 0 }));
//! assert_eq!(rt; line(b"SS"), Err(BadLine));
//! ```
//!
//! # Decisions
//!
//! - **Traces are read byte by byte.** Any byte may be the newline after which nothing may be
//!   taken. `HostDesk` reads up to 4,096 bytes ahead (`input_left`); another reader of the pipe may
//!   miss those.
#![tactic(auto)]

mod event;
mod fault;
mod input;
pub mod laws;
mod reader;

pub use event::{BadLine, Event, line};
pub use fault::{TraceFault, TraceStop};
pub use reader::TraceReader;
