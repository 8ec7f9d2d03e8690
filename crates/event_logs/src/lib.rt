//! The logs of one end: what it met is read from a desk entry by entry, and what it sends is
//! written to one.
//!
//! A [`LogReader`] of a [`Side`] reads each [`Entry`] with its place; why it stops is a [`LogStop`]
//! with its [`LogFault`]. [`write_entry`] writes one: a letter, two bytes of a length, and the
//! bytes.
//!
//! ```rust
//! assert_eq!(rt; write_entry(&mut wire, b'K', b"\0\x01\x02"), Ok(()));
//! let mut reader = LogReader::new(Side::Recv);
//! let entry = reader.next(&mut desk, &mut buf);
//! assert_eq!(rt; entry, Ok(Some((0, Entry::Packet { len: 3 }))));
//! ```
#![tactic(auto)]

mod entry;
mod fault;
mod input;
pub mod laws;
mod reader;
mod writer;

pub use entry::{Entry, Side};
pub use fault::{LogFault, LogStop};
pub use reader::LogReader;
pub use writer::write_entry;
