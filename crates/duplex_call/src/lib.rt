//! What a call of two parties adds to a call: lines with a party's letter, the messages that wait
//! for a picture header, the counts of both parties, and what such a call is.
//!
//! Each party sends a video and receives the other's. What one party says of the other's pictures
//! rides in the headers of its own. `specs/Duplex` says by the events of both parties what each way
//! of the call has met, and the law [`laws::four_stores`] says that all four ends do what the two
//! ideal calls say.
//!
//! ```rust
//! assert_eq!(rt; party_line(b"a S"), Ok(Some((Party::A, Event::Send))));
//! assert_eq!(rt; party_line(b""), Ok(None));
//! assert_eq!(rt; party_line(b"a B 0"), Err(BadLine));
//! ```
#![tactic(auto)]

mod counts;
pub mod laws;
mod line;
mod queue;
pub mod worked;

pub use counts::{Counts, Far};
pub use line::{Party, party_line};
pub use queue::{Carried, Carrier};
