//! What a receiver says about pictures: back-channel messages of reference picture selection
//! (H.263, Annex N).
//!
//! A [`Message`] of version 1 has three bytes. One of version 2 has five, and its flags name
//! complete pictures above its own. The layout is after Annex N and this project's own. [`write`]
//! and [`read`] turn messages into bytes and back, [`write_message`] and [`read_message`] do it
//! inside a picture header; bytes that are no message have a [`MessageFault`].
//!
//! ```rust
//! for (message, bytes, len) in MESSAGES {
//!     let said = write(&message);
//!     assert_eq!(rt; said, Said { bytes, len });
//!     assert_eq!(rt; read(said.text(), Clock::Custom)?, message);
//! }
//! ```
#![tactic(auto)]

pub mod laws;
mod message;
mod reading;
mod writing;

pub use message::{Message, MessageFault};
pub use reading::{read, read_message};
pub use writing::{Said, message_bits, write, write_message};
