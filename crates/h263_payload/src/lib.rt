//! The payload header in front of H.263 data in an RTP packet (RFC 4629, 5.1): reading with the
//! first fault, and writing.
//!
//! [`read_payload`] answers a [`Payload`], which says where the data begins; an [`Opening`] is the
//! header's fixed part. [`write_payload`] writes it, with the picture header in front of a later
//! slice.
//!
//! ```rust
//! let rtp = read(&LATER)?;
//! let want = Payload { extra: Some(HEADER), begins: false, from: 184 };
//! assert_eq!(rt; read_payload(&LATER, &rtp, Format::Cif), Ok(want));
//! ```
#![tactic(auto)]

pub mod laws;
mod payload;
mod reading;
mod writing;

pub use payload::{Opening, Payload};
pub use reading::{read_opening, read_payload};
pub use writing::write_payload;
