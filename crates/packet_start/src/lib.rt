//! The start of a packet (RFC 4629, 5.1): the header of its picture, read without the slice.
//!
//! [`read_start`] answers the [`Header`](picture_header::Header) of a packet in an expected format,
//! or the first fault; [`find_start`] that of a packet in whichever format it is. So a program
//! knows the picture, its reference and the messages of a packet before an end is there to take it.
//!
//! ```rust
//! let header = read_start(&FLAT, Format::SubQcif)?;
//! assert_eq!(rt; (header.tr, header.trp), (0, None));
//! assert_eq!(rt; find_start(&FLAT), Some(header));
//! ```
#![tactic(auto)]

pub mod laws;
mod reading;

pub use reading::{find_start, read_start};
