//! The picture header of H.263 (5.1) with Annexes K and N on, from the last bits of the start code
//! to the last PEI.
//!
//! A [`Header`] is what it says. [`write_header`] writes it and [`read_header`] reads it again, or
//! answers the first fault at its place; [`header_bits`] is its length.
//!
//! ```rust
//! let bytes = [0x80, 0x02, 0x1c, 0x90, 0x31, 0x00, 0x11, 0xca, 0x00, 0xff];
//! let mut reader = BitReader::new(&bytes, 0, 80);
//! let header = read_header(&mut reader, Format::SubQcif)?;
//! assert_eq!(rt; header, Header::intra(Format::SubQcif, Clock::Standard, 0, 8));
//! assert_eq!(rt; reader.at(), 67);
//! ```
//!
//! # Decisions
//!
//! - **Headers are the same if all kept fields are.** SQUANT, GFID, CPCFC, PSUPP and the free bits
//!   of PTYPE may differ.
//!
//! - **A header has a comparison of its own.** `Header::is_same` compares field by field.
//!   Workaround: a proof can't use `==`.
#![tactic(auto)]

mod header;
pub mod laws;
mod reading;
mod same;
mod writing;

pub use header::Header;
pub use reading::{read_header, read_quant};
pub use writing::{header_bits, kind_bits, write_header, write_reference};
