//! Bits of bytes, most significant first: reading and writing them, and syntax as data.
//!
//! [`BitReader`] reads numbers of a given width and answers a [`Fault`] with its [`FaultKind`] and
//! place; [`BitWriter`] appends them to bytes that it was lent. `specs/Syntax` says once, for every
//! syntax, which bits spell a value and what a reader of any bits finds. `proofs/SyntaxLaws` has
//! the general laws of syntax: of all proofs the one module that other crates may cite.
//!
//! ```rust
//! let mut reader = BitReader::new(&[0xff, 0xff], 3, 14);
//! assert_eq!(rt; reader.bits(5), Ok(31));
//! assert_eq!(rt; reader.bits(7), Err(FaultKind::Ended.at(8)));
//! ```
#![tactic(auto)]

mod fault;
pub mod laws;
mod reader;
mod writer;

pub use fault::{Fault, FaultKind};
pub use reader::BitReader;
pub use writer::BitWriter;
