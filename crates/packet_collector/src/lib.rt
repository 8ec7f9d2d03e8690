//! Packets read to slices (RFC 4629, H.263), and which macroblocks of the open pictures were taken.
//!
//! [`read_packet`] answers a [`Piece`], and fills the macroblocks that it has. A [`Collector`]
//! knows which were taken, and says by [`Place`] where a piece stands to them.
//!
//! ```rust
//! let mut mbs = [Mb::Skip; 48];
//! let piece = read_packet(&FLAT, Format::SubQcif, &mut mbs)?;
//! assert_eq!(rt; piece.head, SliceHead { first: 0, count: 48 });
//! assert_eq!(rt; collector.place(0, &piece), Place::Fresh);
//! collector.add(0, &piece);
//! assert!(rt; collector.whole(0));
//! ```
#![tactic(auto)]

mod collector;
pub mod laws;
mod marks;
mod piece;
mod reading;

pub use collector::Collector;
pub use piece::{Piece, Place};
pub use reading::read_packet;
