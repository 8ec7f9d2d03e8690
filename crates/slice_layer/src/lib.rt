//! Slices, read and written (H.263, Annex K, with the fields of Annex N).
//!
//! `specs/Head` gives the syntax of a slice's header, and `specs/Text` the text of a slice and what
//! a reader of any bits finds: a slice ends where fewer than 8 zero bits are left. [`read_slice`]
//! fills the macroblocks of a picture; a [`SliceWriter`] takes them one by one, and answers by
//! [`Added`] whether they still fit.
//!
//! ```rust
//! let mut bytes = [0xFF; 1150];
//! let mut writer = SliceWriter::start(&mut bytes, &PREDICTED, false, 207);
//! let _added = writer.add(&Mb::Skip, &mut MbRoom::new());
//! assert_eq!(rt; writer.finish(), 5);
//! assert_eq!(rt; &bytes[..5], [0xD9, 0xE8, 0xE8, 0x00, 0xC0].as_slice());
//! ```
//!
//! # Decisions
//!
//! - **A slice isn't a syntax of parts.** Its end depends on what is left before each macroblock.
//!   Its text is a relation, its reading a function (`slice_at`); `exact_text` ties them.
//!
//! - **A `SliceWriter` keeps whole bytes.** So ending a slice writes nothing. A macroblock is
//!   written apart, after the text's last bits, and copied if it fits. Its room is lent (`MbRoom`)
//!   and made once a packet. Tried, and rejected: a room cleared for each macroblock, which took as
//!   long as writing a short one. Workaround: a call can't use up a struct that holds a
//!   `BitWriter`.
#![tactic(auto)]

mod head;
pub mod laws;
mod reading;
mod shared;
mod writing;
mod writing_head;
mod writing_text;

pub use reading::read_slice;
pub use writing::{Added, SliceWriter};
pub use writing_text::MbRoom;
