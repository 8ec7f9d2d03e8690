//! Blocks: INTRADC and the events of TCOEF, read and written (H.263, 5.4).
//!
//! `specs/Text` gives the syntax of a block and the text that is written of its levels. A reader
//! finds exactly what the syntax says, or the first fault at its place. A block is a
//! [`Block`](h263_types::Block), whose levels stand in the zigzag order. A writer that is named
//! `_marked` takes the block's marks from a caller that has found them.
//!
//! ```rust
//! let mut block = Block { levels: [7; 64] };
//! // INTRADC 128, then (0, 0, 1) and, after 61 zeros, the last level as an escape
//! read_intra(&mut reader_of("11111111 100 0000011 1 111101 00000001"), true, &mut block)?;
//! assert_eq!(rt; (block.levels[0], block.levels[1], block.levels[63]), (128, 1, 1));
//! ```
//!
//! # Decisions
//!
//! - **An event that is looked up is put at once.** `read_events` takes what `look_at_event` sees
//!   straight into the levels; whatever it doesn't see is read by `read_placed`, out of line. One
//!   path for both had each event packed into a number and unpacked: with the test of `look_at_event`
//!   28 instructions an event, 100,000 an intra picture of CIF at quantiser 8.
//!
//! - **Events are gathered before they are written.** The numbers of a block's events
//!   (`event_number`) wait in 64 bits, and go out 32 at a time (`gather`): a store takes as long
//!   for five bits as for 32. Tried, and rejected: escapes out of line, which keeps each event in
//!   memory for them: 112,000 instructions an intra picture of grain more; bits that wait from block
//!   to block of a macroblock: 36,000 fewer in an intra picture, but 10,000 more in a predicted one.
//!   One store of 56 bits would spare some 20,000.
#![tactic(auto)]

pub mod laws;
mod reading;
mod writing;

pub use reading::{read_inter, read_intra};
pub use writing::{is_coded_by, write_inter, write_inter_marked, write_intra, write_intra_marked};
