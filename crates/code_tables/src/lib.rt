//! The code tables of macroblocks and blocks (H.263, 5.3 and 5.4): MCBPC, CBPY, DQUANT, MVD and the
//! events of TCOEF, read and written.
//!
//! `specs/` has each table as the standard prints it, and says which bits spell which value. A
//! reader finds exactly that, or the first fault at its place: words by a look at twelve bits, an
//! event by one at 22, and what begins with no word by a search. A writer writes the word at a
//! place of the table. [`Mcbpc`] with its [`MbClass`] and [`Coefficient`] are the values that
//! aren't numbers.
//!
//! ```rust
//! let mut bytes = [0u8; 2];
//! let mut writer = BitWriter::new(&mut bytes);
//! write_mvd(&mut writer, 1);
//! write_mcbpc(&mut writer, Kind::P, &Mcbpc::Word { class: MbClass::InterQ, cbpc: 3 });
//! write_cbpy(&mut writer, true, 15);
//! write_dquant(&mut writer, -2);
//! assert_eq!(rt; bytes, [0x40, 0x5d]);
//! ```
//!
//! # Decisions
//!
//! - **A word with its sign, and an escape, are one element.** `element` replaces a list of 65,000
//!   words. Every fault in it stands at its first bit, so text and faults are the same.
//!
//! - **Only the soundness of the look-up tables is proved.** Where neither table, of eight bits or
//!   of twelve, names a word, an exact search decides: cut words, bad codes, a packet's last bits.
//!   Each table has its own reader (`read_pattern` and its like).
//!
//! - **Events and differences are one look at 13 bits.** A word and its sign have no more; an
//!   escape is one look at 22. All else, with a difference of 32, which has no minus
//!   (`IsDifferenceIn`), is read field by field, which finds the fault.
//!
//! - **What is looked up is so where 64 bits are left** (`peek_early`), and searched for in a
//!   packet's last eight bytes: one test for two, five instructions fewer a word.
//!
//! - **A word is a number to a writer**: `event_number`, `mcbpc_number` and their like give it, so
//!   that a caller may put several at once.
#![tactic(auto)]

mod code;
mod difference_bits;
mod event_bits;
mod event_tables;
pub mod laws;
mod macroblock;
mod tables;
mod words;

pub use code::Coefficient;
pub use event_bits::SeenEvent;
pub use macroblock::{
    MbClass, Mcbpc, mcbpc_number, read_dquant, read_mcbpc, write_dquant, write_mcbpc,
};
pub use words::{
    cbpy_number, event_number, look_at_event, mvd_number, read_cbpy, read_event, read_mvd,
    write_cbpy, write_event, write_mvd,
};
