//! The words of the program's commands: `call`, `send`, `recv`, `demo`, `rate`, `audit` and
//! `duplex`.
//!
//! The first word names a command; the others are read with `clap` as one simple command for each
//! first word. [`Words`] are a [`Command`] with its parameters and the words by which its roles are
//! attached; words that are no command give a [`WordStop`].
//!
//! ```rust
//! let read = Words::read(alloc, &["call", "in", "out", "--slots", "4", "--lead", "1"])?;
//! let params = Params { slots: 4, lead: 1, ..Params::of(Format::Qcif) };
//! assert_eq!(rt; read.command(), Command::Call { params, traced: false });
//! assert_eq!(rt; read.name(Role::Pictures), Some("out"));
//! ```
//!
//! # Decisions
//!
//! - **Odd words.** `call "" out` fails at opening; `--trace=` names the empty file. A lone `-` is
//!   a file's name or a value. `--lead=`, `--lead -x` and `--lead --` are Usage.
//!
//! - **Words are read with clap.** Each first word is one simple command, held to a definition over
//!   the words alone (`taken`). clap's own options are off, so `--help` is unknown. A number above
//!   255 is no value of a byte; a switch is an option with `num_args` 0.
#![tactic(auto)]

mod command;
mod forms;
pub mod laws;
mod names;
mod simple;
mod values;
mod words;

pub use command::Command;
pub use simple::WordStop;
pub use words::Words;
