//! The whole program over any desk.
//!
//! [`run`] reads the words, and runs the command that they ask for. [`code_for`] does it for a
//! process: its words are all arguments but the first, and what it answers is how the process is to
//! end. The program `h263rps` is a `main` that hands its arguments and the host's desk to it.
//!
//! `specs/Output` says what the words ask for and what a command makes of its inputs, and
//! `specs/Promises` what is promised of a run.
//!
//! # Decisions
//!
//! - **`run` is in a library.** The program's crate is `main` alone (`h263rps_run` has `run`), so
//!   tests of commands can be crates of their own and call it.
//!
//! - **All commands attach their roles in one order.** Video, second video, events, pictures,
//!   second pictures, wire: those that the words name (`put_roles`). So no command needs a list of
//!   its own, and `perform_command` is one match.
#![tactic(auto)]

mod commands;
mod laws;
mod process;
mod program;
mod roles;

pub use call_report::Status;
pub use process::{code_for, code_of_words};
pub use program::run;
