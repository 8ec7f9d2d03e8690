//! A command over a log: what it does with one entry is a [`LogCommand`], and all else is here.
//! [`LogMachine`] reads the log of the command's side, and hands each packet and each entry of the
//! other kind on; it is a machine of `desk_program`.
//!
//! ```rust
//! pub type Recv = LogMachine<Receiving>;
//! let status = perform::<D, Recv>(alloc, params, order, desk);
//! ```
#![tactic(auto)]

mod command;
pub mod laws;
mod machine;

pub use command::LogCommand;
pub use machine::LogMachine;
