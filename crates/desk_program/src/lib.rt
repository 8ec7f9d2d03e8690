//! One loop for every command: a machine takes one event after another, over any desk.
//!
//! A machine is a type with [`Turns`]: it says in definitions what it does next, and how it does
//! that in memory, over a [`Desk`](h263_outside::Desk). A command with [`Begins`] starts a machine
//! by what the words ask for. [`perform`] attaches its roles and runs it. What a run as a whole
//! writes, takes and answers follows here, once for all commands.
//!
//! ```rust
//! attach_all(desk, &[(Role::Report, "")])?;
//! let order = &[(Role::Events, "log"), (Role::Pictures, "out"), (Role::Wire, "wire")];
//! let status = perform::<D, Recv>(alloc, params, order, desk);
//! ```
//!
//! # Decisions
//!
//! - **Clauses on texts ask for all inputs.** They hold where a desk tells what is left of each
//!   input (`Tells`), attached or not. A premise for the command's roles alone would be in every
//!   contract of a turn.
//!
//! - **A machine has two traits.** `Begins` gives the whole run, `Turns` the turn. Workaround: the
//!   type of a ghost member can't name a member of a supertrait or of an associated type ("a
//!   member's type sees only the members before it").
//!
//! - **`EndsBy` speaks of the end, not of the step.** So the laws of a turn name no state, and a
//!   machine's own code can call them. A law over any machine (`run_laws`) is called where the
//!   machine starts; from its turn the calls would form a cycle.
//!
//! - **OutOfMemory never hides a failed call.** No count of faults has risen when it comes
//!   (`CauseIn`). A machine allocates before its first turn (`IsStop`).
#![tactic(auto)]

mod acts;
mod attach;
mod begins;
mod command;
mod event_loop;
pub mod laws;
mod lines;
mod turns;
mod write;

pub use acts::Acts;
pub use attach::{attach_all, attach_role};
pub use begins::Begins;
pub use command::perform;
pub use event_loop::take_turns;
pub use lines::finish;
pub use turns::Turns;
pub use write::{put, put_entry, put_head, put_line, put_picture};
