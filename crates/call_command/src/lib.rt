//! The command that plays a whole call: both ends, and between them a network that loses what its
//! trace says, or nothing.
//!
//! `specs/Call` says what it does with each frame of the video or each line of the trace, by the
//! ideal call of `call_model`. [`Call`] begins a call ([`Begun`]) and lends it to [`converse`], which
//! takes the events, whatever the receiver had heard before. What an event does to the ends and to
//! the network between them is `one_way`'s.
//!
//! ```rust
//! let order = &[(Role::Video, "in.y4m"), (Role::Pictures, "out.y4m")];
//! let terms = Terms { params, plain: true };
//! let status = perform::<D, Call>(alloc, &terms, order, desk);
//! ```
//!
//! # Decisions
//!
//! - **Steps of a call are defined once.** `step_by` takes what is seen of a call: by the ideal
//!   call it defines `call`, by the run of both ends `converse`. That allocates the network itself,
//!   so a call without memory for it still writes its head.
//!
//! - **Both turns of `call` read a frame.** The turn of a frame and `send_frame` have three lines
//!   in common, through which twelve facts of desk, video and network pass. By a draft, a function
//!   for them would add some 90 lines of contract and proof, and one more step between `main` and
//!   `code_picture`.
#![tactic(auto)]

mod begun;
mod call;
mod counts;
pub mod laws;
mod lent;
mod link;
mod refused;
mod show;
mod terms;
mod world;

pub use begun::Begun;
pub use call::Call;
pub use counts::counts_line;
pub use lent::converse;
pub use refused::allow;
pub use show::{Row, show_row, tell_counts};
pub use terms::Terms;
