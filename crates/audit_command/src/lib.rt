//! The audit, as a command: the packets that a sender sent and the feedback that it had are read
//! from a log and judged, and the verdict is the one line of the report.
//!
//! ```rust
//! let order = &[(Role::Events, "log")];
//! let params = Params::of(Format::SubQcif);
//! let status = perform::<D, Audit>(alloc, &params, order, desk);
//! ```
#![tactic(auto)]

mod audit;
pub mod laws;

pub use audit::{Audit, Auditing};
