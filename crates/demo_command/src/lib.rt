//! The command that plays a call on made input: frames and a trace of losses from a seed, no file,
//! and the counts alone.
//!
//! `specs/Demo` says what it does with each line of the trace, by the ideal call of `call_model`.
//! No line is refused, whatever the seed.
//!
//! ```rust
//! let terms = DemoTerms { params, seed: 1, frames: 60 };
//! let status = perform::<D, Demo>(alloc, &terms, &[], desk);
//! ```
#![tactic(auto)]

mod demo;
pub mod laws;
mod line;
mod terms;

pub use demo::Demo;
pub use terms::DemoTerms;
