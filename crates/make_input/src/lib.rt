//! Made input: the frames and the trace of `demo`, by a seed.
//!
//! [`frame`] draws a frame of the made video, and a [`TraceMaker`] gives the events of the trace.
//!
//! ```rust
//! let mut one = TraceMaker::new(0, 1);
//! assert_eq!(rt; one.next(), Some(Event::Send));
//! assert_eq!(rt; one.next(), Some(Event::All { number: 0 }));
//! assert_eq!(rt; one.next(), Some(Event::Play));
//! assert_eq!(rt; one.next(), None);
//! ```
#![tactic(auto)]

mod frames;
pub mod laws;
mod trace;

pub use frames::frame;
pub use trace::TraceMaker;
