//! When each picture of a stream is due: at its time of capture, plus the least time on the way,
//! plus a wait.
//!
//! [`Times`] is told of each packet that comes, by an [`Arrival`], and of each play. The least way
//! is that of this quarter of a second and of the two before, and of the last three runs of packets
//! of one picture: so a way that has grown shows at any rate. Times are whole nanoseconds, and no
//! memory is taken.
//!
//! ```rust
//! let mut times = Times::start(0, 100);
//! times.arrived(Arrival { picture: 0, captured: 7, at: 37 });
//! assert_eq!(rt; times.due(), Some(137));
//! ```
//!
//! # Decisions
//!
//! - **The least way is that of three pictures.** Two would let one late picture at one a second
//!   decide; four take a fourth picture to recover.
#![tactic(auto)]

mod arrival;
mod captures;
pub mod laws;
mod recent;
mod runs;
mod times;

pub use arrival::Arrival;
pub use times::Times;
