//! A rate controller and its meter: a pace that follows a target in bytes per picture, and a meter
//! for any log of packets. Both measure by the level of a leaking bucket: each picture pours its
//! bytes in, and each picture's time lets the target out.
//!
//! ```rust
//! let pace = BucketPace::new(342, 8);
//! assert_eq!(rt; pace.quant(&[684]), 12);
//! ```
//!
//! # Decisions
//!
//! - **Levels of a bucket have no sign.** A negative sum of size less target counts as 0
//!   (`excess`); the level is the greatest of 0 and these sums. The law `level` says it without
//!   that subtraction.
#![tactic(auto)]

pub mod laws;
mod level;
mod meter;
mod pace;
mod send_pace;
mod text;

pub use meter::{Meter, Metered, Totals};
pub use pace::BucketPace;
pub use send_pace::SendPace;
pub use text::{Text, picture_text, totals_text};
