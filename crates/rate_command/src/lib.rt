//! The meter, as a command: the packets of a log are measured against a bucket, and a line for each
//! picture and one for the whole log go to the report.
//!
//! ```rust
//! let order = &[(Role::Events, "sent.log")];
//! let bucket = Bucket { target: 100, bucket: 200 };
//! let status = perform::<D, Rate>(alloc, &bucket, order, desk);
//! ```
#![tactic(auto)]

pub mod laws;
mod parts;
mod rate;

pub use rate::{Bucket, Metering, Rate};
