//! What a session takes in: its settings, what a datagram says, how many packets are looked at, and
//! what is counted.
//!
//! [`read`] answers what a packet says whose SSRC may be any, and copies it into a room as an end
//! reads it. What is no packet of the call's pictures is dropped with its [`Cause`], before a budget
//! is asked; of the rest [`Budgets`] grants so many of each stream in a second.
//!
//! ```rust
//! let params = Params::of(Format::SubQcif);
//! let fault = Settings::new(&params, 30_000, 1_001, 101_000_000);
//! assert_eq!(rt; fault, Err(SettingFault::Lead));
//! assert_eq!(rt; read(&params, &[0; 12], &mut room), Err(Cause::Malformed));
//! ```
#![tactic(auto)]

mod budgets;
mod counts;
mod reading;
mod seen;
mod settings;

pub use budgets::Budgets;
pub use counts::Counts;
pub use reading::read;
pub use seen::{Cause, Seen};
pub use settings::{SettingFault, Settings};
