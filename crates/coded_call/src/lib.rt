//! The coding of a call's pictures, packets and messages as one record, and the law of a call's two
//! ends for it. Nothing is done at run time.
//!
//! `coding` in `specs/` is the `Coding` of `call_model`: what a receiver decodes by and what a
//! sender encodes by. `Sent` in `specs/` says which macroblocks can be sent, and the law
//! `read_again` that their packets are read as their slices with the picture's header. A function
//! whose contract speaks of both ends calls the law in its body.
//!
//! ```rust
//! coded_call::laws::two_stores();
//! ```
#![tactic(auto)]

pub mod laws;
