//! Decoding as both ends of a call use it: the numbers of a call by its parameters, picture headers
//! by their styles, and pictures by their samples. Nothing is done at run time.
//!
//! The definitions are in `specs/`: `rules_of`, `Style` with `call_header_of`, and `pictures`, which
//! is the `Pictures` of `call_model` for a format. `laws` has what the laws of a call ask of these.
//! [`Styled`] and [`Pictured`] name the types of values at which those laws are called.
//!
//! ```rust
//! // a function that owes that its parameters are those of a call cites the law in its body
//! call_decoding::laws::are_rules();
//! ```
#![tactic(auto)]

pub mod laws;
mod values;

pub use values::{Pictured, Styled};
