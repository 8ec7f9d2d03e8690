//! Encoding as a call uses it: frames with the messages that their headers carry, the styles of
//! pictures, choice and cut by them, packets and messages. Nothing is done at run time.
//!
//! The definitions are in `specs/`: `Frame`, and `encoding`, which is the `Encoding` of
//! `call_model` for a call's parameters. `laws` has what the laws of a call ask of it. [`Framed`]
//! names the type of frames at which those laws are called.
//!
//! ```rust
//! // a function that owes that its packets are those of the encoding cites the law in its body
//! call_encoding::laws::written_packets();
//! ```
//!
//! # Decisions
//!
//! - **A frame is any picture with any messages.** So one type serves all calls. The encoding is
//!   total: it takes any picture as one of the format, and of the messages those of its clock, four
//!   at most. A sender asks for frames that this doesn't change (`carried_as_they_are`).
#![tactic(auto)]

pub mod laws;
mod values;

pub use values::Framed;
