//! The receiving run of one stream: its packets get their pictures and times, are heard, and its
//! pictures are played when they are due.
//!
//! A [`StreamRun`] puts together the [`Numbers`](stream_numbers::Numbers) of a stream and a
//! [`TimedReceiver`](timed_receiver::TimedReceiver). A packet of a picture that is too far ahead is
//! answered [`Arrived::Ahead`]: the pictures before it are played first, and it is handed in again.
#![tactic(auto)]

mod run;

pub use run::{Arrived, StreamRun};
