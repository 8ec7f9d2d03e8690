//! Laws of sessions: what holds of every list of datagrams and turns, by the definitions alone.
#![tactic(auto)]

pub mod laws;
