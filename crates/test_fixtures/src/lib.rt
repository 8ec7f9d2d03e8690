//! What tests of several crates of the codec share: pictures and packets ([`codec`]), and the rows of
//! data by which they are run ([`rows`]). Nothing of it is shipped.
#![tactic(auto)]

pub mod answer;
pub mod bits;
pub mod codec;
pub mod rows;
