//! The types that all parts of the codec share.
//!
//! [`Format`] and [`Kind`] say what a picture is, [`Mb`] and [`Block`] what is coded of a
//! macroblock, [`MarkedMb`] which levels aren't 0, [`Vector`] where it is predicted from and
//! [`Reach`] how far that may be. [`Params`] are the parameters of a call, with [`Clock`] and
//! [`Pace`]; [`Mark`] says how a picture was shown. [`OutOfMemory`] is what a call answers that
//! found none.
//!
//! ```rust
//! assert_eq!(rt; (Format::Qcif.width(), Format::Qcif.height()), (176, 144));
//! assert_eq!(rt; Format::Qcif.mbs(), 99);
//! assert_eq!(rt; (Clock::Standard.half(), Clock::Standard.period()), (128, 256));
//! ```
#![tactic(auto)]

mod blocks;
mod clock;
mod format;
pub mod laws;
mod limits;
mod memory;
mod pace;
mod params;
mod vector;

pub use blocks::{Block, MarkedMb, Mb, SliceHead};
pub use clock::Clock;
pub use format::Format;
pub use limits::reach;
pub use memory::OutOfMemory;
pub use pace::{FixedPace, Pace};
pub use params::{ParamFault, Params};
pub use vector::{Reach, Vector};

/// Whether a picture is coded by itself (I) or predicted from another one (P).
#[derive(Clone, Copy, Debug, PartialEq, Eq)]
pub enum Kind {
    I,
    P,
}

/// How a picture that is shown stands to the sender's: the same, in part, or not at all.
#[derive(Clone, Copy, Debug, PartialEq, Eq)]
pub enum Mark {
    /// Every macroblock arrived: the picture is the sender's reconstruction.
    Exact,
    /// Some macroblocks arrived; the others are those of the picture shown before.
    Patched,
    /// Nothing arrived: the picture shown before is shown again.
    Held,
}
