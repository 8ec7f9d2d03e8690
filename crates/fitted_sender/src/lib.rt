//! A sender whose quantisers follow an aim: one for all pictures, a target by the sizes of the last
//! 16 pictures (`rate_control`), or a pace that fits pictures to a target (`picture_pace`), which
//! keeps in mind what it was told of each picture.
//!
//! [`capture`] codes a frame by an [`Aim`]. `specs/Aiming` says what a sender has done by its
//! entries (`sent_by`).
//!
//! ```rust
//! let mut aim = Aim::start(&params, None, Some(1_800));
//! let coded = capture(&mut sender, &mut aim, frame, &[]);
//! ```
//!
//! # Decisions
//!
//! - **The room is 30 targets**, a second of a usual video: a scene's first picture may borrow from
//!   the second after it. `h263rps_pace_start()` takes any other.
//! - **A pace that gets another target keeps its level and what it learnt**; one that had none begins
//!   anew.
#![tactic(auto)]

mod aim;
mod capturing;
pub mod laws;

pub use aim::Aim;
pub use capturing::capture;
