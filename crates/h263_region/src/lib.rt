//! One block of memory in slots of one size. A [`Region`] lends them: each slot that is out is a
//! [`Slot`], which must be given back.
//!
//! ```rust
//! let mut region = Region::make(alloc, 2, 4)?;
//! if let Some(slot) = region.claim() {
//!     region.release(slot);
//! }
//! region.finish();
//! ```
//!
//! # Decisions
//!
//! - **Two walks over raw pointers lend parts of a region.** What a loan leaves is a function of
//!   every list that could be left (`with_bytes`, `with_work`; `parts.rt`). Workaround: an
//!   `ensures*`, which `split_at_mut` would need, is proved "only if it is a `follows` and the body
//!   hands on one field or a call's result". The walks take the boxed slice, since of two calls in
//!   a chain "the borrow checker does not follow each result back to the first parameter".
//!
//! - **Nothing that must be given back has a `Drop`.** So a `Slot` dropped unspent doesn't compile.
//!   It has no brand: a store has one region, and asks of a slot `IsOut` alone.
#![tactic(auto)]

mod parts;
mod region;
mod slot;

pub use region::Region;
pub use slot::Slot;
