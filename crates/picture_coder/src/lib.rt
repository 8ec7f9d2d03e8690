//! A picture coded: each macroblock chosen, put into the picture's packets, and reconstructed as a
//! decoder will show it.
//!
//! [`code_picture`] does it, over a [`Cutter`](packet_cutter::Cutter) and a picture that are lent.
//! [`code_undrawn`] leaves an I picture's levels in that picture, which is drawn when it is wanted.
//!
//! ```rust
//! let mut cutter = Cutter::start(rt.alloc(), &PARAMS)?;
//! let frame = PictureRef::new(Format::SubQcif, &[100; SIZE]);
//! let mut work = PictureMut::new(Format::SubQcif, &mut first);
//! code_picture(frame, None, 0, &FIRST, &PARAMS, &mut cutter, &mut work);
//! assert_eq!(rt; cutter.packet(0).len(), 342);
//! ```
#![tactic(auto)]

mod coding;
mod undrawn;

pub use coding::code_picture;
pub use undrawn::code_undrawn;
