//! Pictures of three planes over borrowed bytes: the samples of Y, Cb and Cr one plane after the
//! other, each by rows from the top (H.263, 4.1).
//!
//! A [`PictureRef`] is read and a [`PictureMut`] written, by [`Plane`] and place. [`block_corner`]
//! gives the [`Corner`] at which a block of a macroblock begins, [`mb_place`] that of the
//! macroblock.
//!
//! ```rust
//! let mut bytes = [128; SIZE];
//! let mut picture = PictureMut::new(Format::SubQcif, &mut bytes);
//! picture.set_row(Plane::Cb, 60, 47, &[1, 2, 3, 4]);
//! let seen = picture.seen();
//! assert_eq!(rt; seen.row(Plane::Cb, 58, 47, 6), [128, 128, 1, 2, 3, 4].as_slice());
//! ```
//!
//! # Decisions
//!
//! - **Rows and squares are set as a whole.** `set_row` copies a row of 8 or 16 bytes, `set_square`
//!   and `copy_square` store each row by lanes. `copy_square` takes a square from the same place of
//!   another picture of the format, as a macroblock that isn't coded does. Workaround: a part of a
//!   loan inside a struct with an invariant has no generated proof.
//!
//! - **Rows are lent together.** `PictureRef::rows` lends the bytes from a block's first sample to
//!   its last; each row stands `width` bytes after the one above it. A loop over rows goes on by an
//!   addition, where a place worked out for each row costs a product.
#![tactic(auto)]

mod blocks;
mod corners;
pub mod laws;
mod layout;
mod lent;
mod work;

pub use blocks::Corner;
pub use corners::{block_corner, mb_place};
pub use lent::PictureRef;
pub use work::PictureMut;

/// The three planes of a picture: luma, and two of colour with half as many columns and rows.
#[derive(Clone, Copy, Debug, PartialEq, Eq)]
pub enum Plane {
    Y,
    Cb,
    Cr,
}
