//! A picture that is lent for reading.
ghost use Rattle.std.specs.Prelude.{◌≡◌, length};
ghost use Rattle.h263_types.specs.Sizes.{size_of_picture};

use crate::layout::Layout;
use crate::{Plane, laws};
use h263_types::Format;

/// A picture over bytes that hold its planes Y, Cb and Cr, each by rows from the top.
#[derive(Clone, Copy)]
pub struct PictureRef<'a> {
    layout: Layout,
    bytes: &'a [u8],
    ghost whole: { length bytes.now ≡ size_of_picture layout.format },
}

impl<'a> PictureRef<'a> {
    ghost use Rattle.std.specs.Prelude.{◌≡◌, ℕ, ◌+◌, ◌*◌, ◌-◌, ◌<◌, length, slice_index};
    ghost use Rattle.h263_types.specs.Sizes.{size_of_picture};
    ghost use Rattle.h263_planes.specs.Layout.{picture_of, width_in};
    ghost use Rattle.h263_planes.specs.Samples.{Inside, IsPicture, bytes_of, sample_at};
    ghost use Rattle.h263_planes.specs.Lent.{picture};

    /// The picture that `bytes` hold, `format.size()` of them.
    pub fn new(format: Format, bytes: &'a [u8]) -> PictureRef<'a>
        requires { length bytes.now ≡ size_of_picture format }
        ensures picture { picture result ≡ picture_of format bytes.now }
        ensures whole { IsPicture (picture result) }
    {
        laws::are_samples(bytes);
        PictureRef {
            layout: Layout::new(format),
            bytes,
        }
    }

    /// The format of the picture.
    pub fn format(&self) -> Format
        ensures format { result ≡ (picture self.now).format }
        ensures whole { IsPicture (picture self.now) }
    {
        laws::are_samples(self.bytes);
        self.layout.format
    }

    /// The sample in column `x` of row `y`, 0 to 255.
    pub fn sample(&self, plane: Plane, x: u32, y: u32) -> u8
        requires { Inside (picture self.now).format plane x y 1 }
        ensures { result ≡ sample_at (picture self.now) plane x y }
    {
        self.bytes[self.layout.place(plane, x, y)]
    }

    /// The `n` samples of row `y` from column `x` on, lent without a copy.
    pub fn row(&self, plane: Plane, x: u32, y: u32, n: u32) -> &'a [u8]
        requires { Inside (picture self.now).format plane x y n }
        ensures length { length result.now ≡ n }
        ensures samples { (i : ℕ)
            → i < n → slice_index result.now i ≡ sample_at (picture self.now) plane (x + i) y }
    {
        let at = self.layout.place(plane, x, y);
        &self.bytes[at..at + n as usize]
    }

    /// The `n` samples from column `x` on of `count` rows from row `y` on, and what stands between
    /// them, lent without a copy. Each row is [`width`](PictureRef::width) bytes after the one
    /// above it, so that a loop over rows goes on by an addition.
    #[inline(always)]
    pub fn rows(&self, plane: Plane, x: u32, y: u32, n: u32, count: u32) -> &'a [u8]
        requires some { 0 < count }
        requires inside { Inside (picture self.now).format plane x (y + (count - 1)) n }
        ensures length { length result.now
            ≡ width_in (picture self.now).format plane * (count - 1) + n }
        ensures samples { (i j : ℕ) → i < n → j < count
            → slice_index result.now (width_in (picture self.now).format plane * j + i)
            ≡ sample_at (picture self.now) plane (x + i) (y + j) }
    {
        let first = self.layout.place(plane, x, y);
        let last = self.layout.place(plane, x, y + (count - 1));
        &self.bytes[first..last + n as usize]
    }

    /// How many bytes after a row of a plane the next one stands.
    #[inline(always)]
    pub fn width(&self, plane: Plane) -> usize
        ensures { result ≡ width_in (picture self.now).format plane }
    {
        self.layout.width(plane)
    }

    /// The planes Y, Cb and Cr one after the other, each by rows from the top, lent without a copy.
    pub fn bytes(&self) -> &'a [u8]
        ensures { result.now ≡ bytes_of (picture self.now) }
    {
        self.bytes
    }
}
