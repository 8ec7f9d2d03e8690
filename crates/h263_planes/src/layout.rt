//! Where the samples lie in a picture's bytes.
ghost use Rattle.std.specs.Prelude.{◌≡◌, ◌*◌};
ghost use Rattle.h263_types.specs.Sizes.{height_of, width_of};

use crate::Plane;
use h263_types::Format;

// The numbers by which a sample is found. They are kept, since each row that is lent asks for them.
#[derive(Clone, Copy)]
pub(crate) struct Layout {
    pub(crate) format: Format,
    // Samples in a row of Y.
    width: usize,
    // Samples of Y.
    luma: usize,
    ghost row: { width ≡ width_of format },
    ghost plane: { luma ≡ width_of format * height_of format },
}

impl Layout {
    ghost use Rattle.std.specs.Prelude.{◌≡◌, ◌+◌, ◌*◌};
    ghost use Rattle.h263_planes.specs.Layout.{offset_of, width_in};
    ghost use Rattle.h263_planes.specs.Samples.{Inside};

    // The layout of a format.
    pub(crate) fn new(format: Format) -> Layout
        ensures { result.format ≡ format }
    {
        let width = format.width() as usize;
        Layout {
            format,
            width,
            luma: width * format.height() as usize,
        }
    }

    // Samples in a row of the plane.
    #[inline(always)]
    pub(crate) fn width(self, plane: Plane) -> usize
        ensures { result ≡ width_in self.format plane }
    {
        match plane {
            Plane::Y => self.width,
            _ => self.width / 2,
        }
    }

    // Where the plane begins.
    #[inline(always)]
    fn offset(self, plane: Plane) -> usize
        ensures { result ≡ offset_of self.format plane }
    {
        match plane {
            Plane::Y => 0,
            Plane::Cb => self.luma,
            Plane::Cr => self.luma + self.luma / 4,
        }
    }

    // Where the sample in column `x` of row `y` stands.
    #[inline(always)]
    pub(crate) fn place(self, plane: Plane, x: u32, y: u32) -> usize
        requires { Inside self.format plane x y 0 }
        ensures { result ≡ offset_of self.format plane + width_in self.format plane * y + x }
    {
        self.offset(plane) + self.width(plane) * y as usize + x as usize
    }
}
