//! The frames of `demo`: patterns that move, and noise, made from a seed.
ghost use Rattle.std.specs.Prelude.{◌≡◌, ◌<◌, ◌≤◌, ℕ, false, length, slice_index};
ghost use Rattle.h263_planes.specs.declared.Plane.{Plane};
ghost use Rattle.h263_planes.specs.Given.{picture_with};
ghost use Rattle.h263_planes.specs.Layout.{height_in, width_in};
ghost use Rattle.h263_planes.specs.Samples.{Inside, IsPicture, in_run, same_plane, sample_at};
ghost use Rattle.h263_planes.specs.Work.{loan_of, work};
ghost use Rattle.make_input.specs.Frames.{made_sample, triangle};

use h263_planes::{PictureMut, Plane, laws as planes_laws};
use h263_types::Format;

// The most samples in a row.
const MAX_WIDTH: usize = 352;

// How far a number modulo 128 lies from 64, at most 64.
fn triangle(v: u64) -> u8
    ensures value { result ≡ triangle v }
    ensures most { result ≤ 64 }
{
    let place = (v % 128) as u8;
    if place < 64 { 64 - place } else { place - 64 }
}

// The sample in column `x` of row `y` of a plane of frame `number`.
fn made_sample(seed: u32, number: u32, plane: Plane, x: u32, y: u32) -> u8
    ensures { result ≡ made_sample seed number plane x y }
{
    let (x, y, n) = (x as u64, y as u64, number as u64);
    match plane {
        Plane::Y => 60 + triangle(x + 2 * n + (seed % 128) as u64) + triangle(2 * y + 2 * n),
        Plane::Cb => 96 + triangle(x + n),
        Plane::Cr => 160 - triangle(y + n),
    }
}

// The samples of a row, from its first on.
fn fill_row(seed: u32, number: u32, plane: Plane, y: u32, row: &mut [u8])
    requires { length row.old ≤ 352 }
    ensures { (i : ℕ) → i < length row.old
        → slice_index row.new i ≡ made_sample seed number plane i y }
{
    for x in 0..row.len() {
        row[x] = made_sample(seed, number, plane, x as u32, y);
    }
}

// Writes row `y` of a plane.
fn put_row(seed: u32, number: u32, plane: Plane, y: u32, width: u32, out: &mut PictureMut<'_>)
    requires inside { Inside (work out.old).format plane 0 y width }
    requires most { width ≤ 352 }
    ensures same_loan { loan_of out.new ≡ loan_of out.old }
    ensures format { (work out.new).format ≡ (work out.old).format }
    ensures whole { IsPicture (work out.new) }
    ensures made { (x : ℕ) → x < width → Inside (work out.old).format plane x y 1
        → sample_at (work out.new) plane x y ≡ made_sample seed number plane x y }
    ensures others { (other : Plane) (i j : ℕ) → Inside (work out.old).format other i j 1
        → in_run plane 0 y width other i j ≡ false
        → sample_at (work out.new) other i j ≡ sample_at (work out.old) other i j }
{
    let mut samples = [0; MAX_WIDTH];
    let row = &mut samples[..width as usize];
    fill_row(seed, number, plane, y, row);
    out.set_row(plane, 0, y, row);
}

// Writes a plane, and leaves the others.
fn put_plane(seed: u32, number: u32, plane: Plane, out: &mut PictureMut<'_>)
    ensures same_loan { loan_of out.new ≡ loan_of out.old }
    ensures format { (work out.new).format ≡ (work out.old).format }
    ensures whole { IsPicture (work out.new) }
    ensures made { (x y : ℕ) → Inside (work out.old).format plane x y 1
        → sample_at (work out.new) plane x y ≡ made_sample seed number plane x y }
    ensures others { (other : Plane) (x y : ℕ) → Inside (work out.old).format other x y 1
        → same_plane plane other ≡ false
        → sample_at (work out.new) other x y ≡ sample_at (work out.old) other x y }
{
    let (width, height) = size_in(out.format(), plane);
    for y in 0..height {
        put_row(seed, number, plane, y, width, out);
    }
}

// The columns and rows of a plane.
fn size_in(format: Format, plane: Plane) -> (u32, u32)
    ensures width { result.0 ≡ width_in format plane }
    ensures height { result.1 ≡ height_in format plane }
    ensures most { result.0 ≤ 352 }
{
    match plane {
        Plane::Y => (format.width(), format.height()),
        Plane::Cb | Plane::Cr => (format.width() / 2, format.height() / 2),
    }
}

/// Makes frame `number`, counted from 0, of the video of this seed: triangle waves that move by
/// two columns and by a row from frame to frame, in Y and half as fast in the planes of colour.
pub fn frame(format: Format, seed: u32, number: u32, out: &mut PictureMut<'_>)
    requires { (work out.old).format ≡ format }
    ensures same_loan { loan_of out.new ≡ loan_of out.old }
    ensures picture { work out.new ≡ picture_with format (made_sample seed number) }
    ensures format { (work out.new).format ≡ format }
    ensures whole { IsPicture (work out.new) }
{
    planes_laws::samples_are_picture();
    put_plane(seed, number, Plane::Y, out);
    put_plane(seed, number, Plane::Cb, out);
    put_plane(seed, number, Plane::Cr, out);
}
