//! The latest 256 pictures that were sent.
ghost use Rattle.std.specs.Prelude.{◌≡◌, ◌%◌, ◌<◌, ◌^◌, length, slice_get, slice_set, Some, sum_by};
ghost use Rattle.line_follower.specs.Table.{doubled, open_of, put, rate_through};

use crate::picture::Picture;

/// How many are kept. Each has the place that its number modulo this says.
pub const KEPT: usize = 256;

/// The picture that has the place of this number.
pub fn at(pictures: &[Picture], number: u32) -> Picture
    requires { length pictures.now ≡ 256 }
    ensures { slice_get pictures.now (number % 256) ≡ Some result }
{
    pictures[number as usize % KEPT]
}

/// Puts a picture in its place.
pub fn put(pictures: &mut [Picture], picture: &Picture)
    requires { length pictures.old ≡ 256 }
    ensures { pictures.new ≡ slice_set pictures.old (picture.now.number % 256) picture.now }
{
    pictures[picture.number as usize % KEPT] = *picture;
}

/// The bytes that came whole in the last half second, as bytes a second.
pub fn through(pictures: &[Picture], now: u64) -> u32
    requires { length pictures.now ≡ 256 }
    ensures { result ≡ rate_through now pictures.now }
{
    let mut sum = 0u64;
    for picture in pictures {
        sum += picture.came(now) as u64;
    }
    doubled(sum)
}

fn doubled(sum: u64) -> u32
    requires { sum < 2 ^ 40 }
    ensures { result ≡ doubled sum }
{
    (2 * sum).min(u32::MAX as u64) as u32
}

/// The picture of this number, if it is there and nothing was told of it yet.
pub fn open(pictures: &[Picture], number: u32) -> Option<Picture>
    requires { length pictures.now ≡ 256 }
    ensures { result ≡ open_of number pictures.now }
{
    let picture = at(pictures, number);
    if picture.is_open(number) {
        Some(picture)
    } else {
        None
    }
}
