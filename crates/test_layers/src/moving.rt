//! Three moving pictures.
ghost use Rattle.std.specs.Prelude.{◌<◌, ◌≤◌};

use test_fixtures::codec::SIZE;

// How far a number lies from 64, modulo 128.
fn triangle(v: u32) -> u32
    ensures { result ≤ 64 }
{
    (v % 128).abs_diff(64)
}

// The luma of frame n: a texture at rest, before it another that moves by five and a half samples
// to the right and three and a half down, and from frame 1 on a bright corner.
fn luma(n: u32, x: u32, y: u32) -> u32
    requires n { n < 3 }
    requires x { x < 128 }
    requires y { y < 96 }
    ensures { result < 256 }
{
    let across = 2 * x + 128 - 11 * n;
    let down = 2 * y + 128 - 7 * n;
    if n > 0 && x >= 96 && y >= 64 {
        250 - (x * y + n) % 5
    } else if across >= 176 && across < 272 && down >= 168 && down < 264 {
        50 + triangle(5 * across + down) + triangle(2 * down + across * down / 32)
    } else {
        90 + triangle(3 * x + 2 * y) + 7 * x * y % 4
    }
}

// Both colours, which change in the lower part.
fn colour(n: u32, x: u32, y: u32) -> u32
    requires n { n < 3 }
    requires x { x < 64 }
    requires y { y < 96 }
    ensures { result < 256 }
{
    100 + triangle(4 * x + 2 * y + 9 * n * (y / 24))
}

/// Frame n, at most 2.
pub fn moving(n: u32) -> [u8; SIZE]
    requires { n < 3 }
{
    let mut frame = [0; SIZE];
    for k in 0..12_288u32 {
        frame[k as usize] = luma(n, k % 128, k / 128) as u8;
    }
    for k in 0..6_144u32 {
        frame[(12_288 + k) as usize] = colour(n, k % 64, k % 3_072 / 64) as u8;
    }
    frame
}
