//! Pictures of sub-QCIF that rows name by a word and numbers.
//!
//! `flat SAMPLE`; `flat_but SAMPLE COUNT OTHER`, where so many samples of macroblock 9 are others;
//! `texture MODULUS RIGHT DOWN`, seen from a place on; `half_moved` with the same numbers, by half a
//! sample to the right and down; `brighter_y MORE` and `brighter_cr MORE`, a block of a texture that
//! is brighter; `moving FRAME`; `ramps`, one macroblock; and each word of `sample`.
ghost use Rattle.std.specs.Prelude.{◌<◌, ◌≤◌};

use crate::moving::moving;
use h263_planes::{PictureMut, Plane};
use h263_types::Format;
use test_fixtures::answer::Asked;
use test_fixtures::codec::{SIZE, texture};

// The samples of Y, and of one of its colours.
const LUMA: usize = 12_288;

const COLOUR: usize = 3_072;

const WIDTH: usize = 128;

// Sample `i` of a picture that is a plain formula.
fn sample(word: &str, i: usize) -> Option<u8>
    requires { i < 18432 }
{
    let odd = (i % WIDTH + i / WIDTH) % 2;
    let value = match word {
        // 10 and 11 side by side, in each row and plane
        "columns" => 10 + i % 2,
        // black and white by turns, and the other way round
        "black_first" => 255 * odd,
        "white_first" => 255 - 255 * odd,
        // each sample of Cb is four times its column
        "cb_ramp" => if i / COLOUR == 4 { 4 * (i % 64) } else { 0 },
        // one further right is 1 more, and one further down in Y 128
        "places" => i % 256,
        // neighbours differ
        "steps" => i * 37 % 251,
        "mixed" => i * 37 % 251 * (i / WIDTH + 3) % 256,
        _ => return None,
    };
    Some(value as u8)
}

fn by_formula(word: &str, asked: &mut Asked<'_>) -> [u8; SIZE] {
    let mut bytes = [0; SIZE];
    for i in 0..SIZE {
        match sample(word, i) {
            Some(value) => bytes[i] = value,
            None => asked.wrong = true,
        }
    }
    bytes
}

// The colours have every second sample of the texture, across and down.
fn textured(modulus: usize, right: usize, down: usize) -> [u8; SIZE]
    requires modulus { 0 < modulus }
    requires right { right < 32 }
    requires down { down < 32 }
{
    let mut bytes = [0; SIZE];
    for i in 0..SIZE {
        bytes[i] = if i < LUMA {
            (texture(i % WIDTH + right, i / WIDTH + down) % modulus % 256) as u8
        } else {
            (texture(2 * (i % 64) + right, 2 * ((i - LUMA) % COLOUR / 64) + down)
                % modulus
                % 256) as u8
        };
    }
    bytes
}

// A modulus of 0 stands for 1.
fn texture_of(asked: &mut Asked<'_>) -> [u8; SIZE] {
    let modulus = asked.place(256).max(1);
    let right = asked.place(31);
    let down = asked.place(31);
    textured(modulus, right, down)
}

// What lies half a sample to the right and down of each sample of Y; the last column and row stand
// for the next.
fn half_moved(from: &[u8; SIZE]) -> [u8; SIZE] {
    let mut bytes = [0; SIZE];
    for i in 0..LUMA {
        let right = if i % WIDTH + 1 < WIDTH { 1 } else { 0 };
        let down = if i / WIDTH + 1 < LUMA / WIDTH {
            WIDTH
        } else {
            0
        };
        let sum = u16::from(from[i])
            + u16::from(from[i + right])
            + u16::from(from[i + down])
            + u16::from(from[i + down + right]);
        bytes[i] = ((sum + 2) / 4) as u8;
    }
    bytes
}

// The second block of Y of macroblock 9, or its block of Cr, brighter than in a texture.
fn brighter(cr: bool, more: u8) -> [u8; SIZE] {
    let mut bytes = textured(251, 16, 16);
    for k in 0..64 {
        let at = if cr {
            LUMA + COLOUR + 64 * (8 + k / 8) + 8 + k % 8
        } else {
            WIDTH * (16 + k / 8) + 24 + k % 8
        };
        bytes[at] = bytes[at].wrapping_add(more);
    }
    bytes
}

fn flat_but(sample: u8, count: usize, other: u8) -> [u8; SIZE]
    requires { count ≤ 256 }
{
    let mut bytes = [sample; SIZE];
    for k in 0..count {
        bytes[WIDTH * (16 + k / 16) + 16 + k % 16] = other;
    }
    bytes
}

// Macroblock 9, the second of the second row: a ramp to the right, one downwards, black, white, and
// two colours.
fn ramps() -> [u8; SIZE] {
    let mut bytes = [128; SIZE];
    let mut out = PictureMut::new(Format::SubQcif, &mut bytes);
    for y in 0..8u32 {
        out.set_row(Plane::Y, 16, 16 + y, &[10, 20, 30, 40, 50, 60, 70, 80]);
        out.set_row(Plane::Y, 24, 16 + y, &[30 * y as u8 + 30; 8]);
        out.set_row(Plane::Y, 16, 24 + y, &[0; 8]);
        out.set_row(Plane::Y, 24, 24 + y, &[255; 8]);
        out.set_row(Plane::Cb, 8, 8 + y, &[90; 8]);
        out.set_row(Plane::Cr, 8, 8 + y, &[200; 8]);
    }
    bytes
}

fn flat_but_some(asked: &mut Asked<'_>) -> [u8; SIZE] {
    let sample = asked.number(255) as u8;
    let count = asked.place(256);
    let other = asked.number(255) as u8;
    flat_but(sample, count, other)
}

/// The picture that the next words name.
pub fn picture(asked: &mut Asked<'_>) -> [u8; SIZE] {
    let word = asked.word();
    match word {
        "flat" => [asked.number(255) as u8; SIZE],
        "flat_but" => flat_but_some(asked),
        "texture" => texture_of(asked),
        "half_moved" => half_moved(&texture_of(asked)),
        "brighter_y" => brighter(false, asked.number(255) as u8),
        "brighter_cr" => brighter(true, asked.number(255) as u8),
        "moving" => moving(asked.number(2)),
        "ramps" => ramps(),
        _ => by_formula(word, asked),
    }
}
