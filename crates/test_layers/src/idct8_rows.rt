//! The transforms of blocks by formulas.
ghost use Rattle.std.specs.Prelude.{◌<◌, All};
ghost use Rattle.h263_types.specs.Blocks.{IsValue};
ghost use Rattle.idct8.specs.Ranges.{IsSample};

use idct8::{are_below, forward, inverse, narrow_inverse};
use test_fixtures::answer::{Answer, Asked, WRONG};

// The number at place `at` of block `kind`: extremes, a ramp, and then a single number at each
// place.
fn number_of(kind: usize, at: usize) -> i32
    requires { at < 64 }
{
    match kind {
        0 => 2047,
        1 => -2048,
        2 => if at % 2 == 0 { 2047 } else { -2048 },
        3 => 65 * at as i32 - 2048,
        4 => (at as i32 * 37) % 64 * 8 - 255,
        _ => if at + 5 == kind { 100 } else { 0 },
    }
}

fn values_of(kind: usize) -> [i16; 64]
    ensures { All IsValue result }
{
    let mut values = [0; 64];
    for at in 0..64 {
        values[at] = number_of(kind, at).clamp(-2048, 2047) as i16;
    }
    values
}

fn samples_of(kind: usize) -> [i16; 64]
    ensures { All IsSample result }
{
    let mut samples = [0; 64];
    for at in 0..64 {
        samples[at] = number_of(kind, at).clamp(-255, 255) as i16;
    }
    samples
}

/// A digest of numbers before this one, and of this one.
pub fn digest_with(before: u32, number: i32) -> u32 {
    let size = number.unsigned_abs();
    let more = before.wrapping_mul(31).wrapping_add(32_768);
    if number < 0 {
        more.wrapping_sub(size)
    } else {
        more.wrapping_add(size)
    }
}

// The digests of what the two inverse transforms and the forward transform give.
fn transforms(kind: usize) -> (u32, u32, u32) {
    let values = values_of(kind);
    let wide = inverse(&values);
    let mut narrow = values;
    narrow_inverse(&mut narrow);
    let onward = forward(&samples_of(kind));
    let (mut a, mut b, mut c) = (0, 0, 0);
    for at in 0..64 {
        a = digest_with(a, wide[at]);
        b = digest_with(b, i32::from(narrow[at]));
        c = digest_with(c, onward[at]);
    }
    (a, b, c)
}

/// Answers a row of `idct8.rows`: does the call of this name by the words after it.
pub fn answer(call: &str, asked: &mut Asked<'_>, answer: &mut Answer) {
    let kind = asked.place(69);
    match call {
        "transforms" => answer.say(&transforms(kind)),
        "inverse" => answer.say(&inverse(&values_of(kind)).as_slice()),
        "are_below" => answer.say(&are_below(&samples_of(kind), asked.number(77))),
        _ => answer.why = WRONG,
    }
}
