//! Where planes, rows and corners lie.
use crate::samples::sample;
use h263_planes::{PictureMut, Plane, block_corner};
use h263_types::Format;
use std::fmt::Write;
use test_fixtures::answer::{Answer, Asked, NO_MEMORY, WRONG};
use test_fixtures::codec::SIZE;

fn say_place(at: usize, byte: u8, answer: &mut Answer) {
    if write!(answer.words, " {at}:{byte}").is_err() {
        answer.why = NO_MEMORY;
    }
}

// Writes 200 over a sample of 7, and says what is there then, and the place of each byte that is
// another.
fn set(asked: &mut Asked<'_>, answer: &mut Answer) {
    let (plane, x, y) = sample(asked);
    let mut bytes = [7; SIZE];
    let mut picture = PictureMut::new(Format::SubQcif, &mut bytes);
    picture.set(plane, x, y, 200);
    let sample = picture.seen().sample(plane, x, y);
    answer.say(&sample);
    for (at, byte) in bytes.iter().enumerate() {
        if *byte != 7 {
            say_place(at, *byte, answer);
        }
    }
}

// Writes a row of four samples, and says it with the two before it, two of the other colour, the
// format, and the bytes.
fn set_row(answer: &mut Answer) {
    let mut bytes = [128; SIZE];
    let mut picture = PictureMut::new(Format::SubQcif, &mut bytes);
    picture.set_row(Plane::Cb, 60, 47, &[1, 2, 3, 4]);
    let seen = picture.seen();
    answer.say(&seen.row(Plane::Cb, 58, 47, 6));
    answer.say(&seen.row(Plane::Cr, 0, 0, 2));
    answer.say(&seen.format());
    answer.say(&&bytes[15_356..15_361]);
}

/// Answers a row of `h263_planes.rows`: does the call of this name by the words after it.
pub fn answer(call: &str, asked: &mut Asked<'_>, answer: &mut Answer) {
    match call {
        "set" => set(asked, answer),
        "set_row" => set_row(answer),
        "corner" => answer.say(&block_corner(Format::SubQcif, 9, asked.number(5))),
        _ => answer.why = WRONG,
    }
}
