//! What is chosen for a macroblock.
ghost use Rattle.std.specs.Prelude.{◌<◌, ◌≤◌};

use crate::idct8_rows::digest_with;
use crate::pictures::picture;
use h263_planes::PictureRef;
use h263_types::{Block, Format, Kind, Mb, Params};
use mode_choice::{Chosen, choose, choose_into};
use picture_header::Header;
use std::fmt::Write;
use test_fixtures::answer::{Answer, Asked, NO_MEMORY, WRONG};
use test_fixtures::codec::{INTRA, PARAMS, SIZE};

// A number that tells of each level of a macroblock.
fn digest(blocks: &[Block; 6]) -> u32 {
    let mut digest = 0;
    for block in blocks {
        for level in block.levels {
            digest = digest_with(digest, i32::from(level));
        }
    }
    digest
}

// What is chosen in a P picture of these bytes.
fn chosen(frame: &[u8; SIZE], reference: &[u8; SIZE], mb: u32, keep: u8, rounding: u8) -> Mb
    requires mb { mb < 48 }
    requires rounding { rounding ≤ 1 }
{
    let header = Header {
        kind: Kind::P,
        rounding,
        trp: Some(0),
        ..INTRA
    };
    let params = Params { keep, ..PARAMS };
    let frame = PictureRef::new(Format::SubQcif, frame);
    let reference = PictureRef::new(Format::SubQcif, reference);
    let mut chosen = Chosen::new();
    choose_into(frame, Some(reference), mb, &header, &params, &mut chosen);
    chosen.marked.mb
}

// Says whether the macroblock is skipped, intra, or predicted by a vector, and the digest of its
// levels.
fn say_inter(mb: &Mb, answer: &mut Answer) {
    match mb {
        Mb::Skip => answer.add(" skip"),
        Mb::Intra { blocks, .. } => {
            answer.add(" intra");
            answer.say(&digest(blocks));
        }
        Mb::Inter { vector, blocks, .. } => {
            answer.add(" inter");
            answer.say(&vector.x);
            answer.say(&vector.y);
            answer.say(&digest(blocks));
        }
    }
}

// What is chosen in an I picture.
fn chosen_intra(frame: &[u8; SIZE], mb: u32, keep: u8) -> Mb
    requires { mb < 48 }
{
    let params = Params { keep, ..PARAMS };
    let frame = PictureRef::new(Format::SubQcif, frame);
    choose(frame, None, mb, &INTRA, &params)
}

fn say_level(at: usize, place: usize, level: i16, answer: &mut Answer) {
    if write!(answer.words, " {at}.{place}:{level}").is_err() {
        answer.why = NO_MEMORY;
    }
}

// Says the quantiser of an intra macroblock, and each level that is not 0 by its block and its place.
fn say_intra(mb: &Mb, answer: &mut Answer) {
    if let Mb::Intra { quant, blocks } = mb {
        answer.say(quant);
        for (at, block) in blocks.iter().enumerate() {
            for (place, level) in block.levels.iter().enumerate() {
                if *level != 0 {
                    say_level(at, place, *level, answer);
                }
            }
        }
    }
}

/// Answers a row of `mode_choice.rows`: does the call of this name by the words after it.
pub fn answer(call: &str, asked: &mut Asked<'_>, answer: &mut Answer) {
    let frame = picture(asked);
    match call {
        "in_i" => {
            let mb = asked.number(47);
            let keep = asked.number(64) as u8;
            say_intra(&chosen_intra(&frame, mb, keep), answer)
        }
        "in_p" => {
            let reference = picture(asked);
            let mb = asked.number(47);
            let keep = asked.number(64) as u8;
            let rounding = asked.number(1) as u8;
            say_inter(&chosen(&frame, &reference, mb, keep, rounding), answer)
        }
        _ => answer.why = WRONG,
    }
}
