//! Slices that are read.
ghost use Rattle.picture_header.specs.Ranges.{IsHeader};

use crate::headers::header;
use h263_bits::BitReader;
use h263_types::{Block, Format, Mb, Vector};
use picture_header::{Header, read_header};
use slice_layer::read_slice;
use std::fmt::Write;
use test_fixtures::answer::{Answer, Asked, NO_MEMORY, WRONG, reader_of};
use test_fixtures::codec::head_of;

/// A macroblock that no row has: where it still stands nothing was written.
pub const UNTOUCHED: Mb = Mb::Inter {
    quant: 30,
    vector: Vector { x: -32, y: -32 },
    blocks: [Block { levels: [0; 64] }; 6],
};

// Says the macroblocks that were written: each with its number, its quantiser and its vector.
fn say_heads(mbs: &[Mb], answer: &mut Answer) {
    for (at, mb) in mbs.iter().enumerate() {
        let (quant, vector) = head_of(mb);
        if quant != 30 {
            if write!(answer.words, " {at}:{quant},{},{}", vector.x, vector.y).is_err() {
                answer.why = NO_MEMORY;
            }
        }
    }
}

// Says the first ten levels of the first block of each intra macroblock.
fn say_levels(mbs: &[Mb], answer: &mut Answer) {
    for mb in mbs {
        if let Mb::Intra { quant: _, blocks } = mb {
            answer.say(&&blocks[0].levels[..10]);
        }
    }
}

// Reads a slice, and says what it has.
fn slice(reader: &mut BitReader<'_>, header: &Header, begins: bool, answer: &mut Answer)
    requires { IsHeader header.now }
{
    let mut room = [UNTOUCHED; 396];
    let mbs = &mut room[..header.format.mbs() as usize];
    let head = read_slice(reader, header, begins, mbs);
    answer.say(&head);
    if head.is_ok() {
        say_heads(mbs, answer);
        say_levels(mbs, answer);
    }
}

// The picture header, its end, and the first slice.
fn picture(asked: &Asked<'_>, answer: &mut Answer) {
    let mut reader = reader_of(&asked.bytes, 0, asked.len);
    let header = read_header(&mut reader, Format::SubQcif);
    answer.say(&header);
    answer.say(&reader.at());
    if let Ok(header) = header {
        slice(&mut reader, &header, true, answer);
    }
}

/// Answers a row of `slice_layer.rows`: does the call of this name by the words after it.
pub fn answer(call: &str, asked: &mut Asked<'_>, answer: &mut Answer) {
    if call == "picture" {
        picture(asked, answer);
        return;
    }
    let header = header(asked.word(), answer);
    let begins = match call {
        "first" => true,
        "later" => false,
        _ => {
            answer.why = WRONG;
            return;
        }
    };
    let mut reader = reader_of(&asked.bytes, 0, asked.len);
    slice(&mut reader, &header, begins, answer)
}
