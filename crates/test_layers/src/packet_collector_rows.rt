//! Packets that are read, and pieces that are collected.
ghost use Rattle.std.specs.Prelude.{◌≡◌, ◌≤◌, ◌+◌, ◌<◌};
ghost use Rattle.h263_types.specs.Blocks.{IsHeadOf};
ghost use Rattle.h263_types.specs.declared.format.Format.TheVariants.{Cif};
ghost use Rattle.packet_collector.specs.Collected.{IsInRow, IsRowFrom, first_of, format_of, row_of};

use crate::slice_layer_rows::UNTOUCHED;
use h263_types::{Format, Mb, Params, SliceHead};
use packet_collector::{Collector, Piece, Place, read_packet};
use picture_header::{Header, read_header};
use std::alloc::Global;
use test_fixtures::answer::{Answer, Asked, NO_MEMORY, WRONG, reader_of};
use test_fixtures::codec::{INTRA_OF_CIF, PARAMS_OF_CIF, flat_mb};

// How many macroblocks are as they were, how many are Skip, and how many are flat.
fn counts(mbs: &[Mb; 48]) -> (u32, u32, u32) {
    let flat = flat_mb();
    let mut left: u32 = 0;
    let mut skipped: u32 = 0;
    let mut flats: u32 = 0;
    for mb in mbs {
        if *mb == UNTOUCHED {
            left = left.saturating_add(1);
        } else if *mb == Mb::Skip {
            skipped = skipped.saturating_add(1);
        } else if *mb == flat {
            flats = flats.saturating_add(1);
        }
    }
    (left, skipped, flats)
}

/// Says what a packet of a sub-QCIF picture has: its header and its place, and how many macroblocks
/// it leaves as they were, which are Skip, and which are flat. Or says its fault.
pub fn packet(bytes: &[u8], answer: &mut Answer) {
    let mut mbs = [UNTOUCHED; 48];
    let piece = read_packet(bytes, Format::SubQcif, &mut mbs);
    answer.say(&piece);
    if piece.is_ok() {
        answer.say(&counts(&mbs));
    }
}

// A number of the row's pictures, which are four from `first` on.
fn number_in_row(asked: &mut Asked<'_>, first: u32) -> u32
    ensures low { first ≤ result }
    ensures high { result < first + 4 }
{
    let number = asked.number(100);
    if number < first || number - first >= 4 {
        asked.wrong = true;
        return first;
    }
    number
}

// A slice of a CIF picture: its first macroblock, and how many it has.
fn slice_head(asked: &mut Asked<'_>) -> SliceHead
    ensures { IsHeadOf Cif result }
{
    let first = asked.number(396);
    let count = asked.number(396);
    if count == 0 || first + count > 396 {
        asked.wrong = true;
        return SliceHead { first: 0, count: 1 };
    }
    SliceHead { first, count }
}

// Says where a slice of picture 0's header stands, and adds it if it is fresh.
fn add(collector: &mut Collector, number: u32, head: SliceHead, answer: &mut Answer)
    requires row { IsInRow collector.old number }
    requires head { IsHeadOf (format_of collector.old) head }
    ensures { IsRowFrom (first_of collector.old) collector.old collector.new }
{
    let piece = Piece {
        header: INTRA_OF_CIF,
        head,
    };
    match collector.place(number, &piece) {
        Place::Fresh => {
            collector.add(number, &piece);
            answer.say(&Place::Fresh);
        }
        place => answer.say(&place),
    }
}

// Says what is asked of a picture of the row.
fn ask(
    collector: &Collector,
    number: u32,
    step: &str,
    header: Header,
    asked: &mut Asked<'_>,
    answer: &mut Answer,
)
    requires row { IsInRow collector.now number }
    requires format { format_of collector.now ≡ Cif }
{
    match step {
        "any" => answer.say(&collector.any(number)),
        "whole" => answer.say(&collector.whole(number)),
        "has" => answer.say(&collector.has(number, asked.number(395))),
        "place" => {
            let head = slice_head(asked);
            answer.say(&collector.place(number, &Piece { header, head }));
        }
        _ => answer.why = WRONG,
    }
}

// Takes the steps of a row of a new collector: `advance`; or the number of a picture and `add` or
// `place` with a slice, `any`, `whole`, or `has` with a macroblock. The header is that of the pieces
// whose place is asked.
fn collect(alloc: Global, header: Header, asked: &mut Asked<'_>, answer: &mut Answer) {
    let Ok(mut collector) = Collector::start(alloc, &PARAMS_OF_CIF) else {
        answer.why = NO_MEMORY;
        return;
    };
    let mut first = 0;
    'steps: for _step in 0..64u32 {
        let Some(word) = asked.words.next() else {
            return;
        };
        match word {
            "advance" => {
                collector.advance();
                first += 1;
            }
            "add" => {
                let number = number_in_row(asked, first);
                let head = slice_head(asked);
                add(&mut collector, number, head, answer);
            }
            _ => {
                let number = number_in_row(asked, first);
                ask(&collector, number, word, header, asked, answer);
            }
        }
    }
    answer.why = WRONG;
}

// Says whether a new collector has anything of picture 0, and all of it.
fn start(alloc: Global, format: Format, answer: &mut Answer) {
    let Ok(collector) = Collector::start(alloc, &Params::of(format)) else {
        answer.why = NO_MEMORY;
        return;
    };
    answer.say(&collector.any(0));
    answer.say(&collector.whole(0));
}

/// Answers a row of `packet_collector.rows`: does the call of this name by the words after it.
pub fn answer(alloc: Global, call: &str, asked: &mut Asked<'_>, answer: &mut Answer) {
    match call {
        "packet" => packet(&asked.bytes, answer),
        "start" => start(alloc, asked.format(), answer),
        "collect" => collect(alloc, INTRA_OF_CIF, asked, answer),
        "collect_header" => {
            let mut reader = reader_of(&asked.bytes, 0, asked.len);
            match read_header(&mut reader, Format::Cif) {
                Ok(header) => collect(alloc, header, asked, answer),
                Err(_) => answer.why = WRONG,
            }
        }
        _ => answer.why = WRONG,
    }
}
