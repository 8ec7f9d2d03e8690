//! Pictures that are cut into packets.
ghost use Rattle.std.specs.Prelude.{◌≡◌, ◌+◌, ◌≤◌, length};
ghost use Rattle.h263_types.specs.Blocks.{HasQuant, IsMb, IsOfKind};
ghost use Rattle.h263_types.specs.Sizes.{mbs_of};
ghost use Rattle.picture_header.specs.Ranges.{IsHeader};
ghost use Rattle.packet_cutter.specs.Cutting.{cut_format, cutter_kind, cutter_quant, added_of, IsPictureBegun};

use crate::headers::header;
use h263_types::{Format, Kind, Mb, Params};
use packet_cutter::Cutter;
use picture_header::Header;
use std::alloc::Global;
use test_fixtures::answer::{Answer, Asked, NO_MEMORY, WRONG, call_of};
use test_fixtures::codec::{PARAMS, flat_mb};

// Adds a macroblock this many times.
fn add_times(cutter: &mut Cutter, mb: &Mb, times: u32)
    requires begun { IsPictureBegun cutter.old }
    requires mb { IsMb mb.now }
    requires kind { IsOfKind (cutter_kind cutter.old) mb.now }
    requires quant { HasQuant (cutter_quant cutter.old) mb.now }
    requires left { added_of cutter.old + times ≤ mbs_of (cut_format cutter.old) }
    ensures begun { IsPictureBegun cutter.new }
    ensures added { added_of cutter.new ≡ added_of cutter.old + times }
    ensures format { cut_format cutter.new ≡ cut_format cutter.old }
{
    'times: for _time in 0..times {
        cutter.add(mb);
    }
}

// Cuts a picture of one macroblock many times.
fn cut_even(cutter: &mut Cutter, number: u32, header: &Header, mb: &Mb)
    requires header { IsHeader header.now }
    requires format { header.now.format ≡ cut_format cutter.old }
    requires mb { IsMb mb.now }
    requires kind { IsOfKind header.now.kind mb.now }
    requires quant { HasQuant header.now.quant mb.now }
    ensures { cut_format cutter.new ≡ cut_format cutter.old }
{
    cutter.begin(number, header);
    add_times(cutter, mb, header.format.mbs());
    cutter.finish();
}

// Cuts a flat picture, if it is an I picture at quantiser 8, and a P picture of Skip.
fn cut_picture(cutter: &mut Cutter, number: u32, header: &Header, answer: &mut Answer)
    requires header { IsHeader header.now }
    requires format { header.now.format ≡ cut_format cutter.old }
    ensures { cut_format cutter.new ≡ cut_format cutter.old }
{
    match header.kind {
        Kind::I => {
            if header.quant == 8 {
                cut_even(cutter, number, header, &flat_mb());
            } else {
                answer.why = WRONG;
            }
        }
        Kind::P => {
            cut_even(cutter, number, header, &Mb::Skip);
        }
    }
}

// Says how many packets there are, how many bytes each has, and their bytes.
fn say_packets(cutter: &Cutter, answer: &mut Answer) {
    let count = cutter.count();
    answer.say(&count);
    'packets: for place in 0..count {
        let packet = cutter.packet(place);
        answer.say(&packet.len());
        answer.put(packet, u32::MAX);
    }
}

// The header in another format.
fn in_format(format: Format, header: Header) -> Header
    requires { IsHeader header }
    ensures header { IsHeader result }
    ensures format { result.format ≡ format }
{
    Header { format, ..header }
}

// Cuts pictures one after the other, each by its number and the name of its header.
fn cut(alloc: Global, format: Format, asked: &mut Asked<'_>, answer: &mut Answer) {
    let Ok(mut cutter) = Cutter::start(alloc, &Params { format, ..PARAMS }) else {
        answer.why = NO_MEMORY;
        return;
    };
    say_packets(&cutter, answer);
    'pictures: for word in asked.words.by_ref() {
        let (number, name) = call_of(word);
        let number = answer.number(number, u32::MAX);
        let header = in_format(format, header(name, answer));
        cut_picture(&mut cutter, number, &header, answer);
        say_packets(&cutter, answer);
    }
}

/// Answers a row of `packet_cutter.rows`: does the call of this name by the words after it.
pub fn answer(alloc: Global, call: &str, asked: &mut Asked<'_>, answer: &mut Answer) {
    if call != "cut" {
        answer.why = WRONG;
        return;
    }
    let format = asked.format();
    cut(alloc, format, asked, answer)
}
