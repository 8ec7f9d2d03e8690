//! The quantisers, levels and lines of known sizes.
ghost use Rattle.std.specs.Prelude.{◌≤◌};

use crate::lines::say_line;
use h263_types::Pace;
use rate_control::{BucketPace, Meter, Totals, picture_text, totals_text};
use test_fixtures::answer::{Answer, Asked, WRONG};

// The most bytes of a packet here.
const MAX_BYTES: usize = 400;

// The quantiser after so many pictures of these sizes, by a target of 342 bytes and from 8 on.
fn quant(count: usize, asked: &mut Asked<'_>, answer: &mut Answer)
    requires { count ≤ 16 }
{
    let mut sizes = [0; 16];
    for k in 0..count {
        sizes[k] = asked.number(u32::MAX);
    }
    answer.say(&BucketPace::new(342, 8).quant(&sizes[..count]));
}

// A packet of the time with room after its header.
fn packet_at(timestamp: u32) -> [u8; MAX_BYTES] {
    let mut bytes = [0; MAX_BYTES];
    bytes[..12].copy_from_slice(&rtp_header::write(false, 0, timestamp));
    bytes
}

// What a meter of 100 bytes a picture, with a bucket of 200, says of packets of a time and a length.
fn pictures(count: u32, asked: &mut Asked<'_>, answer: &mut Answer)
    requires { count ≤ 16 }
{
    let mut meter = Meter::new(100, 200);
    'packets: for _packet in 0..count {
        let (timestamp, len) = answer.pair(asked.word(), u32::MAX);
        let bytes = packet_at(timestamp);
        answer.say(&meter.packet(&bytes[..(len as usize).min(MAX_BYTES)]));
    }
    answer.say(&meter.close());
}

// The totals of a log without a picture, and their line.
fn no_picture(answer: &mut Answer) {
    let totals = Meter::new(999_999, 0).close();
    answer.say(&totals);
    say_line(answer, totals_text(&totals).text())
}

// The line of a picture, and that of totals whose last picture doesn't count for it.
fn totals(asked: &mut Asked<'_>, answer: &mut Answer) {
    let totals = Totals {
        last: Some((1, 31, 173)),
        pictures: asked.number(u32::MAX),
        greatest: asked.place(usize::MAX) as u64,
        over: asked.number(u32::MAX),
        refused: asked.number(u32::MAX),
    };
    say_line(answer, totals_text(&totals).text())
}

/// Answers a row of `rate_control.rows`: does the call of this name by the words after it.
pub fn answer(call: &str, asked: &mut Asked<'_>, answer: &mut Answer) {
    match call {
        "quant" => {
            let count = asked.number(16);
            quant(count as usize, asked, answer)
        }
        "pictures" => {
            let count = asked.number(16);
            pictures(count, asked, answer)
        }
        "no_picture" => no_picture(answer),
        "picture_line" => {
            let number = asked.number(u32::MAX);
            let size = asked.place(usize::MAX) as u64;
            let level = asked.place(usize::MAX) as u64;
            say_line(answer, picture_text(number, size, level).text())
        }
        "totals_line" => totals(asked, answer),
        _ => answer.why = WRONG,
    }
}
