//! The start of a packet.
use crate::packet_collector_rows::packet;
use packet_start::{find_start, read_start};
use test_fixtures::answer::{Answer, Asked, WRONG};

/// Answers a row of `packet_start.rows`: does the call of this name by the words after it.
pub fn answer(call: &str, asked: &mut Asked<'_>, answer: &mut Answer) {
    match call {
        "find_start" => answer.say(&find_start(&asked.bytes)),
        "read_start" => {
            let format = asked.format();
            answer.say(&read_start(&asked.bytes, format));
        }
        "packet" => packet(&asked.bytes, answer),
        _ => answer.why = WRONG,
    }
}
