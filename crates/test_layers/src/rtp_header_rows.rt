//! RTP headers.
use rtp_header::{read, write};
use test_fixtures::answer::{Answer, Asked, WRONG};

/// Answers a row of `rtp_header.rows`: does the call of this name by the words after it.
pub fn answer(call: &str, asked: &mut Asked<'_>, answer: &mut Answer) {
    match call {
        "read" => answer.say(&read(&asked.bytes)),
        "write" => {
            let marker = asked.number(1) == 1;
            let sequence = asked.number(65_535) as u16;
            let timestamp = asked.number(u32::MAX);
            answer.put(&write(marker, sequence, timestamp), 96);
        }
        _ => answer.why = WRONG,
    }
}
