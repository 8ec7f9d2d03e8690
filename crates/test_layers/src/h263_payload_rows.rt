//! Payload headers.
use h263_bits::{BitWriter, Fault};
use h263_payload::{Payload, read_opening, read_payload, write_payload};
use h263_types::Format;
use test_fixtures::answer::{Answer, Asked, WRONG, reader_of};
use test_fixtures::codec::INTRA_OF_CIF;

// What is read of a packet after its RTP header.
fn read(bytes: &[u8], format: Format) -> Result<Payload, Fault> {
    let rtp = rtp_header::read(bytes)?;
    read_payload(bytes, &rtp, format)
}

// The payload header of a picture's first packet.
fn written_first() -> [u8; 2] {
    let mut bytes = [0xff; 2];
    let mut writer = BitWriter::new(&mut bytes);
    write_payload(&mut writer, None);
    bytes
}

// The payload header of a later packet of a CIF picture.
fn written_later() -> [u8; 11] {
    let mut bytes = [0xff; 11];
    let mut writer = BitWriter::new(&mut bytes);
    write_payload(&mut writer, Some(&INTRA_OF_CIF));
    bytes
}

/// Answers a row of `h263_payload.rows`: does the call of this name by the words after it.
pub fn answer(call: &str, asked: &mut Asked<'_>, answer: &mut Answer) {
    match call {
        "read" => {
            let format = asked.format();
            answer.say(&read(&asked.bytes, format));
        }
        "written_first" => answer.put(&written_first(), 16),
        "written_later" => answer.put(&written_later(), 88),
        "opening" => {
            let follow_on = asked.number(1) == 1;
            let mut reader = reader_of(&asked.bytes, 0, asked.len);
            let opening = read_opening(&mut reader, follow_on);
            answer.say(&opening);
            if opening.is_ok() {
                answer.say(&reader.rest());
            }
        }
        _ => answer.why = WRONG,
    }
}
