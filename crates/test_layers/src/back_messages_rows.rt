//! Messages, alone and in a header.
use back_messages::{MessageFault, message_bits, read, read_message, write, write_message};
use h263_bits::{BitReader, BitWriter};
use h263_types::Clock;
use test_fixtures::answer::{Answer, Asked, WRONG, reader_of};

// Says a message, and writes it again: its five bytes, and how many of them are meant.
fn written(clock: Clock, bytes: &[u8], answer: &mut Answer) {
    let message = read(bytes, clock);
    answer.say(&message);
    if let Ok(message) = message {
        let said = write(&message);
        answer.say(&said.len);
        answer.put(&said.bytes, 40);
    }
}

// Writes a message into a header, and reads it there.
fn in_header(clock: Clock, bytes: &[u8], answer: &mut Answer) {
    let mut buffer = [0xff; 8];
    let mut writer = BitWriter::new(&mut buffer);
    if let Ok(message) = read(bytes, clock) {
        write_message(&mut writer, &message);
        answer.say(&message_bits(&message));
    }
    let len = writer.len();
    answer.put(&buffer, len);
    let mut reader = BitReader::new(&buffer, 0, 64);
    answer.say(&read_message(&mut reader, clock));
    answer.say(&reader.at());
}

/// Answers a row of `back_messages.rows`: does the call of this name by the words after it.
pub fn answer(call: &str, asked: &mut Asked<'_>, answer: &mut Answer) {
    let clock = asked.clock();
    match call {
        "read" => answer.say(&read(&asked.bytes, clock)),
        "write" => written(clock, &asked.bytes, answer),
        "in_header" => in_header(clock, &asked.bytes, answer),
        "read_message" => answer.say(&read_message(
            &mut reader_of(&asked.bytes, 0, asked.len),
            clock,
        )),
        _ => answer.why = WRONG,
    }
}
