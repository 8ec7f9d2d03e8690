//! Bits that are read and written.
ghost use Rattle.std.specs.Prelude.{◌≤◌};

use h263_bits::{BitReader, BitWriter, FaultKind};
use test_fixtures::answer::{Answer, Asked, WRONG, reader_of};

// Reads the bits at a place, and says them with the place after them.
fn bits_at(from: u32, n: u32, asked: &Asked<'_>, answer: &mut Answer)
    requires { n ≤ 32 }
{
    let mut reader = reader_of(&asked.bytes, from, asked.len);
    answer.say(&reader.bits(n));
    answer.say(&reader.at());
}

// A reader that ends inside the bits: what fits is read, and what doesn't changes nothing.
fn ends_inside(asked: &Asked<'_>, answer: &mut Answer) {
    let mut reader = reader_of(&asked.bytes, 3, asked.len);
    answer.say(&reader.bits(5));
    answer.say(&reader.bits(7));
    answer.say(&(reader.at(), reader.rest()));
    if reader.rest() >= 6 {
        answer.say(&reader.peek(6));
    }
    answer.say(&reader.fixed(2, 0b10, FaultKind::Cpm));
    answer.say(&reader.bits(4));
}

// Puts five numbers of 6, 8, 2, 32 and, after a cut at 36 bits, 3 bits, and aligns them.
fn written(bytes: &mut [u8; 6]) -> u32 {
    let mut writer = BitWriter::new(bytes);
    writer.put(0b100000, 6);
    writer.put(0, 8);
    writer.put(0b10, 2);
    writer.put(0x1c90_3155, 32);
    writer.cut(36);
    writer.put(0b101, 3);
    writer.align();
    writer.len()
}

/// Answers a row of `h263_bits.rows`: does the call of this name by the words after it.
pub fn answer(call: &str, asked: &mut Asked<'_>, answer: &mut Answer) {
    match call {
        "bits_at" => {
            let from = asked.number(1000);
            let n = asked.number(32);
            bits_at(from, n, asked, answer)
        }
        "ends_inside" => ends_inside(asked, answer),
        "written" => {
            let mut bytes = [0xff; 6];
            let len = written(&mut bytes);
            answer.put(&bytes, len);
        }
        _ => answer.why = WRONG,
    }
}
