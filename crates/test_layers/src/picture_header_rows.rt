//! Picture headers.
ghost use Rattle.std.specs.Prelude.{◌≤◌};
ghost use Rattle.picture_header.specs.Ranges.{IsHeader};

use h263_bits::BitWriter;
use h263_types::Format;
use picture_header::{Header, header_bits, read_header, write_header};
use test_fixtures::answer::{Answer, Asked, WRONG, reader_of};
use test_fixtures::codec::INTRA;

// Says how many bits a header has, and writes it up to the end of a byte.
fn written(header: &Header, answer: &mut Answer)
    requires { IsHeader header.now }
{
    let bits = header_bits(header);
    answer.say(&bits);
    let mut bytes = [0xff; 32];
    let mut writer = BitWriter::new(&mut bytes);
    write_header(&mut writer, header);
    writer.align();
    let len = writer.len();
    answer.put(&bytes, len);
}

// Says a header with its end, and writes it again; or says its fault.
fn read(format: Format, asked: &Asked<'_>, answer: &mut Answer) {
    let mut reader = reader_of(&asked.bytes, 0, asked.len);
    let header = read_header(&mut reader, format);
    answer.say(&header);
    if let Ok(header) = header {
        answer.say(&reader.at());
        written(&header, answer);
    }
}

// The header of an I picture: its format, its clock, TR and the quantiser.
fn intra(asked: &mut Asked<'_>) -> Header
    ensures { IsHeader result }
{
    let format = asked.format();
    let clock = asked.clock();
    let tr = asked.number(1023);
    let quant = asked.number(31);
    if tr >= clock.period() || quant == 0 {
        asked.wrong = true;
        return INTRA;
    }
    Header::intra(format, clock, tr as u16, quant as u8)
}

// The header of a P picture after it, by its rounding and TRP.
fn predicted(first: Header, rounding: u32, asked: &mut Asked<'_>) -> Header
    requires header { IsHeader first }
    requires rounding { rounding ≤ 1 }
{
    let trp = asked.number(1023);
    if trp >= first.clock.period() {
        asked.wrong = true;
        return first;
    }
    first.predicted(rounding as u8, trp as u16)
}

// A header of a P picture, and whether it is the same as one with another TRP.
fn same(asked: &mut Asked<'_>, answer: &mut Answer) {
    let first = intra(asked);
    let rounding = asked.number(1);
    let one = predicted(first, rounding, asked);
    let other = predicted(first, rounding, asked);
    answer.say(&one);
    answer.say(&one.is_same(&other));
}

/// Answers a row of `picture_header.rows`: does the call of this name by the words after it.
pub fn answer(call: &str, asked: &mut Asked<'_>, answer: &mut Answer) {
    match call {
        "read" => {
            let format = asked.format();
            read(format, asked, answer)
        }
        "blank" => answer.say(&Header::blank(asked.format())),
        "intra" => answer.say(&intra(asked)),
        "predicted_and_other" => same(asked, answer),
        _ => answer.why = WRONG,
    }
}
