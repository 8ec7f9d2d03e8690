//! Slices that are written.
ghost use Rattle.std.specs.Prelude.{◌≡◌, ◌+◌, ◌≤◌, ◌<◌, IsTrue};
ghost use Rattle.h263_types.specs.Blocks.{IsMb, IsOfKind};
ghost use Rattle.h263_types.specs.Sizes.{mbs_of};
ghost use Rattle.macroblock_layer.specs.Written.{IsStepped};
ghost use Rattle.picture_header.specs.Ranges.{IsHeader};
ghost use Rattle.slice_layer.specs.Around.{quant_after};
ghost use Rattle.slice_layer.specs.Writer.{slice_kind, slice_format, first_mb_of, next_mb_of, quant_of, GoesOn};

use crate::headers::header;
use crate::macroblock_layer_rows::read_one;
use h263_bits::BitReader;
use h263_types::{Kind, Mb, Vector};
use picture_header::Header;
use slice_layer::{Added, MbRoom, SliceWriter};
use test_fixtures::answer::{Answer, Asked, WRONG, reader_of};
use test_fixtures::codec::{FAR, is_stepped};

// The quantiser after a macroblock.
fn next_quant(from: u8, mb: &Mb) -> u8
    ensures { result ≡ quant_after from mb.now }
{
    match mb {
        Mb::Skip => from,
        Mb::Intra { quant, blocks: _ } => *quant,
        Mb::Inter {
            quant,
            vector: _,
            blocks: _,
        } => *quant,
    }
}

// Whether the macroblock may stand after a quantiser, and leaves it as it is.
fn stays(quant: u8, mb: &Mb) -> bool
    requires { quant ≤ 31 }
    ensures near { IsTrue result → IsStepped quant mb.now }
    ensures same { IsTrue result → quant_after quant mb.now ≡ quant }
{
    if next_quant(quant, mb) != quant {
        return false;
    }
    is_stepped(quant, mb)
}

// Adds a macroblock that leaves the quantiser as it is this many times. Answers how often it fitted.
fn add_times(writer: &mut SliceWriter<'_>, mb: &Mb, times: u32) -> u32
    requires mb { IsMb mb.now }
    requires kind { IsOfKind (slice_kind writer.old) mb.now }
    requires step { IsStepped (quant_of writer.old) mb.now }
    requires same { quant_after (quant_of writer.old) mb.now ≡ quant_of writer.old }
    requires left { next_mb_of writer.old + times ≤ mbs_of (slice_format writer.old) }
    ensures slice { GoesOn writer.old writer.new }
    ensures quant { quant_of writer.new ≡ quant_of writer.old }
    ensures next { next_mb_of writer.new ≡ next_mb_of writer.old + result }
    ensures few { result ≤ times }
{
    let mut apart = MbRoom::new();
    let mut fits = 0;
    'times: for _time in 0..times {
        match writer.add(mb, &mut apart) {
            Added::Fits => fits += 1,
            Added::Full => {}
        }
    }
    fits
}

// Adds a macroblock so often; one that changes the quantiser only once. Answers how often it fitted,
// and the quantiser after it.
fn add_run(
    writer: &mut SliceWriter<'_>,
    quant: u8,
    mb: &Mb,
    times: u32,
    answer: &mut Answer,
) -> (u32, u8)
    requires quant { quant_of writer.old ≡ quant }
    requires mb { IsMb mb.now }
    requires kind { IsOfKind (slice_kind writer.old) mb.now }
    requires left { next_mb_of writer.old + times ≤ mbs_of (slice_format writer.old) }
    ensures slice { GoesOn writer.old writer.new }
    ensures quant { quant_of writer.new ≡ result.1 }
    ensures next { next_mb_of writer.new ≡ next_mb_of writer.old + result.0 }
    ensures few { result.0 ≤ times }
{
    if quant > 31 {
        answer.why = WRONG;
        return (0, quant);
    }
    if stays(quant, mb) {
        return (add_times(writer, mb, times), quant);
    }
    if times != 1 || !is_stepped(quant, mb) {
        answer.why = WRONG;
        return (0, quant);
    }
    let next = next_quant(quant, mb);
    match writer.add(mb, &mut MbRoom::new()) {
        Added::Fits => (1, next),
        Added::Full => (0, quant),
    }
}

// Adds each macroblock of the bits so often as its word says, and says how often it fitted. Answers
// how many there are.
fn write_all(
    writer: &mut SliceWriter<'_>,
    header: &Header,
    first: u32,
    asked: &mut Asked<'_>,
    answer: &mut Answer,
) -> u32
    requires kind { slice_kind writer.old ≡ header.now.kind }
    requires format { slice_format writer.old ≡ header.now.format }
    requires next { next_mb_of writer.old ≡ first }
    requires quant { quant_of writer.old ≡ header.now.quant }
    ensures first { first_mb_of writer.new ≡ first_mb_of writer.old }
    ensures next { next_mb_of writer.new ≡ first + result }
{
    let mut reader = reader_of(&asked.bytes, 0, asked.len);
    let mut added: u32 = 0;
    let mut quant = header.quant;
    'words: for word in asked.words.by_ref() {
        let times = answer.number(word, 396);
        let Ok(mb) = read_one(&mut reader, header.kind, 8, Vector::ZERO, FAR) else {
            answer.why = WRONG;
            return added;
        };
        let end = first.saturating_add(added).saturating_add(times);
        if end > header.format.mbs() {
            answer.why = WRONG;
            return added;
        }
        let (fits, next) = add_run(writer, quant, &mb, times, answer);
        answer.say(&fits);
        added += fits;
        quant = next;
    }
    added
}

// Writes a slice from macroblock `first` on, and says how many bytes it has.
fn write(header: &Header, first: u32, asked: &mut Asked<'_>, answer: &mut Answer)
    requires { IsHeader header.now }
{
    if first >= header.format.mbs() {
        answer.why = WRONG;
        return;
    }
    let mut bytes = [0xff; 1150];
    let mut writer = SliceWriter::start(&mut bytes, header, first == 0, first);
    let added = write_all(&mut writer, header, first, asked, answer);
    if added == 0 {
        answer.why = WRONG;
        return;
    }
    let size = writer.finish();
    answer.say(&size);
    answer.put(&bytes, size.saturating_mul(8));
}

/// Answers a row of `slice_writer.rows`: does the call of this name by the words after it.
pub fn answer(call: &str, asked: &mut Asked<'_>, answer: &mut Answer) {
    if call != "write" {
        answer.why = WRONG;
        return;
    }
    let header = header(asked.word(), answer);
    let first = asked.number(395);
    write(&header, first, asked, answer)
}
