//! Macroblocks, and the vectors that predict them.
ghost use Rattle.std.specs.Prelude.{IfOk};
ghost use Rattle.h263_types.specs.Blocks.{IsMb, IsOfKind, IsQuant};

use h263_bits::{BitReader, BitWriter, Fault};
use h263_types::{Format, Kind, Mb, Reach, Vector, reach};
use macroblock_layer::{predictor, read_mb, write_mb};
use test_fixtures::answer::{Answer, Asked, WRONG, reader_of};
use test_fixtures::codec::{FAR, head_of, is_stepped};

const PREDICTOR: Vector = Vector { x: 31, y: -3 };

// Writes a macroblock after this quantiser.
fn put_mb(kind: Kind, quant: u8, predicted: Vector, mb: &Mb, answer: &mut Answer)
    requires quant { IsQuant quant }
    requires mb { IsMb mb.now }
    requires kind { IsOfKind kind mb.now }
{
    let mut out = [0; 1062];
    let mut writer = BitWriter::new(&mut out);
    if is_stepped(quant, mb) {
        write_mb(&mut writer, kind, quant, predicted, mb);
    }
    let len = writer.len();
    answer.put(&out, len);
}

/// Reads a macroblock.
pub fn read_one(
    reader: &mut BitReader<'_>,
    kind: Kind,
    quant: u8,
    predictor: Vector,
    reach: Reach,
) -> Result<Mb, Fault>
    requires { IsQuant quant }
    ensures mb { IfOk result (λ m. IsMb m) }
    ensures kind { IfOk result (λ m. IsOfKind kind m) }
{
    let mut mb = Mb::Skip;
    read_mb(reader, kind, quant, predictor, reach, &mut mb)?;
    Ok(mb)
}

// Says the quantiser and the vector of a macroblock after the quantiser 8 and the predictor (31,
// -3), and writes it again; or says the first fault.
fn rewritten(kind: Kind, reach: Reach, asked: &Asked<'_>, answer: &mut Answer) {
    let mut reader = reader_of(&asked.bytes, 0, asked.len);
    match read_one(&mut reader, kind, 8, PREDICTOR, reach) {
        Err(fault) => answer.say(&fault),
        Ok(mb) => {
            answer.say(&head_of(&mb));
            put_mb(kind, 8, PREDICTOR, &mb, answer)
        }
    }
}

// Reads the 48 macroblocks of a P picture of 128 x 96 at quantiser 12, and writes each again.
// Answers how many bits are left.
fn picture_rewritten(reader: &mut BitReader<'_>, answer: &mut Answer) -> Result<u32, Fault> {
    let mut vectors = [Vector::ZERO; 48];
    for at in 0..48u32 {
        let predicted = predictor(&vectors, 0, at, 8);
        let reach = reach(Format::SubQcif, at);
        match read_one(reader, Kind::P, 12, predicted, reach) {
            Err(fault) => return Err(fault),
            Ok(mb) => {
                put_mb(Kind::P, 12, predicted, &mb, answer);
                vectors[at as usize] = head_of(&mb).1;
            }
        }
    }
    Ok(reader.rest())
}

// The predictor in four columns, where macroblock k has the vector (k + 1, -2 (k + 1)).
fn predicted(first: u32, mb: u32) -> Vector {
    let vectors = [
        Vector { x: 1, y: -2 },
        Vector { x: 2, y: -4 },
        Vector { x: 3, y: -6 },
        Vector { x: 4, y: -8 },
        Vector { x: 5, y: -10 },
        Vector { x: 6, y: -12 },
        Vector { x: 7, y: -14 },
        Vector { x: 8, y: -16 },
    ];
    if first <= mb && mb <= 8 {
        return predictor(&vectors, first, mb, 4);
    }
    Vector::ZERO
}

/// Answers a row of `macroblock_layer.rows`: does the call of this name by the words after it.
pub fn answer(call: &str, asked: &mut Asked<'_>, answer: &mut Answer) {
    let near = Reach { left: 0, ..FAR };
    match call {
        "p" => rewritten(Kind::P, FAR, asked, answer),
        "p_near" => rewritten(Kind::P, near, asked, answer),
        "i" => rewritten(Kind::I, FAR, asked, answer),
        "picture" => {
            answer.put(&asked.bytes, 5);
            let mut reader = reader_of(&asked.bytes, 5, asked.len);
            let left = picture_rewritten(&mut reader, answer);
            answer.say(&left);
        }
        "predictor" => {
            let first = asked.number(8);
            let mb = asked.number(8);
            answer.say(&predicted(first, mb));
        }
        _ => answer.why = WRONG,
    }
}
