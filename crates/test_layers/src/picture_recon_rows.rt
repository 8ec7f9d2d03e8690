//! Samples of macroblocks that are decoded.
ghost use Rattle.std.specs.Prelude.{◌≡◌, ◌<◌, ◌≤◌};
ghost use Rattle.h263_types.specs.Blocks.{IsInterBlock, IsLevel, IsMb, IsOfKind};
ghost use Rattle.h263_types.specs.Vectors.{InReach};
ghost use Rattle.h263_types.specs.References.{ReachesInside};

use crate::pictures::picture;
use crate::samples::{say_sample, vector};
use h263_planes::{PictureMut, PictureRef, Plane};
use h263_types::{Block, Format, Kind, Mb, SliceHead, Vector};
use picture_header::Header;
use picture_recon::{recon_mb, recon_slice};
use test_fixtures::answer::{Answer, Asked, WRONG};
use test_fixtures::codec::{INTRA, SIZE, intra_block, is_in_reach};

// The header of an I picture.
const HEADER: Header = Header { quant: 31, ..INTRA };

// Six different blocks.
fn macroblock() -> Mb
    ensures in_range { IsMb result }
    ensures of_kind { IsOfKind Kind.I result }
{
    let blocks = [
        intra_block(50, 0, 20),
        intra_block(60, 1, 20),
        intra_block(70, 0, 0),
        intra_block(80, 3, -7),
        intra_block(90, 0, 0),
        intra_block(254, 0, 127),
    ];
    Mb::Intra { quant: 8, blocks }
}

// Those blocks in macroblock 9 of a picture of 128.
fn intra() -> [u8; SIZE] {
    let mut bytes = [128; SIZE];
    let mut out = PictureMut::new(Format::SubQcif, &mut bytes);
    recon_mb(&macroblock(), 9, &HEADER, None, &mut out);
    bytes
}

// The same in macroblocks 7 and 8, which are a slice.
fn slice() -> [u8; SIZE] {
    let mut bytes = [128; SIZE];
    let mut out = PictureMut::new(Format::SubQcif, &mut bytes);
    let mbs = [macroblock(); 48];
    let head = SliceHead { first: 7, count: 2 };
    recon_slice(&mbs, head, &HEADER, None, &mut out);
    bytes
}

// The header of a P picture.
fn p_header(rounding: u8) -> Header
    requires { rounding ≤ 1 }
    ensures kind { result.kind ≡ Kind.P }
    ensures format { result.format ≡ Format.SubQcif }
    ensures rounding { result.rounding ≤ 1 }
{
    Header {
        kind: Kind::P,
        rounding,
        trp: Some(7),
        ..HEADER
    }
}

// The sum of a picture's samples.
fn sum(bytes: &[u8; SIZE]) -> u32 {
    let mut sum: u32 = 0;
    for byte in bytes {
        sum = sum.wrapping_add(u32::from(*byte));
    }
    sum
}

// A block with a level at place 0 and one level more.
fn residual(first: i16, place: usize, level: i16) -> Block
    requires first { IsLevel first }
    requires place { place < 63 }
    requires level { IsLevel level }
    ensures { IsInterBlock result }
{
    let mut levels = [0; 64];
    levels[place + 1] = level;
    levels[0] = first;
    Block { levels }
}

// Six different blocks and a vector.
fn predicted(vector: Vector) -> Mb
    requires { InReach Format.SubQcif 9 vector.x vector.y }
    ensures in_range { IsMb result }
    ensures reach { ReachesInside Format.SubQcif 9 result }
{
    let blocks = [
        residual(0, 0, 0),
        residual(20, 0, 0),
        residual(-40, 0, 0),
        residual(3, 4, -9),
        residual(0, 0, 15),
        residual(60, 7, 5),
    ];
    Mb::Inter {
        quant: 8,
        vector,
        blocks,
    }
}

// Places in macroblock 9, two in each of its blocks of Y, and two of each colour.
const PLACES: [(Plane, u32, u32); 12] = [
    (Plane::Y, 16, 16),
    (Plane::Y, 23, 20),
    (Plane::Y, 24, 16),
    (Plane::Y, 31, 23),
    (Plane::Y, 16, 24),
    (Plane::Y, 20, 31),
    (Plane::Y, 24, 24),
    (Plane::Y, 29, 30),
    (Plane::Cb, 8, 8),
    (Plane::Cb, 13, 15),
    (Plane::Cr, 8, 8),
    (Plane::Cr, 15, 11),
];

// Those blocks in macroblock 9, by a vector from a reference, in a picture of 128.
fn inter(lent: &[u8; SIZE], vector: Vector, rounding: u8) -> [u8; SIZE]
    requires reach { InReach Format.SubQcif 9 vector.x vector.y }
    requires rounding { rounding ≤ 1 }
{
    let mut bytes = [128; SIZE];
    let mut out = PictureMut::new(Format::SubQcif, &mut bytes);
    let reference = PictureRef::new(Format::SubQcif, lent);
    let header = p_header(rounding);
    recon_mb(&predicted(vector), 9, &header, Some(reference), &mut out);
    bytes
}

// Macroblock 9 as the reference has it.
fn skipped(lent: &[u8; SIZE]) -> [u8; SIZE] {
    let mut bytes = [128; SIZE];
    let mut out = PictureMut::new(Format::SubQcif, &mut bytes);
    let reference = PictureRef::new(Format::SubQcif, lent);
    let head = SliceHead { first: 9, count: 1 };
    recon_slice(
        &[Mb::Skip; 48],
        head,
        &p_header(0),
        Some(reference),
        &mut out,
    );
    bytes
}

// Says the samples at the twelve places, and how much more the sum is than that of the samples beside
// the macroblock, which are 128.
fn say_predicted(asked: &mut Asked<'_>, answer: &mut Answer) {
    let lent = picture(asked);
    let vector = vector(asked);
    let rounding = asked.number(1) as u8;
    if !is_in_reach(Format::SubQcif, 9, vector) {
        answer.why = WRONG;
        return;
    }
    let bytes = inter(&lent, vector, rounding);
    let seen = PictureRef::new(Format::SubQcif, &bytes);
    let mut samples = [0; 12];
    for k in 0..12 {
        let (plane, x, y) = PLACES[k];
        if x >= 48 || y >= 48 {
            answer.why = WRONG;
            return;
        }
        samples[k] = seen.sample(plane, x, y);
    }
    answer.say(&samples.as_slice());
    answer.say(&sum(&bytes).wrapping_sub(128 * (18_432 - 384)));
}

/// Answers a row of `picture_recon.rows`: does the call of this name by the words after it.
pub fn answer(call: &str, asked: &mut Asked<'_>, answer: &mut Answer) {
    match call {
        "intra" => say_sample(answer, &intra(), asked),
        "slice" => say_sample(answer, &slice(), asked),
        "predicted" => say_predicted(asked, answer),
        "skipped" => {
            let lent = picture(asked);
            say_sample(answer, &skipped(&lent), asked)
        }
        "skipped_sum" => {
            let lent = picture(asked);
            answer.say(&sum(&skipped(&lent)).wrapping_sub(128 * (18_432 - 384)));
        }
        _ => answer.why = WRONG,
    }
}
