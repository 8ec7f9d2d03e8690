//! Pictures coded, each but the first one predicted from the one before it.
ghost use Rattle.std.specs.Prelude.{◌≡◌, ◌<◌};
ghost use Rattle.std.specs.Option.{option_map};
ghost use Rattle.h263_types.specs.Params.{IsParams};
ghost use Rattle.h263_types.specs.declared.format.Format.TheVariants.{SubQcif};
ghost use Rattle.h263_planes.specs.Lent.{picture};
ghost use Rattle.h263_planes.specs.References.{HasReferenceOnlyInP};
ghost use Rattle.picture_header.specs.Ranges.{IsHeader};
ghost use Rattle.packet_cutter.specs.Cutting.{cut_format, limit_of};

use crate::pictures::picture as next_picture;
use h263_planes::{PictureMut, PictureRef};
use h263_types::Params;
use packet_cutter::Cutter;
use picture_coder::code_picture;
use picture_header::Header;
use std::alloc::Global;
use test_fixtures::answer::{Answer, Asked, NO_MEMORY, WRONG};
use test_fixtures::codec::{INTER, INTRA, PARAMS, SIZE};

// Picture 2, which refers to picture 1.
const THIRD: Header = Header {
    tr: 2,
    rounding: 0,
    trp: Some(1),
    ..INTER
};

const FINE: Params = Params {
    quant: 2,
    limit: 1200,
    ..PARAMS
};

const COARSE: Params = Params {
    quant: 9,
    keep: 20,
    radius: 4,
    ..PARAMS
};

// The two sums of Adler-32 (RFC 1950).
fn sums(bytes: &[u8]) -> (u32, u32) {
    let mut a: u32 = 1;
    let mut b: u32 = 0;
    for byte in bytes {
        a = a.wrapping_add(u32::from(*byte)) % 65_521;
        b = b.wrapping_add(a) % 65_521;
    }
    (a, b)
}

// Says the bytes of a packet.
fn say_bytes(packet: &[u8], answer: &mut Answer) {
    for line in packet.chunks(40) {
        answer.say_bytes(line);
    }
}

// Says how many packets there are, each by its bytes or by its length and its sums; and the decoded
// picture, by its only sample or by its sums.
fn say_coded(cutter: &Cutter, shown: &[u8; SIZE], bytes: bool, answer: &mut Answer) {
    answer.say(&cutter.count());
    for i in 0..cutter.count() {
        let packet = cutter.packet(i);
        if bytes {
            say_bytes(packet, answer);
        } else {
            answer.say(&(packet.len(), sums(packet)));
        }
    }
    if bytes && *shown == [shown[0]; SIZE] {
        answer.add(" flat");
        answer.say(&shown[0]);
        return;
    }
    answer.say(&sums(shown));
}

// Codes a picture.
fn code(
    frame: &[u8; SIZE],
    header: &Header,
    before: Option<PictureRef<'_>>,
    params: &Params,
    cutter: &mut Cutter,
    out: &mut [u8; SIZE],
)
    requires number { header.now.tr < 3 }
    requires header { IsHeader header.now }
    requires params { IsParams params.now }
    requires format { params.now.format ≡ SubQcif }
    requires header_format { header.now.format ≡ params.now.format }
    requires before { HasReferenceOnlyInP header.now.kind params.now.format
        (option_map picture before) }
    requires cutter_format { cut_format cutter.old ≡ params.now.format }
    requires limit { limit_of cutter.old ≡ params.now.limit }
    ensures cutter_format { cut_format cutter.new ≡ params.now.format }
    ensures limit { limit_of cutter.new ≡ params.now.limit }
{
    let number = u32::from(header.tr);
    let frame = PictureRef::new(params.format, frame);
    let mut work = PictureMut::new(params.format, out);
    code_picture(frame, before, number, header, params, cutter, &mut work);
}

// Codes two pictures or three, and says each.
fn coded(alloc: Global, params: &Params, bytes: bool, asked: &mut Asked<'_>, answer: &mut Answer)
    requires params { IsParams params.now }
    requires format { params.now.format ≡ SubQcif }
{
    let quant = params.quant;
    let third = asked.number(3) == 3;
    let Ok(mut cutter) = Cutter::start(alloc, params) else {
        answer.why = NO_MEMORY;
        return;
    };
    let [mut first, mut second, mut last] = [[0; SIZE]; 3];
    let header = Header { quant, ..INTRA };
    code(
        &next_picture(asked),
        &header,
        None,
        params,
        &mut cutter,
        &mut first,
    );
    say_coded(&cutter, &first, bytes, answer);
    let header = Header { quant, ..INTER };
    let before = Some(PictureRef::new(params.format, &first));
    code(
        &next_picture(asked),
        &header,
        before,
        params,
        &mut cutter,
        &mut second,
    );
    say_coded(&cutter, &second, bytes, answer);
    if third {
        let header = Header { quant, ..THIRD };
        let before = Some(PictureRef::new(params.format, &second));
        code(
            &next_picture(asked),
            &header,
            before,
            params,
            &mut cutter,
            &mut last,
        );
        say_coded(&cutter, &last, bytes, answer);
    }
}

/// Answers a row of `picture_coder.rows`: does the call of this name by the words after it.
pub fn answer(alloc: Global, call: &str, asked: &mut Asked<'_>, answer: &mut Answer) {
    match call {
        "bytes" => coded(alloc, &PARAMS, true, asked, answer),
        "fine" => coded(alloc, &FINE, false, asked, answer),
        "coarse" => coded(alloc, &COARSE, false, asked, answer),
        _ => answer.why = WRONG,
    }
}
