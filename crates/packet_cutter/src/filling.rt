//! Fills a slice, and writes one packet.
ghost use Rattle.std.specs.Prelude.{◌≡◌, ℕ, ◌+◌, ◌*◌, ◌/◌, ◌%◌, ◌^◌, ◌<◌, ◌≤◌, ◌==◌, ◌++◌, [], List, Bool, length, take, drop, All};
ghost use Rattle.h263_types.specs.Sizes.{mbs_of};
ghost use Rattle.h263_bits.specs.Bits.{bits_of, fields};
ghost use Rattle.h263_bits.specs.Written.{Appends, len_of, room_of};
ghost use Rattle.picture_header.specs.declared.header.Header.{Header};
ghost use Rattle.picture_header.specs.Ranges.{IsHeader};
ghost use Rattle.rtp_header.specs.Written.{rtp_fields};
ghost use Rattle.h263_payload.specs.Written.{written_payload, payload_bits};
ghost use Rattle.slice_layer.specs.Written.{slice_text, padded, bytes_filled_by};
ghost use Rattle.slice_layer.specs.Writer.{slice_kind, slice_format, first_mb_of, next_mb_of, quant_of, bytes_lent, writer_loan, HoldsSlice};
ghost use Rattle.packet_cutter.specs.Cut.{begins_at, extra_of, front_bytes};
ghost use Rattle.packet_cutter.specs.Packets.{timestamp_of, BeginsWith};
ghost use Rattle.packet_cutter.specs.Taken.{IsTaken, unmarked};

use h263_bits::BitWriter;
use h263_payload::write_payload;
use h263_types::MarkedMb;
use picture_header::{Header, header_bits, laws as picture_header_laws};
use slice_layer::{Added, MbRoom, SliceWriter};

/// How many macroblocks were written, and in how many bytes.
#[derive(Clone, Copy)]
pub struct Part {
    pub count: u32,
    pub size: u32,
}

// Adds macroblocks up to the first one with which the slice would not fit. Answers how many it
// added.
fn fill(writer: &mut SliceWriter<'_>, mbs: &[MarkedMb]) -> u32
    requires each { All (IsTaken (slice_kind writer.old) (quant_of writer.old)) mbs.now }
    requires left { next_mb_of writer.old + length mbs.now ≤ mbs_of (slice_format writer.old) }
    ensures count { result ≤ length mbs.now }
    ensures holds { (h : Header) (begins : Bool) (first : ℕ) → HoldsSlice writer.old h begins first []
        → HoldsSlice writer.new h begins first (unmarked (take result mbs.now)) }
    ensures full { (h : Header) (begins : Bool) (first : ℕ) → HoldsSlice writer.old h begins first []
        → result < length mbs.now → length (bytes_lent writer.old)
        < bytes_filled_by (slice_text h begins first (unmarked (take (result + 1) mbs.now))) }
    ensures some { (h : Header) (begins : Bool) (first : ℕ)
        → IsHeader h → 1150 ≤ length (bytes_lent writer.old)
        → HoldsSlice writer.old h begins first [] → 0 < length mbs.now → 0 < result }
    ensures from { first_mb_of writer.new ≡ first_mb_of writer.old }
    ensures next { next_mb_of writer.new ≡ next_mb_of writer.old + result }
    ensures loan { writer_loan writer.new ≡ writer_loan writer.old }
    ensures room { length (bytes_lent writer.new) ≡ length (bytes_lent writer.old) }
{
    let mut apart = MbRoom::new();
    let mut count = 0;
    'each: for mb in mbs {
        if writer.add_marked(mb, &mut apart) == Added::Full {
            return count;
        }
        count += 1;
    }
    count
}

// Writes the longest slice that fits, from macroblock `first` on.
fn write_slice(bytes: &mut [u8], header: &Header, first: u32, mbs: &[MarkedMb]) -> Part
    requires room { 1150 ≤ length bytes.old }
    requires short { length bytes.old ≤ 9000 }
    requires header { IsHeader header.now }
    requires some { 0 < length mbs.now }
    requires left { first + length mbs.now ≡ mbs_of header.now.format }
    requires each { All (IsTaken header.now.kind header.now.quant) mbs.now }
    ensures some { 0 < result.count }
    ensures few { result.count ≤ length mbs.now }
    ensures size { result.size ≡ bytes_filled_by (slice_text header.now (begins_at first) first
        (unmarked (take result.count mbs.now))) }
    ensures text { bits_of (take result.size bytes.new) ≡ padded (slice_text header.now
        (begins_at first) first (unmarked (take result.count mbs.now))) }
    ensures fits { result.size ≤ length bytes.old }
    ensures longest { result.count < length mbs.now
        → length bytes.old < bytes_filled_by (slice_text header.now (begins_at first) first
        (unmarked (take (result.count + 1) mbs.now))) }
{
    let mut writer = SliceWriter::start(bytes, header, first == 0, first);
    let count = fill(&mut writer, mbs);
    let size = writer.finish();
    Part { count, size }
}

// How many bytes stand in front of a slice.
fn front_bytes(header: &Header, first: u32) -> u32
    requires { IsHeader header.now }
    ensures bytes { result ≡ front_bytes header.now first }
    ensures few { result ≤ 46 }
{
    picture_header_laws::longest_text();
    if first == 0 {
        return 14;
    }
    14 + (header_bits(header) + 7) / 8
}

fn write_rtp(bytes: &mut [u8], marker: bool, sequence: u16, timestamp: u32)
    requires { length bytes.old ≡ 12 }
    ensures { bits_of bytes.new ≡ fields (rtp_fields marker sequence timestamp) }
{
    bytes.copy_from_slice(&rtp_header::write(marker, sequence, timestamp));
}

// Appends the payload's header, with the picture header where the slice does not begin the picture.
fn append_payload_header(writer: &mut BitWriter<'_>, header: &Header, begins: bool)
    requires header { IsHeader header.now }
    requires room { len_of writer.old + payload_bits (extra_of header.now begins)
        ≤ room_of writer.old }
    ensures bits { Appends writer.old writer.new (written_payload (extra_of header.now begins)) }
    ensures len { len_of writer.new
        ≡ len_of writer.old + payload_bits (extra_of header.now begins) }
{
    if begins {
        write_payload(writer, None);
    } else {
        write_payload(writer, Some(header));
    }
}

fn write_payload_header(bytes: &mut [u8], header: &Header, begins: bool)
    requires header { IsHeader header.now }
    requires room { 8 * length bytes.old ≡ payload_bits (extra_of header.now begins) }
    requires short { length bytes.old ≤ 65535 }
    ensures { bits_of bytes.new ≡ written_payload (extra_of header.now begins) }
{
    let mut writer = BitWriter::new(bytes);
    append_payload_header(&mut writer, header, begins);
}

// Picture `number` on the clock of 90 kHz.
fn timestamp(number: u32) -> u32
    ensures { result ≡ timestamp_of number }
{
    number.wrapping_mul(3003)
}

// Writes what stands in front of a slice.
fn write_front(
    bytes: &mut [u8],
    header: &Header,
    begins: bool,
    number: u32,
    sequence: u16,
    marker: bool,
)
    requires header { IsHeader header.now }
    requires room { 8 * length bytes.old ≡ 96 + payload_bits (extra_of header.now begins) }
    requires short { length bytes.old ≤ 65535 }
    ensures { bits_of bytes.new ≡ fields (rtp_fields marker sequence (timestamp_of number))
        ++ written_payload (extra_of header.now begins) }
{
    let (rtp, payload) = bytes.split_at_mut(12);
    write_rtp(rtp, marker, sequence, timestamp(number));
    write_payload_header(payload, header, begins);
}

/// Writes the packet with the longest slice that fits, from macroblock `first` on: `mbs` are those
/// that are left of the picture, and the marker is set where the packet has all of them.
pub fn write_packet(
    bytes: &mut [u8],
    header: &Header,
    first: u32,
    mbs: &[MarkedMb],
    number: u32,
    sequence: u16,
) -> Part
    requires room { 1200 ≤ length bytes.old }
    requires short { length bytes.old ≤ 9000 }
    requires header { IsHeader header.now }
    requires some { 0 < length mbs.now }
    requires left { first + length mbs.now ≡ mbs_of header.now.format }
    requires each { All (IsTaken header.now.kind header.now.quant) mbs.now }
    ensures packet { BeginsWith number sequence header.now
        (length bytes.old) first (unmarked mbs.now) result.count result.size bytes.new }
    ensures within { result.size ≤ length bytes.old }
{
    let at = front_bytes(header, first) as usize;
    let (front, coded) = bytes.split_at_mut(at);
    let slice = write_slice(coded, header, first, mbs);
    let marker = slice.count as usize == mbs.len();
    write_front(front, header, first == 0, number, sequence, marker);
    Part {
        count: slice.count,
        size: at as u32 + slice.size,
    }
}
