//! Reads a packet: its RTP header, its payload header, and the slice in it.
ghost use Rattle.std.specs.Prelude.{◌≡◌, ℕ, ◌*◌, ◌≤◌, List, length, IfOk, IsOkAnd};
ghost use Rattle.h263_bits.specs.Reading.{Gives, bits_between, first_fault};
ghost use Rattle.h263_types.specs.Sizes.{mbs_of};
ghost use Rattle.picture_header.specs.Ranges.{IsHeader};
ghost use Rattle.h263_payload.specs.Ranges.{IsExtraHeader, IsAfterHeader};
ghost use Rattle.slice_layer.specs.Filled.{AreOthersSame};
ghost use Rattle.packet_collector.specs.Packet.{PacketSlice, IsPacket, headed_at, slice_after, packet_at, packet_fault};
ghost use Rattle.packet_collector.specs.Filled.{IsExtraOf, FillsPacket, IsPieceIn, slice_in};

use crate::laws;
use crate::piece::Piece;
use h263_bits::{BitReader, Fault};
use h263_payload::{Payload, read_payload};
use h263_types::{Format, Mb};
use picture_header::{Header, read_header};
use rtp_header::Rtp;
use slice_layer::read_slice;

// The picture's header: the extra one, or without one that in front of the slice.
fn read_front(
    reader: &mut BitReader<'_>,
    format: Format,
    extra: Option<Header>,
) -> Result<Header, Fault>
    requires extra { IsExtraHeader extra }
    requires format { IsExtraOf format extra }
    ensures reads { Gives
        (λ (h : Header). h) result reader.new (headed_at format extra reader.old) }
    ensures range { IfOk result IsHeader }
    ensures format { IfOk result (λ h. h.format ≡ format) }
{
    match extra {
        Some(header) => Ok(header),
        None => read_header(reader, format),
    }
}

// The slice after the payload's header.
#[tactic(auto, unfolding(crate::specs::Packet::slice_after))]
fn read_after(
    bytes: &[u8],
    end: u32,
    payload: &Payload,
    format: Format,
    out: &mut [Mb],
) -> Result<Piece, Fault>
    requires short { length bytes.now ≤ 65535 }
    requires order { payload.now.from ≤ end }
    requires within { end ≤ 8 * length bytes.now }
    requires extra { IsExtraHeader payload.now.extra }
    requires format { IsExtraOf format payload.now.extra }
    requires picture { length out.old ≡ mbs_of format }
    ensures exact { FillsPacket result out.new
        (slice_after format payload.now (bits_between bytes.now payload.now.from end)) }
    ensures range { IfOk result (IsPieceIn format out.new) }
    ensures others { IfOk result (λ piece. AreOthersSame out.old out.new piece.head) }
    ensures size { length out.new ≡ length out.old }
{
    let mut reader = BitReader::new(bytes, payload.from, end);
    let header = read_front(&mut reader, format, payload.extra)?;
    let head = read_slice(&mut reader, &header, payload.begins, out)?;
    Ok(Piece { header, head })
}

/// Reads a packet whole: RTP's header, the payload's header, and a slice of a picture of the
/// expected format (RFC 4629, 5.1). `out` has all macroblocks of the picture, by number, and the
/// slice's are put into their places; after a fault it is left open.
#[tactic(auto, unfolding(crate::specs::Packet::packet_at))]
pub fn read_packet(bytes: &[u8], format: Format, out: &mut [Mb]) -> Result<Piece, Fault>
    requires picture { length out.old ≡ mbs_of format }
    // What is read is spelled by the bytes.
    ensures found { IfOk result (λ piece. IsPacket format (slice_in piece out.new) bytes.now) }
    // What they spell is read.
    ensures only { (s : PacketSlice) → IsPacket format s bytes.now →
        IsOkAnd result (λ piece. (piece.head.count ≡ length s.mbs) × (slice_in piece out.new ≡ s)) }
    // Otherwise it is the first fault, at its place.
    ensures fault { first_fault result ≡ packet_fault format bytes.now }
    ensures exact { FillsPacket result out.new (packet_at format bytes.now) }
    ensures range { IfOk result (IsPieceIn format out.new) }
    // The other macroblocks stay as they were.
    ensures others { IfOk result (λ piece. AreOthersSame out.old out.new piece.head) }
    ensures size { length out.new ≡ length out.old }
{
    laws::part_laws();
    let rtp = rtp_header::read(bytes)?;
    let payload = read_payload(bytes, &rtp, format)?;
    read_after(bytes, 8 * rtp.to, &payload, format, out)
}
