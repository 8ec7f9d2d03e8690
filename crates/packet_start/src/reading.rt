//! Reads the start of a packet.
ghost use Rattle.std.specs.Prelude.{◌≡◌, ◌↔◌, ◌*◌, ◌≤◌, length, IfOk, IfSome, Ok, Some};
ghost use Rattle.h263_bits.specs.Reading.{bits_between};
ghost use Rattle.picture_header.specs.declared.header.Header.{Header};
ghost use Rattle.picture_header.specs.Ranges.{IsHeader};
ghost use Rattle.h263_payload.specs.Ranges.{IsExtraHeader};
ghost use Rattle.packet_collector.specs.Packet.{headed_at};
ghost use Rattle.packet_start.specs.Start.{header_alone, start_at, start_in};

use crate::laws;
use h263_bits::{BitReader, Fault};
use h263_payload::{Payload, read_payload};
use h263_types::Format;
use picture_header::{Header, read_header};

// The header that stands at the data's first bit, unless there is an extra one.
fn read_after(bytes: &[u8], end: u32, payload: &Payload, format: Format) -> Result<Header, Fault>
    requires short { length bytes.now ≤ 65535 }
    requires order { payload.now.from ≤ end }
    requires within { end ≤ 8 * length bytes.now }
    requires extra { IsExtraHeader payload.now.extra }
    ensures exact { result ≡ header_alone (headed_at format payload.now.extra
        (bits_between bytes.now payload.now.from end)) }
    ensures range { IfOk result IsHeader }
{
    match payload.extra {
        Some(header) => Ok(header),
        None => read_header(&mut BitReader::new(bytes, payload.from, end), format),
    }
}

/// Reads the header of the picture that a packet belongs to, in the expected format: the one in
/// front of its slice, or the extra one of a later slice (RFC 4629, 5.1). What follows the header is
/// not looked at.
#[tactic(auto, unfolding(crate::specs::Start::start_at))]
pub fn read_start(bytes: &[u8], format: Format) -> Result<Header, Fault>
    // The header, or the first fault up to its end, at its place.
    ensures exact { result ≡ start_at format bytes.now }
    ensures format { IfOk result (λ h. h.format ≡ format) }
    ensures range { IfOk result IsHeader }
{
    laws::start_is_of_format();
    let rtp = rtp_header::read(bytes)?;
    let payload = read_payload(bytes, &rtp, format)?;
    read_after(bytes, 8 * rtp.to, &payload, format)
}

/// The header of the picture that a packet belongs to, in whichever format that is: there is at
/// most one in which it reads.
#[tactic(auto, unfolding(crate::specs::Start::start_in))]
pub fn find_start(bytes: &[u8]) -> Option<Header>
    ensures exact { result ≡ start_in bytes.now }
    ensures found { (h : Header) → (result ≡ Some h) ↔ (start_at h.format bytes.now ≡ Ok h) }
    ensures range { IfSome result IsHeader }
{
    laws::one_format();
    if let Ok(header) = read_start(bytes, Format::SubQcif) {
        return Some(header);
    }
    if let Ok(header) = read_start(bytes, Format::Qcif) {
        return Some(header);
    }
    read_start(bytes, Format::Cif).ok()
}
