//! The header of RTP packets that carry H.263 (RFC 3550, 5.1): reading with the first fault, and
//! writing.
//!
//! [`read`] answers an [`Rtp`], with the bytes between which the payload lies; [`write`] gives the
//! twelve bytes of a header.
//!
//! ```rust
//! let want = Rtp { marker: true, sequence: 0, timestamp: 0, from: 12, to: 20 };
//! assert_eq!(rt; read(&PACKET), Ok(want));
//! assert_eq!(rt; &write(true, 0, 0)[..], &PACKET[..12]);
//! ```
#![tactic(auto)]

ghost use Rattle.std.specs.Prelude.{◌≡◌, ℕ, ◌+◌, ◌≤◌, ◌++◌, List, length, IfOk, IfSome, Ok};
ghost use Rattle.h263_bits.specs.Bits.{bits_of, fields};
ghost use Rattle.h263_bits.specs.Reading.{Bits, first_fault};
ghost use Rattle.h263_bits.specs.Syntax.{reading};
ghost use Rattle.rtp_header.specs.Text.{Head, from_byte, head, after_fixed, IsRtp};
ghost use Rattle.rtp_header.specs.Faults.{end_of, payload_end_of, accepted_of, rtp_in, rtp_fault};
ghost use Rattle.rtp_header.specs.Written.{rtp_fields, written_rtp, IsPayloadWithin};

pub mod laws;
mod rtp;

use byteorder::{BigEndian, ByteOrder};
use h263_bits::{Fault, FaultKind};
pub use rtp::Rtp;

// The synchronization source of every packet, the letters H263 (SSRC, RFC 3550, 5.1).
const SOURCE: u32 = 0x4832_3633;

// The payload type of every packet (PT, 5.1), of those that a session gives out.
const PAYLOAD_TYPE: u8 = 96;

// The byte after the sources and the extension, or none where these pass the end.
fn header_end(bytes: &[u8]) -> Option<u32>
    requires fixed { 12 ≤ length bytes.now }
    requires short { length bytes.now ≤ 65535 }
    ensures end { (h : Head) (b : Bits) → reading head (from_byte 0 bytes.now) ≡ Ok (h, b)
        → result ≡ end_of (reading (after_fixed h) b) }
    ensures within { IfSome result (λ end. end ≤ length bytes.now) }
{
    let sources_end = 12 + 4 * (bytes[0] % 16) as usize;
    if bytes.len() < sources_end {
        return None;
    }
    if bytes[0] / 16 % 2 == 0 {
        return Some(sources_end as u32);
    }
    if bytes.len() < sources_end + 4 {
        return None;
    }
    let words = BigEndian::read_u16(&bytes[sources_end + 2..]) as usize;
    let end = sources_end + 4 + 4 * words;
    if bytes.len() < end {
        return None;
    }
    Some(end as u32)
}

// The byte after the payload, or none where the count of the padding does not fit.
fn payload_end(bytes: &[u8], from: u32) -> Option<u32>
    requires fixed { 12 ≤ length bytes.now }
    requires short { length bytes.now ≤ 65535 }
    requires within { from ≤ length bytes.now }
    ensures { (h : Head) (b : Bits) → reading head (from_byte 0 bytes.now) ≡ Ok (h, b)
        → result ≡ payload_end_of h bytes.now from }
{
    let len = bytes.len() as u32;
    if bytes[0] / 32 % 2 == 0 {
        return Some(len);
    }
    let count = bytes[bytes.len() - 1] as u32;
    if count == 0 || len - from < count {
        return None;
    }
    Some(len - count)
}

// The header, where payload type and source are ours.
fn accepted(bytes: &[u8], from: u32, to: u32) -> Result<Rtp, Fault>
    requires { 12 ≤ length bytes.now }
    ensures { (h : Head) (b : Bits) → reading head (from_byte 0 bytes.now) ≡ Ok (h, b)
        → result ≡ accepted_of h from to }
{
    if bytes[1] % 128 != PAYLOAD_TYPE {
        return Err(FaultKind::PayloadType.at(9));
    }
    if BigEndian::read_u32(&bytes[8..]) != SOURCE {
        return Err(FaultKind::Source.at(64));
    }
    Ok(Rtp {
        marker: bytes[1] / 128 == 1,
        sequence: BigEndian::read_u16(&bytes[2..]),
        timestamp: BigEndian::read_u32(&bytes[4..]),
        from,
        to,
    })
}

/// Reads the header of an RTP packet, and finds its payload (RFC 3550, 5.1, 5.3.1).
pub fn read(bytes: &[u8]) -> Result<Rtp, Fault>
    // What is read is spelled by the bytes.
    ensures found { IfOk result (λ r. IsRtp r bytes.now) }
    // What the bytes spell is read.
    ensures only { (r : Rtp) → IsRtp r bytes.now → result ≡ Ok r }
    // Otherwise it is the first fault, at its place.
    ensures fault { first_fault result ≡ rtp_fault bytes.now }
    ensures exact { result ≡ rtp_in bytes.now }
    ensures range { IfOk result (λ r. IsPayloadWithin r bytes.now) }
{
    if bytes.len() > 65_535 {
        return Err(FaultKind::Long.at(0));
    }
    let short = FaultKind::Short.at(8 * bytes.len() as u32);
    if bytes.len() < 12 {
        return Err(short);
    }
    if bytes[0] / 64 != 2 {
        return Err(FaultKind::Version.at(0));
    }
    let Some(from) = header_end(bytes) else {
        return Err(short);
    };
    let Some(to) = payload_end(bytes, from) else {
        return Err(FaultKind::Padding.at(8 * bytes.len() as u32 - 8));
    };
    accepted(bytes, from, to)
}

/// The header of a packet without sources, extension and padding.
pub fn write(marker: bool, sequence: u16, timestamp: u32) -> [u8; 12]
    ensures text { bits_of result ≡ fields (rtp_fields marker sequence timestamp) }
    // It is read again, whatever payload follows.
    ensures again { (payload : List ℕ) → length payload ≤ 65523
        → rtp_in (result ++ payload) ≡ Ok (written_rtp marker sequence timestamp (length payload)) }
{
    let mut bytes = [0; 12];
    bytes[0] = 0x80;
    bytes[1] = if marker {
        128 + PAYLOAD_TYPE
    } else {
        PAYLOAD_TYPE
    };
    BigEndian::write_u16(&mut bytes[2..], sequence);
    BigEndian::write_u32(&mut bytes[4..], timestamp);
    BigEndian::write_u32(&mut bytes[8..], SOURCE);
    bytes
}
