//! The payload header read, part by part, with its first fault (RFC 4629, 5.1).
ghost use Rattle.std.specs.Prelude.{◌≡◌, ℕ, ◌+◌, ◌*◌, ◌≤◌, ◌<◌, length, IfOk, Ok};
ghost use Rattle.h263_bits.specs.Reading.{Gives, bits_between, first_fault};
ghost use Rattle.h263_bits.specs.Syntax.{any, only, field_at, reading};
ghost use Rattle.rtp_header.specs.Faults.{rtp_in};
ghost use Rattle.h263_payload.specs.Text.{may_follow, payload_opening, leading, IsPayload};
ghost use Rattle.h263_payload.specs.Faults.{extra_at, begun_at, payload_at, payload_bits_of, payload_fault};
ghost use Rattle.h263_payload.specs.Ranges.{IsPayloadOpening, IsExtraHeader, IsAfterHeader};
ghost use Rattle.h263_payload.specs.declared.payload.Opening.{Opening};
ghost use Rattle.h263_payload.specs.declared.payload.Payload.{Payload};

use crate::payload::{Opening, Payload};
use h263_bits::{BitReader, Fault, FaultKind};
use h263_types::Format;
use picture_header::{Header, laws as picture_header_laws, read_header};
use rtp_header::{Rtp, laws as rtp_header_laws};

// Reads P, which is 0 only where a packet may follow on another.
fn read_p(reader: &mut BitReader<'_>, follow_on: bool) -> Result<u32, Fault>
    ensures { Gives
        (λ (v : ℕ). v) result reader.new (field_at 1 (may_follow follow_on) reader.old) }
{
    if !follow_on {
        reader.fixed(1, 1, FaultKind::FollowOn)?;
        return Ok(1);
    }
    reader.bits(1)
}

/// Reads RR, P, V, PLEN and PEBIT, in which a packet that follows on another is read or refused.
#[tactic(auto, unfolding(crate::specs::Text::payload_opening, h263_bits::specs::Syntax::reading))]
pub fn read_opening(reader: &mut BitReader<'_>, follow_on: bool) -> Result<Opening, Fault>
    ensures reads { Gives
        (λ (o : Opening). o) result reader.new (reading (payload_opening follow_on) reader.old) }
    ensures range { IfOk result IsPayloadOpening }
{
    reader.bits(5)?;
    let p = read_p(reader, follow_on)?;
    let v = reader.bits(1)?;
    let plen = reader.bits(6)?;
    let pebit = reader.bits(3)?;
    Ok(Opening {
        p: p == 1,
        v: v == 1,
        plen,
        pebit,
    })
}

// Reads these, and the byte after a V of 1.
#[tactic(auto, unfolding(crate::specs::Text::leading, h263_bits::specs::Syntax::reading))]
fn read_leading(reader: &mut BitReader<'_>) -> Result<Opening, Fault>
    ensures reads { Gives (λ (o : Opening). o) result reader.new (reading leading reader.old) }
    ensures range { IfOk result IsPayloadOpening }
{
    let opening = read_opening(reader, false)?;
    if opening.v {
        reader.bits(8)?;
    }
    Ok(opening)
}

// Reads the extra header from place `at` on, if there is one. It fills its bytes but for the bits
// left out.
fn read_extra(
    bytes: &[u8],
    at: u32,
    end: u32,
    opening: Opening,
    format: Format,
) -> Result<Option<Header>, Fault>
    requires short { length bytes.now ≤ 65535 }
    requires order { at ≤ end }
    requires within { end ≤ 8 * length bytes.now }
    requires opening { IsPayloadOpening opening }
    ensures exact { result
        ≡ extra_at format opening.plen opening.pebit (bits_between bytes.now at end) }
    ensures room { IfOk result (λ _. at + 8 * opening.plen ≤ end) }
    ensures range { IfOk result IsExtraHeader }
{
    let plen = opening.plen;
    if plen == 0 {
        return Ok(None);
    }
    if end - at < 8 * plen {
        return Err(FaultKind::Ended.at(at));
    }
    let mut reader = BitReader::new(bytes, at, at + (8 * plen - opening.pebit));
    let header = read_header(&mut reader, format)?;
    if reader.rest() > 0 {
        return Err(FaultKind::ExtraHeader.at(reader.at()));
    }
    Ok(Some(header))
}

// Looks at the data's first two bits.
fn read_start(bytes: &[u8], at: u32, end: u32, extra: Option<Header>) -> Result<Payload, Fault>
    requires short { length bytes.now ≤ 65535 }
    requires order { at ≤ end }
    requires within { end ≤ 8 * length bytes.now }
    ensures exact { result ≡ begun_at extra (bits_between bytes.now at end) }
    ensures extra { IfOk result (λ p. p.extra ≡ extra) }
{
    let start = BitReader::new(bytes, at, end).bits(2)?;
    if start < 2 {
        return Err(FaultKind::NoStart.at(at));
    }
    let begins = start == 2;
    if begins != extra.is_none() {
        if begins {
            return Err(FaultKind::ExtraHeader.at(at));
        }
        return Err(FaultKind::NoExtraHeader.at(at));
    }
    Ok(Payload {
        extra,
        begins,
        from: at,
    })
}

/// Reads the payload header of a packet and the extra picture header, up to the first bit of the
/// data (RFC 4629, 5.1).
pub fn read_payload(bytes: &[u8], rtp: &Rtp, format: Format) -> Result<Payload, Fault>
    // The header was read from the bytes.
    requires { rtp_in bytes.now ≡ Ok rtp.now }
    // What is read is spelled by the payload's bits.
    ensures found { IfOk result (λ p. IsPayload format p (payload_bits_of bytes.now rtp.now)) }
    // What these spell is read.
    ensures only { (p : Payload)
        → IsPayload format p (payload_bits_of bytes.now rtp.now) → result ≡ Ok p }
    // Otherwise it is the first fault, at its place.
    ensures fault { first_fault result ≡ payload_fault format (payload_bits_of bytes.now rtp.now) }
    ensures exact { result ≡ payload_at format (payload_bits_of bytes.now rtp.now) }
    ensures range { IfOk result (λ p. IsAfterHeader p rtp.now) }
{
    rtp_header_laws::payload_within();
    picture_header_laws::in_a_syntax();
    let end = 8 * rtp.to;
    let mut reader = BitReader::new(bytes, 8 * rtp.from, end);
    let opening = read_leading(&mut reader)?;
    let at = reader.at();
    let extra = read_extra(bytes, at, end, opening, format)?;
    read_start(bytes, at + 8 * opening.plen, end, extra)
}
