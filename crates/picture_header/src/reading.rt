//! The picture header read field by field, in the order of the standard (H.263, 5.1).
ghost use Rattle.std.specs.Prelude.{◌≡◌, ℕ, Option, IfOk, IfSome, IsOkAnd, IsSome, List, Bool, ◌++◌, ◌≤◌, ◌<◌, ◌^◌};
ghost use Rattle.h263_bits.specs.Reading.{Gives, Takes, first_fault};
ghost use Rattle.h263_bits.specs.Syntax.{any, only, field_at, reading, goes_on};
ghost use Rattle.h263_types.specs.Blocks.{IsQuant};
ghost use Rattle.h263_types.specs.Clocks.{period_of};
ghost use Rattle.back_messages.specs.Text.{IsMessage};
ghost use Rattle.back_messages.specs.declared.message.Message.{Message};
ghost use Rattle.picture_header.specs.Text.{clock_of, kind_numbered, allowed_divisor, opening, plus_type, multipoint, extended, reference, extra, extra_turn, bci, next_message, back, channel, allowed_quant, header, header_fault, IsHeaderText};
ghost use Rattle.picture_header.specs.Back.{ReadsBack};
ghost use Rattle.picture_header.specs.Ranges.{IsReference, IsBack, IsHeader};
ghost use Rattle.picture_header.specs.declared.header.Header.{Header};

use crate::header::Header;
use back_messages::{Message, laws as back_messages_laws, read_message};
use h263_bits::{BitReader, Fault, FaultKind};
use h263_types::{Clock, Format, Kind};

#[tactic(auto, unfolding(crate::specs::Text::opening, h263_bits::specs::Syntax::reading))]
fn read_opening(reader: &mut BitReader<'_>) -> Result<u16, Fault>
    ensures reads { Gives (λ (v : ℕ). v) result reader.new (reading opening reader.old) }
    ensures range { IfOk result (λ tr. tr ≤ 255) }
{
    reader.fixed(6, 0b100000, FaultKind::NoStart)?;
    let tr = reader.bits(8)?;
    reader.fixed(2, 0b10, FaultKind::PictureType)?;
    reader.bits(3)?;
    reader.fixed(3, 0b111, FaultKind::PictureType)?;
    Ok(tr as u16)
}

fn clock_from(custom: u32) -> Clock
    ensures { result ≡ clock_of custom }
{
    if custom == 0 {
        Clock::Standard
    } else {
        Clock::Custom
    }
}

fn kind_from(kind: u32) -> Kind
    ensures { result ≡ kind_numbered kind }
{
    if kind == 0 { Kind::I } else { Kind::P }
}

#[tactic(auto, unfolding(crate::specs::Text::plus_type, h263_bits::specs::Syntax::reading))]
fn read_plus_type(reader: &mut BitReader<'_>, format: Format) -> Result<(Clock, Kind, u8), Fault>
    ensures reads { Gives
        (λ x. (x.0, x.1, x.2)) result reader.new (reading (plus_type format) reader.old) }
    ensures range { IfOk result (λ x. x.2 ≤ 1) }
{
    reader.fixed(3, 0b001, FaultKind::Ufep)?;
    let at = reader.at();
    let source = reader.bits(3)?;
    let expected = match format {
        Format::SubQcif => 1,
        Format::Qcif => 2,
        Format::Cif => 3,
    };
    if source != expected {
        let fault = if 0 < source && source < 4 {
            FaultKind::OtherFormat
        } else {
            FaultKind::SourceFormat
        };
        return Err(fault.at(at));
    }
    let custom = reader.bits(1)?;
    reader.fixed(10, 0b0000011000, FaultKind::Modes)?;
    reader.fixed(4, 0b1000, FaultKind::Marker)?;
    let at = reader.at();
    let kind = reader.bits(3)?;
    if kind >= 2 {
        return Err(FaultKind::PictureKind.at(at));
    }
    reader.fixed(2, 0, FaultKind::Resampling)?;
    let rounding = reader.bits(1)?;
    reader.fixed(3, 0b001, FaultKind::Marker)?;
    Ok((clock_from(custom), kind_from(kind), rounding as u8))
}

#[tactic(auto, unfolding(crate::specs::Text::multipoint, h263_bits::specs::Syntax::reading))]
fn read_multipoint(reader: &mut BitReader<'_>) -> Result<(), Fault>
    ensures { Gives (λ _. tt) result reader.new (reading multipoint reader.old) }
{
    reader.fixed(1, 0, FaultKind::Cpm)?;
    Ok(())
}

// Reads CPCFC, of which nothing is kept.
fn read_divisor(reader: &mut BitReader<'_>) -> Result<u32, Fault>
    ensures { Gives (λ (v : ℕ). v) result reader.new (field_at 8 allowed_divisor reader.old) }
{
    let at = reader.at();
    let cpcfc = reader.bits(8)?;
    if cpcfc % 128 == 0 {
        return Err(FaultKind::Divisor.at(at));
    }
    Ok(cpcfc)
}

// Reads CPCFC and ETR where the clock is custom. Answers the temporal reference, of which TR has
// the low bits.
#[tactic(auto, unfolding(crate::specs::Text::extended, h263_bits::specs::Syntax::reading))]
fn read_extended(reader: &mut BitReader<'_>, clock: Clock, low: u16) -> Result<u16, Fault>
    requires { low ≤ 255 }
    ensures reads { Gives
        (λ (v : ℕ). v) result reader.new (reading (extended clock low) reader.old) }
    ensures range { IfOk result (λ tr. tr < period_of clock) }
{
    match clock {
        Clock::Standard => Ok(low),
        Clock::Custom => {
            read_divisor(reader)?;
            let high = reader.bits(2)?;
            Ok(256 * high as u16 + low)
        }
    }
}

#[tactic(auto, unfolding(crate::specs::Text::reference, h263_bits::specs::Syntax::reading))]
fn read_reference(
    reader: &mut BitReader<'_>,
    clock: Clock,
    kind: Kind,
) -> Result<Option<u16>, Fault>
    ensures reads { Gives
        (λ (v : Option ℕ). v) result reader.new (reading (reference clock kind) reader.old) }
    ensures range { IfOk result (IsReference clock kind) }
{
    match kind {
        Kind::I => {
            reader.fixed(1, 0, FaultKind::IntraReference)?;
            Ok(None)
        }
        Kind::P => {
            reader.fixed(1, 1, FaultKind::NoReference)?;
            let at = reader.at();
            let trp = reader.bits(10)?;
            if trp >= clock.period() {
                return Err(FaultKind::HighBits.at(at));
            }
            Ok(Some(trp as u16))
        }
    }
}

// Reads PEI, and a byte after a 1. Answers whether PEI stands there again.
#[tactic(auto, unfolding(crate::specs::Text::extra_turn, h263_bits::specs::Syntax::reading))]
fn read_extra_turn(reader: &mut BitReader<'_>) -> Result<bool, Fault>
    ensures { Gives (goes_on tt tt) result reader.new (reading (extra_turn tt) reader.old) }
{
    if reader.bits(1)? == 0 {
        return Ok(false);
    }
    reader.bits(8)?;
    Ok(true)
}

fn read_extra(reader: &mut BitReader<'_>) -> Result<(), Fault>
    ensures { Gives (λ _. tt) result reader.new (reading extra reader.old) }
{
    'turns: while read_extra_turn(reader)? {}
    Ok(())
}

// Reads BCI: 1, or 0 for the end.
#[tactic(auto, unfolding(crate::specs::Text::bci, h263_bits::specs::Syntax::reading))]
fn read_bci(reader: &mut BitReader<'_>) -> Result<u32, Fault>
    ensures { Gives (λ (v : ℕ). v) result reader.new (reading bci reader.old) }
{
    if reader.bits(1)? == 0 {
        reader.fixed(1, 1, FaultKind::Bci)?;
        return Ok(0);
    }
    Ok(1)
}

// Reads BCI and a message, or the BCI of the end, where this many messages were read.
#[tactic(auto, unfolding(crate::specs::Text::next_message, h263_bits::specs::Syntax::reading))]
fn read_next_message(
    reader: &mut BitReader<'_>,
    clock: Clock,
    used: usize,
) -> Result<Option<Message>, Fault>
    ensures reads { Gives (λ (m : Option Message). m) result reader.new
        (reading (next_message clock used) reader.old) }
    ensures room { IfOk result (λ next. IsSome next → used < 4) }
    ensures range { IfOk result (λ next. IfSome next (IsMessage clock)) }
{
    let at = reader.at();
    match read_bci(reader) {
        Err(fault) => {
            return Err(fault.kind.at(at));
        }
        Ok(0) => return Ok(None),
        Ok(_) => {}
    }
    if used >= 4 {
        return Err(FaultKind::ManyMessages.at(at));
    }
    Ok(Some(read_message(reader, clock)?))
}

fn read_back(reader: &mut BitReader<'_>, clock: Clock) -> Result<[Option<Message>; 4], Fault>
    ensures reads { ReadsBack result reader.new (reading (back clock) reader.old) }
    ensures range { IfOk result (IsBack clock) }
{
    back_messages_laws::in_a_syntax();
    let mut back = [None; 4];
    let mut used = 0;
    'messages: while let Some(message) = read_next_message(reader, clock, used)? {
        back[used] = Some(message);
        used += 1;
    }
    Ok(back)
}

#[tactic(auto, unfolding(crate::specs::Text::channel, h263_bits::specs::Syntax::reading))]
fn read_channel(reader: &mut BitReader<'_>) -> Result<u8, Fault>
    ensures reads { Gives (λ (v : ℕ). v) result reader.new (reading channel reader.old) }
    ensures range { IfOk result (λ channel. channel ≤ 3) }
{
    reader.fixed(2, 0, FaultKind::SliceMode)?;
    let at = reader.at();
    let rpsmf = reader.bits(3)?;
    if rpsmf < 4 {
        return Err(FaultKind::Rpsmf.at(at));
    }
    Ok((rpsmf - 4) as u8)
}

/// Reads a quantiser (PQUANT, 5.1.19, and SQUANT, Annex K), which isn't 0.
pub fn read_quant(reader: &mut BitReader<'_>) -> Result<u8, Fault>
    ensures reads { Gives (λ (v : ℕ). v) result reader.new (field_at 5 allowed_quant reader.old) }
    ensures range { IfOk result IsQuant }
{
    let at = reader.at();
    let quant = reader.bits(5)?;
    if quant == 0 {
        return Err(FaultKind::Quant.at(at));
    }
    Ok(quant as u8)
}

/// Reads a picture header of the expected format, from the bit `1` of the start code to the last
/// PEI (H.263, 5.1).
#[tactic(auto, unfolding(crate::specs::Text::header, h263_bits::specs::Syntax::reading))]
pub fn read_header(reader: &mut BitReader<'_>, format: Format) -> Result<Header, Fault>
    // What is read is spelled by the bits that were taken.
    ensures found { IfOk result (λ h. Takes reader.old reader.new (IsHeaderText format h)) }
    // What is spelled is read, whatever follows.
    ensures only { (h : Header) (text rest : List Bool)
        → IsHeaderText format h text → reader.old.bits ≡ text ++ rest
        → IsOkAnd result (λ found. (found ≡ h) × (reader.new.bits ≡ rest)) }
    // Otherwise it is the first fault, at its place.
    ensures fault { first_fault result ≡ header_fault format reader.old }
    ensures exact { Gives
        (λ (h : Header). h) result reader.new (reading (header format) reader.old) }
    ensures range { IfOk result IsHeader }
{
    back_messages_laws::in_a_syntax();
    let low = read_opening(reader)?;
    let (clock, kind, rounding) = read_plus_type(reader, format)?;
    read_multipoint(reader)?;
    let tr = read_extended(reader, clock, low)?;
    let channel = read_channel(reader)?;
    let trp = read_reference(reader, clock, kind)?;
    let back = read_back(reader, clock)?;
    let quant = read_quant(reader)?;
    read_extra(reader)?;
    Ok(Header {
        tr,
        format,
        kind,
        rounding,
        channel,
        trp,
        quant,
        back,
        clock,
    })
}
