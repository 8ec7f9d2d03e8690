//! The picture header written field by field, and how many bits it has (H.263, 5.1).
ghost use Rattle.std.specs.Prelude.{◌≡◌, ℕ, ◌+◌, ◌*◌, ◌≤◌, ◌<◌, ◌++◌, ◌∷◌, [], length, Option};
ghost use Rattle.h263_bits.specs.Bits.{spelled, fields};
ghost use Rattle.h263_bits.specs.Written.{Appends, len_of, room_of, buffer_of, written};
ghost use Rattle.h263_types.specs.Clocks.{period_of};
ghost use Rattle.h263_types.specs.declared.clock.Clock.TheVariants.{Custom};
ghost use Rattle.back_messages.specs.declared.message.Message.{Message};
ghost use Rattle.back_messages.specs.Text.{IsMessage, message_text, message_bits};
ghost use Rattle.picture_header.specs.Text.{format_code, IsHeaderText};
ghost use Rattle.picture_header.specs.Ranges.{HasTenBits, AreMessages, IsHeader, messages_in};
ghost use Rattle.picture_header.specs.Written.{kind_code, clock_code, opening_fields, optional_fields, mandatory_fields, plus_fields, multipoint_fields, extended_fields, channel_fields, reference_fields, bci_text, written_front, written_rest, written_header, written_bits, clock_bits, reference_bits, back_bits};

use crate::header::Header;
use back_messages::{Message, laws as back_messages_laws, message_bits, write_message};
use h263_bits::BitWriter;
use h263_types::{Clock, Format, Kind};

fn format_bits(format: Format) -> u32
    ensures code { result ≡ format_code format }
    ensures below { result < 8 }
{
    match format {
        Format::SubQcif => 1,
        Format::Qcif => 2,
        Format::Cif => 3,
    }
}

/// The bits of a picture's kind: 0 in I, 1 in P (MPPTYPE, 5.1.4.3).
pub fn kind_bits(kind: Kind) -> u32
    ensures code { result ≡ kind_code kind }
    ensures below { result < 2 }
{
    match kind {
        Kind::I => 0,
        Kind::P => 1,
    }
}

fn clock_bit(clock: Clock) -> u32
    ensures code { result ≡ clock_code clock }
    ensures below { result < 2 }
{
    match clock {
        Clock::Standard => 0,
        Clock::Custom => 1,
    }
}

// Writes the rest of the start code, TR and PTYPE.
fn write_opening(writer: &mut BitWriter<'_>, tr: u16)
    requires room { len_of writer.old + 22 ≤ room_of writer.old }
    ensures bits { Appends writer.old writer.new (fields (opening_fields tr)) }
    ensures len { len_of writer.new ≡ len_of writer.old + 22 }
{
    writer.put(0b100000, 6);
    writer.put(tr as u32 % 256, 8);
    writer.put(0b10, 2);
    writer.put(0b000, 3);
    writer.put(0b111, 3);
}

// Writes UFEP and OPPTYPE.
fn write_optional_type(writer: &mut BitWriter<'_>, format: Format, clock: Clock)
    requires room { len_of writer.old + 21 ≤ room_of writer.old }
    ensures bits { Appends writer.old writer.new (fields (optional_fields format clock)) }
    ensures len { len_of writer.new ≡ len_of writer.old + 21 }
{
    writer.put(0b001, 3);
    writer.put(format_bits(format), 3);
    writer.put(clock_bit(clock), 1);
    writer.put(0b0000011000, 10);
    writer.put(0b1000, 4);
}

// Writes MPPTYPE.
fn write_mandatory_type(writer: &mut BitWriter<'_>, kind: Kind, rounding: u8)
    requires rounding { rounding ≤ 1 }
    requires room { len_of writer.old + 9 ≤ room_of writer.old }
    ensures bits { Appends writer.old writer.new (fields (mandatory_fields kind rounding)) }
    ensures len { len_of writer.new ≡ len_of writer.old + 9 }
{
    writer.put(kind_bits(kind), 3);
    writer.put(0b00, 2);
    writer.put(rounding as u32, 1);
    writer.put(0b001, 3);
}

// Writes PLUSPTYPE.
fn write_plus_type(
    writer: &mut BitWriter<'_>,
    format: Format,
    clock: Clock,
    kind: Kind,
    rounding: u8,
)
    requires rounding { rounding ≤ 1 }
    requires room { len_of writer.old + 30 ≤ room_of writer.old }
    ensures bits { Appends writer.old writer.new (fields (plus_fields format clock kind rounding)) }
    ensures len { len_of writer.new ≡ len_of writer.old + 30 }
{
    write_optional_type(writer, format, clock);
    write_mandatory_type(writer, kind, rounding);
}

// Writes CPCFC, for 30000/1001 pictures a second, and ETR where the clock is custom.
fn write_extended(writer: &mut BitWriter<'_>, clock: Clock, tr: u16)
    requires tr { tr < period_of clock }
    requires room { len_of writer.old + clock_bits clock ≤ room_of writer.old }
    ensures bits { Appends writer.old writer.new (fields (extended_fields clock tr)) }
    ensures len { len_of writer.new ≡ len_of writer.old + clock_bits clock }
{
    match clock {
        Clock::Standard => {}
        Clock::Custom => {
            writer.put(0b10111100, 8);
            writer.put(tr as u32 / 256, 2);
        }
    }
}

// Writes SSS and RPSMF.
fn write_channel(writer: &mut BitWriter<'_>, channel: u8)
    requires channel { channel ≤ 3 }
    requires room { len_of writer.old + 5 ≤ room_of writer.old }
    ensures bits { Appends writer.old writer.new (fields (channel_fields channel)) }
    ensures len { len_of writer.new ≡ len_of writer.old + 5 }
{
    writer.put(0b00, 2);
    writer.put(channel as u32 + 4, 3);
}

/// Writes TRPI, and TRP where a reference is named (5.1.14, 5.1.15, and Annex N for a slice).
pub fn write_reference(writer: &mut BitWriter<'_>, trp: Option<u16>)
    requires trp { HasTenBits trp }
    requires room { len_of writer.old + (1 + reference_bits trp) ≤ room_of writer.old }
    ensures bits { Appends writer.old writer.new (fields (reference_fields trp)) }
    ensures len { len_of writer.new ≡ len_of writer.old + (1 + reference_bits trp) }
{
    match trp {
        None => writer.put(0, 1),
        Some(trp) => {
            writer.put(1, 1);
            writer.put(trp as u32, 10);
        }
    }
}

// Writes BCI 1 and a message.
fn write_next_message(writer: &mut BitWriter<'_>, message: &Message)
    requires message { IsMessage Custom message.now }
    requires room { len_of writer.old + (1 + message_bits message.now) ≤ room_of writer.old }
    ensures bits { Appends writer.old writer.new (spelled 1 1 ++ message_text message.now) }
    ensures len { len_of writer.new ≡ len_of writer.old + (1 + message_bits message.now) }
{
    writer.put(1, 1);
    write_message(writer, message);
}

// Writes the messages, each after a BCI 1, and BCI 01.
fn write_back(writer: &mut BitWriter<'_>, places: &[Option<Message>; 4])
    requires each { AreMessages Custom (messages_in places.now) }
    requires room { len_of writer.old + (2 + back_bits (messages_in places.now))
        ≤ room_of writer.old }
    ensures bits { Appends writer.old writer.new (bci_text (messages_in places.now)) }
    ensures len { len_of writer.new ≡ len_of writer.old + (2 + back_bits (messages_in places.now)) }
{
    'places: for place in places {
        if let Some(message) = place {
            write_next_message(writer, message);
        }
    }
    writer.put(0, 1);
    writer.put(1, 1);
}

// Writes PQUANT, and PEI 0.
fn write_end(writer: &mut BitWriter<'_>, quant: u8)
    requires quant { quant ≤ 31 }
    requires room { len_of writer.old + 6 ≤ room_of writer.old }
    ensures bits { Appends writer.old writer.new
        (fields ((5, quant) ∷ []) ++ fields ((1, 0) ∷ [])) }
    ensures len { len_of writer.new ≡ len_of writer.old + 6 }
{
    writer.put(quant as u32, 5);
    writer.put(0, 1);
}

// Writes what says which picture it is.
fn write_front(writer: &mut BitWriter<'_>, header: &Header)
    requires header { IsHeader header.now }
    requires room { len_of writer.old + (53 + clock_bits header.now.clock) ≤ room_of writer.old }
    ensures bits { Appends writer.old writer.new (written_front header.now) }
    ensures len { len_of writer.new ≡ len_of writer.old + (53 + clock_bits header.now.clock) }
{
    write_opening(writer, header.tr);
    write_plus_type(
        writer,
        header.format,
        header.clock,
        header.kind,
        header.rounding,
    );
    writer.put(0, 1);
    write_extended(writer, header.clock, header.tr);
}

// Writes the reference, the messages and the quantiser.
fn write_rest(writer: &mut BitWriter<'_>, header: &Header)
    requires header { IsHeader header.now }
    requires room { len_of writer.old + (14 + reference_bits header.now.trp
        + back_bits (messages_in header.now.back)) ≤ room_of writer.old }
    ensures bits { Appends writer.old writer.new (written_rest header.now) }
    ensures len { len_of writer.new ≡ len_of writer.old
        + (14 + reference_bits header.now.trp + back_bits (messages_in header.now.back)) }
{
    back_messages_laws::in_a_syntax();
    write_channel(writer, header.channel);
    write_reference(writer, header.trp);
    write_back(writer, &header.back);
    write_end(writer, header.quant);
}

/// Writes a picture header, from the bit `1` of the start code to PEI (H.263, 5.1). It has
/// `header_bits` bits.
pub fn write_header(writer: &mut BitWriter<'_>, header: &Header)
    requires header { IsHeader header.now }
    requires room { len_of writer.old + written_bits header.now ≤ room_of writer.old }
    ensures bits { Appends writer.old writer.new (written_header header.now) }
    ensures len { len_of writer.new ≡ len_of writer.old + written_bits header.now }
    ensures spells { IsHeaderText header.now.format header.now (written_header header.now) }
{
    back_messages_laws::in_a_syntax();
    write_front(writer, header);
    write_rest(writer, header);
}

// The bits of CPCFC and ETR, where they are there.
fn extended_bits(clock: Clock) -> u32
    ensures bits { result ≡ clock_bits clock }
    ensures few { result ≤ 10 }
{
    match clock {
        Clock::Standard => 0,
        Clock::Custom => 10,
    }
}

// The bits of TRP, where it is there.
fn trp_bits(trp: Option<u16>) -> u32
    ensures bits { result ≡ reference_bits trp }
    ensures few { result ≤ 10 }
{
    match trp {
        None => 0,
        Some(_) => 10,
    }
}

// The bits that the messages and their BCIs 1 take.
fn messages_bits(places: &[Option<Message>; 4]) -> u32
    ensures bits { result ≡ back_bits (messages_in places.now) }
    ensures few { result ≤ 164 }
{
    let mut bits = 0;
    'places: for place in places {
        if let Some(message) = place {
            bits += 1 + message_bits(message);
        }
    }
    bits
}

/// How many bits `write_header` writes, 251 at most.
pub fn header_bits(header: &Header) -> u32
    ensures bits { result ≡ length (written_header header.now) }
    ensures parts { result ≡ written_bits header.now }
    ensures few { result ≤ 251 }
{
    back_messages_laws::in_a_syntax();
    67 + extended_bits(header.clock) + trp_bits(header.trp) + messages_bits(&header.back)
}
