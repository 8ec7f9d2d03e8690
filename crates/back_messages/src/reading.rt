//! Messages read: from the bytes of a packet, and from the bits of a picture header.
ghost use Rattle.std.specs.Prelude.{◌≡◌, ◌*◌, ◌+◌, ◌≤◌, ◌<◌, ◌^◌, ℕ, IfOk, IfSome, Ok, Option, reverse};
ghost use Rattle.h263_bits.specs.Bits.{number, spelled};
ghost use Rattle.h263_bits.specs.Reading.{Gives};
ghost use Rattle.h263_bits.specs.Syntax.{field_at, reading};
ghost use Rattle.back_messages.specs.declared.message.Message.{Message};
ghost use Rattle.back_messages.specs.Text.{IsMessage, AreMarks, message_fault, message_value, short_message, long_message, marks_in, marked, message_in, allowed_message, is_long, flags, message};

use crate::message::{Message, MessageFault};
use h263_bits::{BitReader, Fault, FaultKind};
use h263_types::Clock;

// What is wrong with a message's first 24 bits, if anything is. Two bytes follow in a long one.
#[tactic(auto, unfolding(crate::specs::Text::message_fault))]
fn fault_in(bits: u32, long: bool, clock: Clock) -> Option<MessageFault>
    requires { bits < 2 ^ 24 }
    ensures { result ≡ message_fault clock long bits }
{
    let tr = (bits >> 11) % 1024;
    let rtr = bits % 1024;
    let most = clock.period();
    if bits >> 22 < 2 {
        Some(MessageFault::Kind)
    } else if ((bits >> 21) % 2 == 1) != long {
        Some(MessageFault::Length)
    } else if tr >= most {
        Some(MessageFault::High)
    } else if (bits >> 10) % 2 == 0 {
        Some(MessageFault::Marker)
    } else if rtr >= most {
        Some(MessageFault::High)
    } else if bits >> 22 == 3 && tr != rtr {
        Some(MessageFault::Pair)
    } else {
        None
    }
}

// The message of 24 bits without a fault, with its marks.
#[tactic(auto, unfolding(crate::specs::Text::message_value))]
fn value_in(bits: u32, marks: Option<u16>) -> Message
    requires { bits < 2 ^ 24 }
    ensures { result ≡ message_value bits marks }
{
    let tr = ((bits >> 11) % 1024) as u16;
    if bits >> 22 == 2 {
        let rtr = (bits % 1024) as u16;
        return Message::Nack { tr, rtr, marks };
    }
    Message::Ack { tr, marks }
}

// Seven bits, the last one first.
pub(crate) fn turned(bits: u32) -> u32
    ensures value { result ≡ number (reverse (spelled 7 bits)) }
    ensures below { result < 2 ^ 7 }
{
    let mut turned = 0;
    'places: for place in 0..7u32 {
        turned = 2 * turned + (bits >> place) % 2;
    }
    turned
}

// The marks in two bytes of flags, unless a marker is 0.
fn marks_from(flags: u32) -> Option<u16>
    requires { flags < 2 ^ 16 }
    ensures value { result ≡ marked flags }
    ensures range { AreMarks result }
{
    if flags >> 15 == 0 {
        return None;
    }
    if (flags >> 7) % 2 == 0 {
        return None;
    }
    Some((turned(flags >> 8) + 128 * turned(flags)) as u16)
}

// The message of three bytes.
fn short_from(bits: u32, clock: Clock) -> Result<Message, MessageFault>
    requires { bits < 2 ^ 24 }
    ensures { result ≡ short_message clock bits }
{
    if let Some(fault) = fault_in(bits, false, clock) {
        return Err(fault);
    }
    Ok(value_in(bits, None))
}

// The message of five bytes, of which the last two have the flags.
fn long_from(bits: u32, flags: u32, clock: Clock) -> Result<Message, MessageFault>
    requires bits { bits < 2 ^ 24 }
    requires flags { flags < 2 ^ 16 }
    ensures { result ≡ long_message clock bits flags }
{
    if let Some(fault) = fault_in(bits, true, clock) {
        return Err(fault);
    }
    match marks_from(flags) {
        None => Err(MessageFault::Marker),
        marks => Ok(value_in(bits, marks)),
    }
}

// Three bytes as a number.
fn number_of(a: u8, b: u8, c: u8) -> u32
    ensures value { result ≡ a * 65536 + b * 256 + c }
    ensures below { result < 2 ^ 24 }
    ensures two { a ≡ 0 → result < 2 ^ 16 }
{
    a as u32 * 65536 + b as u32 * 256 + c as u32
}

/// The message that the bytes spell, by a clock, or its first fault.
#[tactic(auto, unfolding(crate::specs::Text::message_in))]
pub fn read(bytes: &[u8], clock: Clock) -> Result<Message, MessageFault>
    ensures value { result ≡ message_in clock bytes.now }
    ensures range { IfOk result (IsMessage clock) }
{
    match bytes {
        [a, b, c] => short_from(number_of(*a, *b, *c), clock),
        [a, b, c, d, e] => long_from(number_of(*a, *b, *c), number_of(0, *d, *e), clock),
        _ => Err(MessageFault::Length),
    }
}

// Reads the first 24 bits of a message.
fn read_first(reader: &mut BitReader<'_>, clock: Clock) -> Result<u32, Fault>
    ensures reads { Gives
        (λ (n : ℕ). n) result reader.new (field_at 24 (allowed_message clock) reader.old) }
    ensures below { IfOk result (λ n. n < 2 ^ 24) }
{
    let at = reader.at();
    let bits = reader.bits(24)?;
    let long = (bits >> 21) % 2 == 1;
    if fault_in(bits, long, clock).is_some() {
        return Err(FaultKind::Messages.at(at));
    }
    Ok(bits)
}

// Reads the two bytes of flags, and gives their marks.
#[tactic(auto, unfolding(crate::specs::Text::flags, h263_bits::specs::Syntax::reading))]
fn read_flags(reader: &mut BitReader<'_>) -> Result<u16, Fault>
    ensures reads { Gives (λ (n : ℕ). n) result reader.new (reading flags reader.old) }
    ensures range { IfOk result (λ marks. marks < 2 ^ 14) }
{
    let at = reader.at();
    let flags = reader.bits(16)?;
    match marks_from(flags) {
        None => Err(FaultKind::Messages.at(at)),
        Some(marks) => Ok(marks),
    }
}

/// Reads a message in a picture header, where URF gives its length and each fault is one (H.263,
/// 5.1.17).
#[tactic(auto, unfolding(crate::specs::Text::message, h263_bits::specs::Syntax::reading))]
pub fn read_message(reader: &mut BitReader<'_>, clock: Clock) -> Result<Message, Fault>
    ensures reads { Gives
        (λ (m : Message). m) result reader.new (reading (message clock) reader.old) }
    ensures range { IfOk result (IsMessage clock) }
{
    let bits = read_first(reader, clock)?;
    if (bits >> 21) % 2 == 0 {
        return Ok(value_in(bits, None));
    }
    let marks = read_flags(reader)?;
    Ok(value_in(bits, Some(marks)))
}
