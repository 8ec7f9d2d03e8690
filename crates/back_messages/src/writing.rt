//! Messages written: to the bytes of a packet, and to the bits of a picture header.
ghost use Rattle.std.specs.Prelude.{◌≡◌, ◌*◌, ◌+◌, ◌≤◌, ◌<◌, ◌^◌, ℕ, Ok, Some};
ghost use Rattle.h263_bits.specs.Bits.{bits_of, fields, spelled};
ghost use Rattle.h263_bits.specs.Written.{Appends, len_of, room_of};
ghost use Rattle.h263_types.specs.declared.clock.Clock.{Clock};
ghost use Rattle.h263_types.specs.declared.clock.Clock.TheVariants.{Custom};
ghost use Rattle.back_messages.specs.Text.{IsMessage, urf_of, message_fields, first_text, flags_text, message_text, message_marks, message_bits, message_in};
ghost use Rattle.back_messages.specs.Said.{text_of_said, IsFilled};

use crate::message::Message;
use crate::reading::turned;
use h263_bits::BitWriter;

/// The bytes of a message: the first `len`, 3 or 5, of `bytes`.
#[derive(Clone, Copy, Debug, PartialEq, Eq)]
pub struct Said {
    pub bytes: [u8; 5],
    pub len: u8,
}

impl Said {
    ghost use Rattle.std.specs.Prelude.{◌≡◌};
    ghost use Rattle.back_messages.specs.Said.{text_of_said};

    /// The message's bytes.
    pub fn text(&self) -> &[u8]
        ensures { result.now ≡ text_of_said self.now }
    {
        let len = self.len.min(5) as usize;
        &self.bytes[..len]
    }
}

fn urf(marks: Option<u16>) -> u32
    ensures { result ≡ urf_of marks }
{
    match marks {
        None => 0,
        Some(_) => 1,
    }
}

// The first 24 bits of a message, by its type and temporal references.
fn code_from(kind: u32, tr: u16, rtr: u16, marks: Option<u16>) -> u32
    requires kind { kind < 4 }
    requires tr { tr < 2 ^ 10 }
    requires rtr { rtr < 2 ^ 10 }
    ensures text { spelled 24 result ≡ fields (message_fields kind tr rtr marks) }
    ensures below { result < 2 ^ 24 }
{
    (kind << 22) + (urf(marks) << 21) + ((tr as u32) << 11) + (1 << 10) + rtr as u32
}

// The first 24 bits of a message.
fn first_code(message: &Message) -> u32
    requires { IsMessage Custom message.now }
    ensures text { spelled 24 result ≡ first_text message.now }
    ensures below { result < 2 ^ 24 }
{
    match *message {
        Message::Ack { tr, marks } => code_from(3, tr, tr, marks),
        Message::Nack { tr, rtr, marks } => code_from(2, tr, rtr, marks),
    }
}

// The 16 bits of a message's flags.
fn flags_code(marks: u16) -> u32
    requires { marks < 2 ^ 14 }
    ensures text { spelled 16 result ≡ flags_text (Some marks) }
    ensures below { result < 2 ^ 16 }
{
    (1 << 15) + (turned(marks as u32) << 8) + (1 << 7) + turned(marks as u32 >> 7)
}

/// The bytes of a message. A reader whose clock has its temporal references reads it again.
pub fn write(message: &Message) -> Said
    requires { IsMessage Custom message.now }
    ensures text { bits_of (text_of_said result) ≡ message_text message.now }
    ensures len { 8 * result.len ≡ message_bits message.now }
    ensures filled { IsFilled result }
    ensures again { (clock : Clock)
        → IsMessage clock message.now → message_in clock (text_of_said result) ≡ Ok message.now }
{
    let code = first_code(message);
    let first = (code >> 16) as u8;
    let second = ((code >> 8) % 256) as u8;
    let third = (code % 256) as u8;
    match message.marks() {
        None => Said {
            bytes: [first, second, third, 0, 0],
            len: 3,
        },
        Some(marks) => {
            let flags = flags_code(marks);
            Said {
                bytes: [
                    first,
                    second,
                    third,
                    (flags >> 8) as u8,
                    (flags % 256) as u8,
                ],
                len: 5,
            }
        }
    }
}

/// How many bits a message has, 24 or 40.
pub fn message_bits(message: &Message) -> u32
    ensures bits { result ≡ message_bits message.now }
    ensures few { result ≤ 40 }
{
    match message.marks() {
        None => 24,
        Some(_) => 40,
    }
}

/// Writes a message into a picture header (H.263, 5.1.17).
#[tactic(auto, unfolding(crate::specs::Text::message_text))]
pub fn write_message(writer: &mut BitWriter<'_>, message: &Message)
    requires message { IsMessage Custom message.now }
    requires room { len_of writer.old + message_bits message.now ≤ room_of writer.old }
    ensures bits { Appends writer.old writer.new (message_text message.now) }
    ensures len { len_of writer.new ≡ len_of writer.old + message_bits message.now }
{
    writer.put(first_code(message), 24);
    if let Some(marks) = message.marks() {
        writer.put(flags_code(marks), 16);
    }
}
