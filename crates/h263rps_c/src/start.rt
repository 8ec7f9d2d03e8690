//! The start of a packet as C has it.
ghost use Rattle.std.specs.Prelude.{◌≡◌, ◌≢◌, ◌≤◌, ◌∷◌, [], ℕ, List, Ok, Some, Option, IfSome, length};
ghost use Rattle.back_messages.specs.declared.message.Message.{Message};
ghost use Rattle.back_messages.specs.Text.{IsMessage};
ghost use Rattle.h263_types.specs.declared.clock.Clock.TheVariants.{Custom};
ghost use Rattle.h263_types.specs.declared.format.Format.{Format};
ghost use Rattle.packet_collector.specs.Packet.{PacketSlice, packet_at};
ghost use Rattle.packet_start.specs.Start.{start_in};
ghost use Rattle.picture_header.specs.declared.header.Header.{Header};
ghost use Rattle.picture_header.specs.Ranges.{IsHeader, messages_in};
ghost use Rattle.h263rps_c.specs.Asked.{clock_numbered, format_numbered};
ghost use Rattle.h263rps_c.specs.Refusals.{status_of};
ghost use Rattle.h263rps_c.specs.Start.{IsStart, IsSaidOf, Refers, start_refusal};

use crate::answers::CMessage;
use crate::refusals::{EndRefusal, OK};
use back_messages::{Message, laws as back_messages_laws, write};
use h263_types::{Clock, Format};
use packet_start::{find_start, laws as packet_start_laws};
use picture_header::Header;

/// What a packet says of its picture.
#[repr(C)]
#[derive(Clone, Copy)]
pub struct Start {
    /// 1 sub-QCIF, 2 QCIF, 3 CIF.
    pub format: u32,
    /// 0 the standard clock, 1 the custom one.
    pub clock: u32,
    /// The picture's number modulo 256, in the custom clock modulo 1,024.
    pub temporal_reference: u32,
    /// 1 where the picture is coded by itself, else 0.
    pub intra: u32,
    /// The temporal reference of the picture that it refers to; 0 where it is coded by itself.
    pub reference: u32,
    /// How many messages its header carries, at most four.
    pub count: u32,
    /// These messages, and nothing in the places after them.
    pub messages: [CMessage; 4],
}

fn format_number(format: Format) -> u32
    ensures { format_numbered result ≡ Some format }
{
    match format {
        Format::SubQcif => 1,
        Format::Qcif => 2,
        Format::Cif => 3,
    }
}

fn clock_number(clock: Clock) -> u32
    ensures { clock_numbered result ≡ Some clock }
{
    match clock {
        Clock::Standard => 0,
        Clock::Custom => 1,
    }
}

// Whether a picture is coded by itself, as 1 or 0, and the reference that it names otherwise.
fn referring(trp: Option<u16>) -> (u32, u32)
    ensures { Refers result.0 result.1 trp }
{
    match trp {
        None => (1, 0),
        Some(trp) => (0, trp as u32),
    }
}

// The message at one place of a header, if there is one.
fn said_at(place: &Option<Message>) -> CMessage
    requires { IfSome place.now (IsMessage Custom) }
    ensures { IsSaidOf result place.now }
{
    match place {
        None => CMessage::NOTHING,
        Some(message) => CMessage::of(&write(message)),
    }
}

// How many messages a place of a header has.
fn count_at(place: &Option<Message>) -> u32
    ensures value { result ≡ length (messages_in (place.now ∷ [])) }
    ensures few { result ≤ 1 }
{
    match place {
        None => 0,
        Some(_) => 1,
    }
}

impl Start {
    /// What a header says.
    pub fn of(header: &Header) -> Start
        requires { IsHeader header.now }
        ensures { IsStart result header.now }
    {
        back_messages_laws::in_a_syntax();
        let (intra, reference) = referring(header.trp);
        let [first, second, third, fourth] = header.back;
        Start {
            format: format_number(header.format),
            clock: clock_number(header.clock),
            temporal_reference: header.tr as u32,
            intra,
            reference,
            count: count_at(&first) + count_at(&second) + count_at(&third) + count_at(&fourth),
            messages: [
                said_at(&first),
                said_at(&second),
                said_at(&third),
                said_at(&fourth),
            ],
        }
    }
}

// A packet that is read whole has the start of its slice.
fn whole_packets_start()
    ensures { (format : Format) (bytes : List ℕ) (s : PacketSlice)
        → packet_at format bytes ≡ Ok s → start_in bytes ≡ Some s.header }
{
    packet_start_laws::starts_as_read();
    packet_start_laws::start_is_of_format();
    packet_start_laws::one_format();
}

/// What a packet says of its picture, before any end takes it: of which format and clock it is, its
/// temporal reference, the reference that it names, and the messages in its header.
#[unsafe(no_mangle)]
pub extern "C" fn h263rps_raw_packet_start(bytes: &[u8], start: &mut Start) -> u32
    ensures result { result ≡ status_of (start_refusal (start_in bytes.now)) }
    ensures unwritten { result ≢ 0 → start.new ≡ start.old }
    ensures start { (h : Header) → start_in bytes.now ≡ Some h → IsStart start.new h }
    // A packet that is read whole has a start, and its slice is of the picture that it tells of.
    ensures whole { (format : Format) (s : PacketSlice)
        → packet_at format bytes.now ≡ Ok s → start_in bytes.now ≡ Some s.header }
{
    whole_packets_start();
    match find_start(bytes) {
        None => EndRefusal::NoStart.number(),
        Some(header) => {
            *start = Start::of(&header);
            OK
        }
    }
}
