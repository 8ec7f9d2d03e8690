//! The answers of both ends as C has them: structs of numbers. `specs/Numbers` has the numbers.
ghost use Rattle.std.specs.Prelude.{◌≡◌};
ghost use Rattle.h263rps_c.specs.Numbers as numbers;

use back_messages::{MessageFault, Said};
use h263_bits::FaultKind;
use h263_types::Mark;
use receiver_end::{Arrival, Heard, PacketFault, Played};
use sender_end::{Coded, Feedback};

/// A message for the other end: the first `length` bytes, 3 or 5; with a length of 0 there is none.
#[repr(C)]
#[derive(Clone, Copy)]
pub struct CMessage {
    pub bytes: [u8; 5],
    pub length: u8,
}

/// A receiver's answer to a packet or a play.
#[repr(C)]
#[derive(Clone, Copy)]
pub struct Answer {
    pub kind: u32,
    /// Why a packet is refused, else 0.
    pub fault: u32,
    /// The bit at which a fault of its bytes stands, else 0.
    pub at: u32,
    /// Of a play the number of the picture that is shown; of a packet that of its picture, or 0.
    pub number: u32,
    /// Of a play 1 where what was taken of the picture that is shown refers to another one, else 0.
    pub predicted: u32,
    /// The number of that one, else 0.
    pub reference: u32,
    pub message: CMessage,
}

/// A picture that a sender coded.
#[repr(C)]
#[derive(Clone, Copy)]
pub struct Made {
    pub number: u32,
    pub packets: u32,
    /// 1 where it is coded by itself, else 0.
    pub intra: u32,
    /// The number of the picture that it refers to; 0 where it is coded by itself.
    pub reference: u32,
}

/// A sender's answer to a message.
#[repr(C)]
#[derive(Clone, Copy)]
pub struct Reply {
    pub kind: u32,
    /// Why its bytes are no message, else 0.
    pub fault: u32,
}

impl CMessage {
    pub(crate) const NOTHING: CMessage = CMessage {
        bytes: [0; 5],
        length: 0,
    };

    pub(crate) fn of(said: &Said) -> CMessage
        ensures { result ≡ numbers.c_message_of said.now }
    {
        CMessage {
            bytes: said.bytes,
            length: said.len,
        }
    }

    fn maybe(said: &Option<Said>) -> CMessage
        ensures { result ≡ numbers.message_or_none said.now }
    {
        match said {
            None => CMessage::NOTHING,
            Some(said) => CMessage::of(said),
        }
    }
}

fn kind_number(kind: FaultKind) -> u32
    ensures { result ≡ numbers.kind_number kind }
{
    100 + kind as u32
}

fn fault_number(fault: PacketFault) -> u32
    ensures { result ≡ numbers.fault_number fault }
{
    match fault {
        PacketFault::OtherClock => 1,
        PacketFault::HeaderDiffers => 2,
        PacketFault::MissingReference => 3,
        PacketFault::Overlap => 4,
        PacketFault::Bytes(fault) => kind_number(fault.kind),
    }
}

// The bit at which the bytes have their fault; other faults have no place, and 0.
fn place_of(fault: PacketFault) -> u32
    ensures { result ≡ numbers.fault_place fault }
{
    match fault {
        PacketFault::Bytes(fault) => fault.at,
        PacketFault::OtherClock => 0,
        PacketFault::HeaderDiffers => 0,
        PacketFault::MissingReference => 0,
        PacketFault::Overlap => 0,
    }
}

fn message_fault_number(fault: MessageFault) -> u32
    ensures { result ≡ numbers.message_fault_number fault }
{
    match fault {
        MessageFault::Length => 1,
        MessageFault::Kind => 2,
        MessageFault::High => 3,
        MessageFault::Marker => 4,
        MessageFault::Pair => 5,
    }
}

fn mark_number(mark: Mark) -> u32
    ensures { result ≡ numbers.mark_number mark }
{
    match mark {
        Mark::Exact => 0,
        Mark::Patched => 1,
        Mark::Held => 2,
    }
}

// Whether there is a reference, as a number.
fn is_predicted(reference: Option<u32>) -> u32
    ensures { result ≡ numbers.is_predicted reference }
{
    match reference {
        None => 0,
        Some(_) => 1,
    }
}

/// A picture's number, or 0 where there is none.
pub fn number_or_zero(number: Option<u32>) -> u32
    ensures { result ≡ numbers.number_or_zero number }
{
    match number {
        None => 0,
        Some(number) => number,
    }
}

impl Answer {
    /// An answer of this kind alone.
    pub fn plain(kind: u32) -> Answer
        ensures { result ≡ numbers.plain kind }
    {
        Answer {
            kind,
            fault: 0,
            at: 0,
            number: 0,
            predicted: 0,
            reference: 0,
            message: CMessage::NOTHING,
        }
    }

    fn saying(kind: u32, said: &Said) -> Answer
        ensures { result ≡ numbers.saying kind said.now }
    {
        Answer {
            kind,
            fault: 0,
            at: 0,
            number: 0,
            predicted: 0,
            reference: 0,
            message: CMessage::of(said),
        }
    }

    /// What is answered to a packet, but for the number of its picture.
    pub fn heard(heard: &Heard) -> Answer
        ensures { result ≡ numbers.heard_answer heard.now }
    {
        match heard {
            Heard::Taken => Answer::plain(0),
            Heard::Completed(said) => Answer::saying(1, said),
            Heard::Late => Answer::plain(2),
            Heard::Early => Answer::plain(3),
            Heard::Repeat => Answer::plain(4),
            Heard::Refused(fault) => Answer {
                kind: 5,
                fault: fault_number(*fault),
                at: place_of(*fault),
                number: 0,
                predicted: 0,
                reference: 0,
                message: CMessage::NOTHING,
            },
        }
    }

    /// The answer to a packet.
    pub fn arrived(arrival: &Arrival) -> Answer
        ensures { result ≡ numbers.arrived_answer arrival.now }
    {
        Answer {
            number: number_or_zero(arrival.number),
            ..Answer::heard(&arrival.heard)
        }
    }

    /// The answer to a play.
    pub fn played(played: &Played) -> Answer
        ensures { result ≡ numbers.played_answer played.now }
    {
        Answer {
            kind: mark_number(played.mark),
            fault: 0,
            at: 0,
            number: played.number,
            predicted: is_predicted(played.reference),
            reference: number_or_zero(played.reference),
            message: CMessage::maybe(&played.message),
        }
    }
}

impl Made {
    /// The picture as C has it.
    pub fn of(coded: &Coded) -> Made
        ensures { result ≡ numbers.made_of coded.now }
    {
        match coded.reference {
            None => Made {
                number: coded.number,
                packets: coded.packets,
                intra: 1,
                reference: 0,
            },
            Some(reference) => Made {
                number: coded.number,
                packets: coded.packets,
                intra: 0,
                reference,
            },
        }
    }
}

impl Reply {
    /// The answer as C has it.
    pub fn of(feedback: &Feedback) -> Reply
        ensures { result ≡ numbers.reply_numbers feedback.now }
    {
        match feedback {
            Feedback::Noted => Reply { kind: 0, fault: 0 },
            Feedback::Old => Reply { kind: 1, fault: 0 },
            Feedback::Refused(fault) => Reply {
                kind: 2,
                fault: message_fault_number(*fault),
            },
        }
    }
}
