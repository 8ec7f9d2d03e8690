//! What a receiver answers.
use back_messages::Said;
use h263_bits::Fault;
use h263_types::Mark;

/// Why a packet is refused.
#[derive(Clone, Copy, Debug, PartialEq, Eq)]
pub enum PacketFault {
    /// Its bytes have this first fault.
    Bytes(Fault),
    /// It is of the other picture clock.
    OtherClock,
    /// A slice of its picture was taken with another header.
    HeaderDiffers,
    /// The picture that it refers to isn't complete, or not in the window.
    MissingReference,
    /// Some of its macroblocks were taken, but not all.
    Overlap,
}

/// The answer to a packet. Only `Taken` and `Completed` change the receiver.
#[derive(Clone, Copy, Debug, PartialEq, Eq)]
pub enum Heard {
    Taken,
    /// With this slice its picture is complete: the message that acknowledges it.
    Completed(Said),
    /// Its picture was played.
    Late,
    /// Its picture is too far ahead.
    Early,
    /// All its macroblocks were taken.
    Repeat,
    Refused(PacketFault),
}

impl Heard {
    ghost use Rattle.std.specs.Prelude.{◌≡◌};
    ghost use Rattle.receiver_end.specs.Answers.{said_in_answer};

    /// The message that it says: the acknowledgement of a picture that is complete.
    pub fn message(&self) -> Option<Said>
        ensures { result ≡ said_in_answer self.now }
    {
        match self {
            Heard::Completed(said) => Some(*said),
            _ => None,
        }
    }
}

/// The answer to a packet, and the number of the picture that the packet is of: the one nearest to the
/// play. None where the packet has a fault or is of the other picture clock, and where that would be
/// before picture 0.
#[derive(Clone, Copy, Debug)]
pub struct Arrival {
    pub heard: Heard,
    pub number: Option<u32>,
}

/// What a play says: which picture it is, how that is shown, to which picture it refers (None where
/// it is intra, and where nothing of it was taken), and where it isn't complete the message that asks
/// for another reference.
#[derive(Clone, Copy, Debug, PartialEq, Eq)]
pub struct Played {
    pub number: u32,
    pub mark: Mark,
    pub reference: Option<u32>,
    pub message: Option<Said>,
}
