//! Why a call did nothing.
ghost use Rattle.std.specs.Prelude.{◌≡◌, ◌≤◌};
ghost use Rattle.h263rps_c.specs.Refusals.{refusal_number};

/// Why a call did nothing. Each has a number in the header.
#[derive(Clone, Copy)]
pub enum EndRefusal {
    /// The slot is empty.
    NotStarted,
    /// The slot already has an end.
    Started,
    /// The slot's end is the other one.
    OtherEnd,
    /// A parameter is out of its range.
    BadParams,
    /// There is too little memory.
    NoMemory,
    /// 1,048,576 pictures were coded or played, the most of a run.
    Ended,
    /// The picture hasn't as many bytes as its format asks for.
    WrongLength,
    /// One of the messages for the header is none, or there are more than four.
    BadMessages,
    /// The picture that was coded last has no packet of this number.
    NoPacket,
    /// The packet has more bytes than the room.
    ShortRoom,
    /// The bytes don't begin as a packet of any format does.
    NoStart,
    /// The run has no stream.
    NoStream,
    /// Nobody is at this place of the group.
    NoReceiver,
}

/// Nothing was refused.
pub const OK: u32 = 0;

impl EndRefusal {
    /// Its number, at least 1.
    pub fn number(self) -> u32
        ensures value { result ≡ refusal_number self }
        ensures some { 1 ≤ result }
    {
        match self {
            EndRefusal::NotStarted => 1,
            EndRefusal::Started => 2,
            EndRefusal::OtherEnd => 3,
            EndRefusal::BadParams => 4,
            EndRefusal::NoMemory => 5,
            EndRefusal::Ended => 6,
            EndRefusal::WrongLength => 7,
            EndRefusal::BadMessages => 8,
            EndRefusal::NoPacket => 9,
            EndRefusal::ShortRoom => 10,
            // 11 and 12 are the header's own.
            EndRefusal::NoStart => 13,
            EndRefusal::NoStream => 14,
            EndRefusal::NoReceiver => 15,
        }
    }
}
