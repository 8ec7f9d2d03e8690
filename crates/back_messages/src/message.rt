//! A message, and the ways in which bytes are none.
use thiserror::Error;

/// An acknowledgement of the picture with temporal reference `tr`, or the loss of it with `rtr` as
/// the reference that is asked for. A temporal reference is at most 255, or 1,023 with a custom
/// picture clock. In a message of version 2 bit j of `marks`, below 16,384, says that the picture
/// after `tr` by j + 1 is complete.
#[derive(Clone, Copy, Debug, PartialEq, Eq)]
pub enum Message {
    Ack {
        tr: u16,
        marks: Option<u16>,
    },
    Nack {
        tr: u16,
        rtr: u16,
        marks: Option<u16>,
    },
}

impl Message {
    ghost use Rattle.std.specs.Prelude.{◌≡◌};
    ghost use Rattle.back_messages.specs.Text.{message_marks};

    /// The marks of a message of version 2.
    pub fn marks(&self) -> Option<u16>
        ensures { result ≡ message_marks self.now }
    {
        match *self {
            Message::Ack { tr: _, marks } => marks,
            Message::Nack {
                tr: _,
                rtr: _,
                marks,
            } => marks,
        }
    }
}

/// Why bytes are no message, in the order in which it is looked for.
#[derive(Clone, Copy, Debug, PartialEq, Eq, Error)]
pub enum MessageFault {
    /// Neither three nor five bytes, or the other number of them than URF says.
    #[error("Length")]
    Length,
    /// Neither an acknowledgement nor its opposite.
    #[error("Kind")]
    Kind,
    /// A temporal reference above 255, in the standard clock.
    #[error("High")]
    High,
    /// A marker bit is 0.
    #[error("Marker")]
    Marker,
    /// An acknowledgement whose second temporal reference is not its first.
    #[error("Pair")]
    Pair,
}
