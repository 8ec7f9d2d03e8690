//! What a sender answers.
use back_messages::MessageFault;

/// A picture that was coded: its number, that of the picture it refers to, if it does, and how many
/// packets it has.
#[derive(Clone, Copy, Debug, PartialEq, Eq)]
pub struct Coded {
    pub number: u32,
    pub reference: Option<u32>,
    pub packets: u32,
}

/// What became of feedback.
#[derive(Clone, Copy, Debug, PartialEq, Eq)]
pub enum Feedback {
    /// Its pictures are known.
    Noted,
    /// It is about a picture that lies half a period back or more, or was not sent.
    Old,
    /// It is no message.
    Refused(MessageFault),
}
