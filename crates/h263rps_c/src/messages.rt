//! Messages that C hands over for a picture's header.
ghost use Rattle.std.specs.Prelude.{◌≡◌, ◌==◌, ◌||◌, ◌≤◌, IfSome, length, take};
ghost use Rattle.std.specs.Option.{option_map};
ghost use Rattle.picture_header.specs.Ranges.{AreMessages};
ghost use Rattle.h263rps_c.specs.Messages.{IsMessagePlace, messages_of, said_place, text_in};

use crate::answers::CMessage;
use back_messages::{Message, read};
use h263_types::Clock;

/// Up to four messages: the first `count`.
#[derive(Clone, Copy)]
pub struct Messages {
    places: [Message; 4],
    count: usize,
}

impl Messages {
    /// The messages.
    pub fn as_slice(&self) -> &[Message]
        ensures { result.now ≡ take self.now.count self.now.places }
    {
        let count = self.count.min(4);
        &self.places[..count]
    }
}

/// What is in a place for a message.
#[derive(Clone, Copy)]
pub enum Place {
    Empty,
    Says(Message),
    /// What is no message.
    Wrong,
}

impl CMessage {
    // Its bytes, of which there are at most five.
    fn text(&self) -> &[u8]
        ensures { result.now ≡ text_in self.now }
    {
        let length = self.length.min(5) as usize;
        &self.bytes[..length]
    }

    fn has_length(&self) -> bool
        ensures { result ≡ (self.now.length == 3) || (self.now.length == 5) }
    {
        self.length == 3 || self.length == 5
    }

    // What is in it by a clock.
    fn says(&self, clock: Clock) -> Place
        ensures value { result ≡ said_place clock self.now }
        ensures in_range { IsMessagePlace clock result }
    {
        if self.length == 0 {
            return Place::Empty;
        }
        if !self.has_length() {
            return Place::Wrong;
        }
        match read(self.text(), clock) {
            Err(_) => Place::Wrong,
            Ok(message) => Place::Says(message),
        }
    }
}

/// The messages by a clock, if each place that isn't empty has one.
pub fn messages_from(back: &[CMessage], clock: Clock) -> Option<Messages>
    requires { length back.now ≤ 4 }
    ensures value { option_map (λ messages. take messages.count messages.places) result
        ≡ messages_of clock back.now }
    ensures in_range { IfSome result (λ messages.
        AreMessages clock (take messages.count messages.places)) }
{
    let nothing = Message::Ack { tr: 0, marks: None };
    let mut places = [nothing; 4];
    let mut count = 0;
    'messages: for place in 0..back.len() {
        match back[place].says(clock) {
            Place::Empty => {}
            Place::Wrong => return None,
            Place::Says(message) => {
                places[count] = message;
                count += 1;
            }
        }
    }
    Some(Messages { places, count })
}
