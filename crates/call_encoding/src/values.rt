//! A type of the program whose values are frames. A law that speaks of any frames is called with
//! it; nothing is made of it.
use back_messages::Message;
use call_decoding::Pictured;
use std::marker::Model;

/// A frame with its messages.
pub struct Framed {
    picture: Pictured,
    messages: Vec<Message>,
}

impl Model for Framed {
    ghost use Rattle.call_encoding.specs.Frames.{Frame};

    ghost Value = { Frame };

    ghost view = { λ f. record { picture = f.picture; messages = f.messages.items } };
}
