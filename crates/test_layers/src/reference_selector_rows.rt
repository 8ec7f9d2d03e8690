//! The window, what messages make known, the limit of a chain, and both clocks.
//!
//! `coded:NUMBER,DEPTH`, `choose:NUMBER`, `knows:NUMBER`, `depth:NUMBER`; `ack:TR,SENT`,
//! `flags:TR,SENT,FLAGS` and `nack:TR,SENT,RTR` note a message; `nearest:TR,SENT` says the picture.
ghost use Rattle.h263_types.specs.Params.{IsParams};

use back_messages::Message;
use h263_types::{Clock, Format, Params};
use reference_selector::{Selector, nearest_below};
use test_fixtures::answer::{Answer, Asked, WRONG, call_of};

// Slots 4 and lead 1, a window of two pictures; or the default, by both clocks.
fn params_of(name: &str, answer: &mut Answer) -> Params
    ensures { IsParams result }
{
    let params = Params::of(Format::Qcif);
    match name {
        "window" => Params {
            slots: 4,
            lead: 1,
            ..params
        },
        "standard" => params,
        "custom" => Params {
            clock: Clock::Custom,
            ..params
        },
        _ => {
            answer.why = WRONG;
            params
        }
    }
}

// A message with a temporal reference: an acknowledgement, one with flags, or a NACK.
fn message_of(call: &str, tr: u16, last: &str, answer: &mut Answer) -> Message {
    match call {
        "ack" => Message::Ack { tr, marks: None },
        "flags" => Message::Ack {
            tr,
            marks: Some(answer.number(last, 65_535) as u16),
        },
        "nack" => Message::Nack {
            tr,
            rtr: answer.number(last, 65_535) as u16,
            marks: None,
        },
        _ => {
            answer.why = WRONG;
            Message::Ack { tr, marks: None }
        }
    }
}

fn note(selector: &mut Selector, call: &str, rest: &str, answer: &mut Answer) {
    let (tr, rest) = rest.split_once(',').unwrap_or((rest, ""));
    let (sent, last) = rest.split_once(',').unwrap_or((rest, ""));
    let tr = answer.number(tr, 65_535) as u16;
    let sent = answer.number(sent, 999);
    let message = message_of(call, tr, last, answer);
    answer.say(&selector.note(&message, sent));
}

// Does what is asked of a picture by its number.
fn ask(selector: &Selector, call: &str, number: u32, answer: &mut Answer) {
    match call {
        "choose" => answer.say(&selector.choose(number)),
        "knows" => answer.say(&selector.knows(number)),
        _ => answer.say(&selector.depth(number)),
    }
}

fn step(selector: &mut Selector, clock: Clock, word: &str, answer: &mut Answer) {
    let (call, rest) = call_of(word);
    match call {
        "coded" => {
            let (number, depth) = answer.pair(rest, u32::MAX);
            selector.coded(number, depth.min(255) as u8);
        }
        "choose" | "knows" | "depth" => {
            let number = answer.number(rest, u32::MAX);
            ask(selector, call, number, answer);
        }
        "nearest" => {
            let (tr, sent) = answer.pair(rest, 999);
            answer.say(&nearest_below(sent, tr as u16, clock));
        }
        _ => note(selector, call, rest, answer),
    }
}

/// A selector with the parameters of this name.
pub fn answer(call: &str, asked: &mut Asked<'_>, answer: &mut Answer) {
    let params = params_of(call, answer);
    let mut selector = Selector::start(&params);
    for word in asked.words.by_ref() {
        step(&mut selector, params.clock, word, answer);
    }
}
