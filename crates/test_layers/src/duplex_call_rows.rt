//! Lines with a party's letter, the messages that wait for a header, and the counts of two parties.
use back_messages::Message;
use duplex_call::{Carried, Carrier, Counts, Party, party_line};
use std::alloc::Global;
use test_fixtures::answer::{Answer, Asked, NO_MEMORY, WRONG, call_of};

// A line, in which `_` is a blank and `^` a tab; `$` is nothing.
fn line(alloc: Global, word: &str, answer: &mut Answer) {
    let mut text = Vec::new(alloc);
    for byte in word.bytes() {
        let meant = match byte {
            b'_' => b' ',
            b'^' => b'\t',
            _ => byte,
        };
        if byte != b'$' && text.push(meant).is_err() {
            answer.why = NO_MEMORY;
        }
    }
    answer.say(&party_line(text.as_slice()));
}

// Says acknowledgements to a carrier, and what each load has.
fn carrier(asked: &mut Asked<'_>, answer: &mut Answer) {
    let mut queue = Carrier::new();
    for word in asked.words.by_ref() {
        if word == "load" {
            answer.say(&queue.load().as_slice());
        } else {
            let number = answer.number(word, 65_535);
            let message = Message::Ack {
                tr: number as u16,
                marks: None,
            };
            queue.say(Carried {
                about: number,
                message,
            });
        }
    }
}

/// A party by its letter.
pub fn party_of(word: &str, answer: &mut Answer) -> Party {
    match word {
        "a" => Party::A,
        "b" => Party::B,
        _ => {
            answer.why = WRONG;
            Party::B
        }
    }
}

// What may come of the party's picture of this number.
fn count_of(counts: &mut Counts, party: Party, word: &str, answer: &mut Answer) {
    let (call, rest) = call_of(word);
    let number = answer.number(rest, 1000);
    if number >= counts.sent(party) {
        answer.why = WRONG;
        return;
    }
    match call {
        "heard" => answer.say(&counts.heard(party, number)),
        "packet" => answer.say(&counts.packet(party, number)),
        _ => answer.why = WRONG,
    }
}

// What a party sends and plays, and what may come.
fn count(counts: &mut Counts, party: Party, step: &str, answer: &mut Answer) {
    match step {
        "send" => {
            if counts.sent(party) >= 1000 {
                answer.why = WRONG;
            } else {
                answer.say(&counts.send(party));
            }
        }
        "play" => {
            if counts.played(party) >= counts.sent(party) {
                answer.why = WRONG;
            } else {
                counts.play(party);
            }
        }
        "counts" => answer.say(&(counts.sent(party), counts.played(party))),
        _ => count_of(counts, party, step, answer),
    }
}

fn count_all(asked: &mut Asked<'_>, answer: &mut Answer) {
    let mut counts = Counts::new(asked.clock());
    for word in asked.words.by_ref() {
        let (party, step) = call_of(word);
        let party = party_of(party, answer);
        count(&mut counts, party, step, answer);
    }
}

/// Answers a row of `duplex_call.rows`: does the call of this name by the words after it.
pub fn answer(alloc: Global, call: &str, asked: &mut Asked<'_>, answer: &mut Answer) {
    match call {
        "line" => line(alloc, asked.word(), answer),
        "carrier" => carrier(asked, answer),
        "counts" => count_all(asked, answer),
        _ => answer.why = WRONG,
    }
}
