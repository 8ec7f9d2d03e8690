//! The ends of two parties by hand: messages that ride in picture headers.
//!
//! Each step begins with its party. `send:VALUE` sends a frame of one value; `lose:N` sends and plays so
//! many, their packets lost, and says how many are held; `all:N` delivers the packets of picture N, and
//! `packet:N,PLACE` one; `play` says the mark; `check:N` whether packets of picture N may be delivered;
//! `carries:N` the messages in its header; `refers:N` its reference.
ghost use Rattle.std.specs.Prelude.{◌≡◌, IfOk};
ghost use Rattle.h263_types.specs.Params.{IsParams};
ghost use Rattle.h263_types.specs.declared.params.Params.{Params};
ghost use Rattle.h263_types.specs.declared.format.Format.TheVariants.{SubQcif};
ghost use Rattle.back_messages.specs.Text.{IsMessage};
ghost use Rattle.duplex_ends.specs.declared.party.PartyEnds.{PartyEnds};
ghost use Rattle.duplex_ends.specs.Pair.{AreInCall};

use crate::duplex_call_rows::party_of;
use back_messages::{Message, read};
use duplex_call::Party;
use duplex_ends::{
    PartyEnds, check_delivery, check_play, check_send, deliver, deliver_all, laws, play,
};
use h263_planes::PictureRef;
use h263_types::{FixedPace, Format, Mark, OutOfMemory, Params};
use sender_end::Sender;
use std::alloc::Global;
use test_fixtures::answer::{Answer, Asked, NO_MEMORY, WRONG, call_of};

fn send(alloc: Global, own: &mut PartyEnds, far: &PartyEnds, value: u32, answer: &mut Answer)
    requires { AreInCall own.old far.now }
    ensures { AreInCall own.new far.now }
{
    let format = own.params.format;
    if value > 255 {
        answer.why = WRONG;
        return;
    }
    if own.sent() >= 1000 {
        answer.why = WRONG;
        return;
    }
    let Ok(frame) = vec![in alloc; value as u8; format.size() as usize] else {
        answer.why = NO_MEMORY;
        return;
    };
    match check_send(own) {
        Ok(()) => {
            own.send(PictureRef::new(format, frame.as_slice()));
        }
        Err(_) => answer.why = WRONG,
    }
}

// Plays the next picture, if it may be. Answers its mark.
fn play_next(own: &mut PartyEnds, far: &mut PartyEnds, answer: &mut Answer) -> Option<Mark>
    requires { AreInCall own.old far.old }
    ensures { AreInCall own.new far.new }
{
    match check_play(own) {
        Ok(()) => Some(play(own, far).mark),
        Err(_) => {
            answer.why = WRONG;
            None
        }
    }
}

// Loses so many pictures, and says how many are held.
fn lose(alloc: Global, own: &mut PartyEnds, far: &mut PartyEnds, times: u32, answer: &mut Answer)
    requires { AreInCall own.old far.old }
    ensures { AreInCall own.new far.new }
{
    let mut held: u32 = 0;
    'times: for _time in 0..times {
        send(alloc, own, far, 100, answer);
        if play_next(own, far, answer) == Some(Mark::Held) {
            held = held.saturating_add(1);
        }
    }
    answer.say(&held);
}

fn bring_all(own: &mut PartyEnds, far: &mut PartyEnds, number: u32, answer: &mut Answer)
    requires { AreInCall own.old far.old }
    ensures { AreInCall own.new far.new }
{
    match check_delivery(own, far, number) {
        Ok(()) => {
            deliver_all(own, far, number);
        }
        Err(_) => answer.why = WRONG,
    }
}

fn bring_one(own: &mut PartyEnds, far: &mut PartyEnds, number: u32, place: u32, answer: &mut Answer)
    requires { AreInCall own.old far.old }
    ensures { AreInCall own.new far.new }
{
    match check_delivery(own, far, number) {
        Ok(()) => {
            deliver(own, far, number, place);
        }
        Err(_) => answer.why = WRONG,
    }
}

// Says what is asked about picture `number`.
fn ask(own: &PartyEnds, far: &PartyEnds, call: &str, number: u32, answer: &mut Answer)
    requires { AreInCall own.now far.now }
{
    match call {
        "check" => answer.say(&check_delivery(own, far, number)),
        "carries" => answer.say(&own.carried.get(number).as_slice()),
        "refers" => answer.say(&own.way.reference_of(number)),
        _ => answer.why = WRONG,
    }
}

// Takes a step that has a number.
fn number_step(
    alloc: Global,
    own: &mut PartyEnds,
    far: &mut PartyEnds,
    call: &str,
    number: u32,
    answer: &mut Answer,
)
    requires { AreInCall own.old far.old }
    ensures { AreInCall own.new far.new }
{
    match call {
        "send" => send(alloc, own, far, number, answer),
        "lose" => lose(alloc, own, far, number, answer),
        "all" => bring_all(own, far, number, answer),
        _ => ask(own, far, call, number, answer),
    }
}

fn take(alloc: Global, own: &mut PartyEnds, far: &mut PartyEnds, word: &str, answer: &mut Answer)
    requires { AreInCall own.old far.old }
    ensures { AreInCall own.new far.new }
{
    let (call, rest) = call_of(word);
    match call {
        "packet" => {
            let (number, place) = answer.pair(rest, u32::MAX);
            bring_one(own, far, number, place, answer);
        }
        "play" => match play_next(own, far, answer) {
            Some(mark) => answer.say(&mark),
            None => {}
        },
        _ => {
            let number = answer.number(rest, u32::MAX);
            number_step(alloc, own, far, call, number, answer);
        }
    }
}

// The ends of both parties. They must be finished.
struct Two {
    a: PartyEnds,
    b: PartyEnds,
}

impl Two {
    fn start(alloc: Global, params: &Params) -> Result<Two, OutOfMemory>
        requires { IsParams params.now }
        ensures { IfOk result (λ two. AreInCall two.a two.b) }
    {
        laws::pair_laws();
        let a = PartyEnds::start(alloc, params)?;
        match PartyEnds::start(alloc, params) {
            Ok(b) => Ok(Two { a, b }),
            Err(OutOfMemory) => {
                a.finish();
                Err(OutOfMemory)
            }
        }
    }

    fn step(&mut self, alloc: Global, party: Party, word: &str, answer: &mut Answer)
        requires { AreInCall self.old.a self.old.b }
        ensures { AreInCall self.new.a self.new.b }
    {
        laws::pair_laws();
        match party {
            Party::A => take(alloc, &mut self.a, &mut self.b, word, answer),
            Party::B => take(alloc, &mut self.b, &mut self.a, word, answer),
        }
    }

    fn steps(&mut self, alloc: Global, asked: &mut Asked<'_>, answer: &mut Answer)
        requires { AreInCall self.old.a self.old.b }
    {
        'steps: for word in asked.words.by_ref() {
            let (party, step) = call_of(word);
            let party = party_of(party, answer);
            self.step(alloc, party, step, answer);
        }
    }

    fn finish(self) {
        let Two { a, b } = self;
        a.finish();
        b.finish();
    }
}

// The first picture of a sender, flat 100 with this message in its header: says how many packets it
// has, how many bytes the first one, and how its data begins.
fn say_first(alloc: Global, sender: &mut Sender<FixedPace>, message: Message, answer: &mut Answer)
    requires message { IsMessage sender.old.params.clock message }
    requires sent { sender.old.sent ≡ 0 }
    requires format { sender.old.params.format ≡ SubQcif }
{
    let format = Format::SubQcif;
    let Ok(frame) = vec![in alloc; 100; format.size() as usize] else {
        answer.why = NO_MEMORY;
        return;
    };
    let coded = sender.code(PictureRef::new(format, frame.as_slice()), &[message]);
    answer.say(&coded.packets);
    if coded.packets != 1 {
        return;
    }
    let packet = sender.packet(0);
    answer.say(&packet.len());
    answer.say_bytes(packet.get(14..28).unwrap_or(&[]));
}

fn acknowledged(alloc: Global, answer: &mut Answer) {
    let params = Params::of(Format::SubQcif);
    let Ok(message) = read(&[0xC0, 0x04, 0x00], params.clock) else {
        answer.why = WRONG;
        return;
    };
    let pace = FixedPace {
        quant: params.quant,
    };
    let Ok(mut sender) = Sender::start(alloc, &params, pace) else {
        answer.why = NO_MEMORY;
        return;
    };
    say_first(alloc, &mut sender, message, answer);
    sender.finish();
}

/// Answers a row of `duplex_ends.rows`: does the call of this name by the words after it.
pub fn answer(alloc: Global, call: &str, asked: &mut Asked<'_>, answer: &mut Answer) {
    match call {
        "call" => {
            let Ok(mut two) = Two::start(alloc, &Params::of(Format::SubQcif)) else {
                answer.why = NO_MEMORY;
                return;
            };
            two.steps(alloc, asked, answer);
            two.finish();
        }
        "acknowledged" => acknowledged(alloc, answer),
        _ => answer.why = WRONG,
    }
}
