//! Calls by hand: each row is a script of what is done and what comes of it.
//!
//! `capture:VALUE` codes a frame of one value, and says the reference of its picture. `deliver:N` hands
//! packet N to the receiver and `packet:BYTES` these bytes; a picture that is complete says its
//! message. `play` says the picture's number, its mark, its reference, and its message. `back:N` takes
//! message N back, `feedback:BYTES` these bytes. `shown:PLACE` says a byte of the picture on the
//! screen, `same:N,M` whether two packets have the same bytes, `counts` what was sent and played.
//! `restart` begins both ends anew in the memory that they have. `lose:N` so often codes a picture and
//! plays it, its packets lost, and says how many are held; `follow:N` has so many arrive, each known
//! before the next one is coded, and says how many refer to the one before. Packets and messages are
//! counted over the whole call.
ghost use Rattle.std.specs.Prelude.{◌≡◌, IfOk, length};
ghost use Rattle.h263_types.specs.Params.{IsParams};

use back_messages::Said;
use h263_planes::PictureRef;
use h263_types::{Clock, FixedPace, Format, Mark, OutOfMemory, Params};
use receiver_end::{Heard, Receiver};
use sender_end::{Feedback, Sender};
use std::alloc::Global;
use test_fixtures::answer::{Answer, Asked, NO_MEMORY, WRONG, call_of};
use test_fixtures::bits::Names;

// A window of two pictures.
const NARROW: Params = Params {
    format: Format::SubQcif,
    quant: 8,
    keep: 64,
    radius: 1,
    limit: 1400,
    slots: 4,
    lead: 1,
    messages: 1,
    clock: Clock::Standard,
};

// One of three pictures.
const WIDE: Params = Params {
    slots: 6,
    lead: 2,
    ..NARROW
};

/// The parameters of a call by their name.
pub fn params_of(name: &str, answer: &mut Answer) -> Params
    ensures { IsParams result }
{
    match name {
        "narrow" => NARROW,
        "five_slots" => Params { slots: 5, ..NARROW },
        "custom" => Params {
            clock: Clock::Custom,
            radius: 0,
            ..NARROW
        },
        "wide" => WIDE,
        "flagged" => Params {
            messages: 2,
            ..WIDE
        },
        "sub-qcif" => Params::of(Format::SubQcif),
        "qcif" => Params::of(Format::Qcif),
        "cif" => Params::of(Format::Cif),
        "near" => Params {
            radius: 1,
            ..Params::of(Format::SubQcif)
        },
        "near_cif" => Params {
            radius: 1,
            ..Params::of(Format::Cif)
        },
        _ => {
            answer.why = WRONG;
            NARROW
        }
    }
}

// Both ends, and all packets and messages so far.
struct Ends {
    sender: Sender<FixedPace>,
    receiver: Receiver,
    format: Format,
    packets: Vec<Vec<u8>>,
    messages: Vec<Said>,
}

impl Ends {
    fn start(alloc: Global, params: &Params) -> Result<Ends, OutOfMemory>
        requires { IsParams params.now }
        ensures format { IfOk result (λ ends. ends.format ≡ ends.sender.params.format) }
    {
        let pace = FixedPace {
            quant: params.quant,
        };
        let sender = Sender::start(alloc, params, pace)?;
        match Receiver::start(alloc, params) {
            Err(OutOfMemory) => {
                sender.finish();
                Err(OutOfMemory)
            }
            Ok(receiver) => Ok(Ends {
                sender,
                receiver,
                format: params.format,
                packets: Vec::new(alloc),
                messages: Vec::new(alloc),
            }),
        }
    }

    fn finish(self) {
        let Ends {
            sender,
            receiver,
            format: _,
            packets: _,
            messages: _,
        } = self;
        sender.finish();
        receiver.finish();
    }

    // Adds the packets of the last picture. Answers whether there was memory for them.
    fn send(&mut self, alloc: Global, count: u32) -> bool
        requires { count ≡ length self.old.sender.packets }
        ensures sender { self.new.sender ≡ self.old.sender }
        ensures format { self.new.format ≡ self.old.format }
    {
        let mut kept = true;
        'packets: for i in 0..count {
            match Vec::from_slice(alloc, self.sender.packet(i)) {
                Ok(packet) => kept = self.packets.push(packet).is_ok() && kept,
                Err(_) => kept = false,
            }
        }
        kept
    }

    // The next picture: its reference. No call here is long.
    fn capture(&mut self, alloc: Global, value: u32, answer: &mut Answer) -> Option<u32>
        requires format { self.old.format ≡ self.old.sender.params.format }
        ensures format { self.new.format ≡ self.new.sender.params.format }
    {
        if self.sender.sent() >= 1000 || value > 255 {
            answer.why = WRONG;
            return None;
        }
        let Ok(frame) = vec![in alloc; value as u8; self.format.size() as usize] else {
            answer.why = NO_MEMORY;
            return None;
        };
        let frame = PictureRef::new(self.format, frame.as_slice());
        let coded = self.sender.code(frame, &[]);
        if !self.send(alloc, coded.packets) {
            answer.why = NO_MEMORY;
        }
        coded.reference
    }

    // What a packet is answered, nothing if there is none.
    fn deliver(&mut self, packet: usize) -> Option<Heard>
        ensures sender { self.new.sender ≡ self.old.sender }
        ensures format { self.new.format ≡ self.old.format }
    {
        match self.packets.get(packet) {
            None => None,
            Some(bytes) => Some(self.receiver.packet(bytes.as_slice())),
        }
    }

    // Keeps a message. Answers whether there was memory for it.
    fn keep(&mut self, said: Said) -> bool
        ensures sender { self.new.sender ≡ self.old.sender }
        ensures format { self.new.format ≡ self.old.format }
    {
        self.messages.push(said).is_ok()
    }

    // Keeps a message, and says it.
    fn keep_said(&mut self, said: Said, answer: &mut Answer)
        ensures sender { self.new.sender ≡ self.old.sender }
        ensures format { self.new.format ≡ self.old.format }
    {
        if !self.keep(said) {
            answer.why = NO_MEMORY;
        }
        answer.say_bytes(said.text());
    }

    fn say_heard(&mut self, heard: Heard, answer: &mut Answer)
        ensures sender { self.new.sender ≡ self.old.sender }
        ensures format { self.new.format ≡ self.old.format }
    {
        match heard {
            Heard::Completed(said) => {
                answer.add(" Completed");
                self.keep_said(said, answer);
            }
            other => answer.say(&other),
        }
    }

    fn say_delivered(&mut self, packet: usize, answer: &mut Answer)
        ensures sender { self.new.sender ≡ self.old.sender }
        ensures format { self.new.format ≡ self.old.format }
    {
        match self.deliver(packet) {
            None => answer.why = WRONG,
            Some(heard) => self.say_heard(heard, answer),
        }
    }

    // Plays the next picture. Answers whether it is held.
    fn play(&mut self, answer: &mut Answer) -> bool
        ensures sender { self.new.sender ≡ self.old.sender }
        ensures format { self.new.format ≡ self.old.format }
    {
        if self.receiver.played() >= 1000 {
            answer.why = WRONG;
            return false;
        }
        let played = self.receiver.play();
        answer.say(&(played.number, played.mark, played.reference));
        if let Some(said) = played.message {
            self.keep_said(said, answer);
        }
        played.mark == Mark::Held
    }

    fn back(&mut self, message: usize, answer: &mut Answer)
        requires format { self.old.format ≡ self.old.sender.params.format }
        ensures format { self.new.format ≡ self.new.sender.params.format }
    {
        match self.messages.get(message) {
            None => answer.why = WRONG,
            Some(said) => answer.say(&self.sender.feedback(said.text())),
        }
    }

    // Whether two packets have the same bytes.
    fn same(&self, packet: u32, other: u32) -> bool {
        let Some(bytes) = self.packets.get(packet as usize) else {
            return false;
        };
        match self.packets.get(other as usize) {
            None => false,
            Some(others) => bytes.as_slice() == others.as_slice(),
        }
    }

    // Loses so many pictures, and says how many are held.
    fn lose(&mut self, alloc: Global, times: u32, answer: &mut Answer)
        requires format { self.old.format ≡ self.old.sender.params.format }
        ensures format { self.new.format ≡ self.new.sender.params.format }
    {
        let mut held: u32 = 0;
        let mut unsaid = Answer::new(alloc);
        'times: for _time in 0..times {
            self.capture(alloc, 100, &mut unsaid);
            if self.play(&mut unsaid) {
                held = held.saturating_add(1);
            }
        }
        answer.refuse_as(&unsaid);
        answer.say(&held);
    }

    // Whether the next picture refers to the one before it and is complete, and its message is noted.
    fn follow_one(&mut self, alloc: Global, answer: &mut Answer) -> bool
        requires format { self.old.format ≡ self.old.sender.params.format }
        ensures format { self.new.format ≡ self.new.sender.params.format }
    {
        let sent = self.sender.sent();
        let refers = self.capture(alloc, 100, answer) == sent.checked_sub(1);
        let last = self.packets.len().saturating_sub(1);
        let Some(Heard::Completed(said)) = self.deliver(last) else {
            return false;
        };
        let kept = self.keep(said);
        let noted = self.sender.feedback(said.text()) == Feedback::Noted;
        refers && kept && noted
    }

    // Whether the next picture is exact, and says nothing more.
    fn play_exact(&mut self) -> bool
        ensures sender { self.new.sender ≡ self.old.sender }
        ensures format { self.new.format ≡ self.old.format }
    {
        let number = self.receiver.played();
        if number >= 1000 {
            return false;
        }
        let played = self.receiver.play();
        let exact = played.number == number && played.mark == Mark::Exact;
        exact && played.message.is_none()
    }

    fn follow(&mut self, alloc: Global, times: u32, answer: &mut Answer)
        requires format { self.old.format ≡ self.old.sender.params.format }
        ensures format { self.new.format ≡ self.new.sender.params.format }
    {
        let mut right: u32 = 0;
        'times: for _time in 0..times {
            let follows = self.follow_one(alloc, answer);
            if self.play_exact() && follows {
                right = right.saturating_add(1);
            }
        }
        answer.say(&right);
    }

    fn restart(&mut self)
        requires format { self.old.format ≡ self.old.sender.params.format }
        ensures format { self.new.format ≡ self.new.sender.params.format }
    {
        self.sender.restart(FixedPace { quant: 8 });
        self.receiver.restart(0);
    }

    // Takes bytes from outside.
    fn take(&mut self, call: &str, bytes: &[u8], answer: &mut Answer)
        requires format { self.old.format ≡ self.old.sender.params.format }
        ensures format { self.new.format ≡ self.new.sender.params.format }
    {
        match call {
            "packet" => {
                let heard = self.receiver.packet(bytes);
                self.say_heard(heard, answer);
            }
            _ => answer.say(&self.sender.feedback(bytes)),
        }
    }

    // Does a step that has a number.
    fn number_step(&mut self, alloc: Global, call: &str, number: u32, answer: &mut Answer)
        requires format { self.old.format ≡ self.old.sender.params.format }
        ensures format { self.new.format ≡ self.new.sender.params.format }
    {
        match call {
            "capture" => {
                let reference = self.capture(alloc, number, answer);
                answer.say(&reference);
            }
            "deliver" => self.say_delivered(number as usize, answer),
            "back" => self.back(number as usize, answer),
            "shown" => answer.say(&self.receiver.shown().bytes().get(number as usize)),
            "lose" => self.lose(alloc, number, answer),
            "follow" => self.follow(alloc, number, answer),
            _ => answer.why = WRONG,
        }
    }

    fn step(&mut self, alloc: Global, names: &Names, word: &str, answer: &mut Answer)
        requires format { self.old.format ≡ self.old.sender.params.format }
        ensures format { self.new.format ≡ self.new.sender.params.format }
    {
        let (call, rest) = call_of(word);
        match call {
            "packet" | "feedback" => {
                let bytes = answer.bytes(alloc, names, rest);
                self.take(call, bytes.as_slice(), answer);
            }
            "play" => {
                self.play(answer);
            }
            "same" => {
                let (packet, other) = answer.pair(rest, u32::MAX);
                answer.say(&self.same(packet, other));
            }
            "counts" => answer.say(&(self.sender.sent(), self.receiver.played())),
            "restart" => self.restart(),
            _ => {
                let number = answer.number(rest, u32::MAX);
                self.number_step(alloc, call, number, answer);
            }
        }
    }

    fn steps(&mut self, alloc: Global, asked: &mut Asked<'_>, answer: &mut Answer)
        requires format { self.old.format ≡ self.old.sender.params.format }
    {
        let names = asked.names;
        'steps: for word in asked.words.by_ref() {
            self.step(alloc, names, word, answer);
        }
    }
}

/// A call with the parameters of this name.
pub fn answer(alloc: Global, call: &str, asked: &mut Asked<'_>, answer: &mut Answer) {
    let params = params_of(call, answer);
    let Ok(mut ends) = Ends::start(alloc, &params) else {
        answer.why = NO_MEMORY;
        return;
    };
    ends.steps(alloc, asked, answer);
    ends.finish();
}
