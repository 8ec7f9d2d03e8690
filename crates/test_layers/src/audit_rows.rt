//! Audits of logs: pictures by their temporal references.
//!
//! `intra:TR` is the two packets of an intra picture, `first:TR` and `second:TR` one of them, `quant:TR`
//! the second one with another quantiser in its header; `predicted:TR,TRP` a picture of one packet;
//! `follow:TR,COUNT` so many predicted pictures, each of which refers to the one before it, of which an
//! ACK has come; `other` a packet of picture 0 by the other clock; `packet:BYTES`; `ack:TR`,
//! `flags:TR,FLAGS`, `nack:TR,RTR` and `feedback:BYTES`.
ghost use Rattle.std.specs.Prelude.{◌≡◌, ◌≤◌, length};
ghost use Rattle.h263_types.specs.Params.{IsParams};
ghost use Rattle.h263_planes.specs.Lent.{picture};
ghost use Rattle.h263_types.specs.declared.clock.Clock.TheVariants.{Custom};
ghost use Rattle.back_messages.specs.Text.{IsMessage};

use crate::lines::say_line;
use back_messages::{Message, write};
use h263_planes::PictureRef;
use h263_types::{Clock, FixedPace, Format, OutOfMemory, Params};
use sender_end::Sender;
use std::alloc::Global;
use stream_audit::{Audit, Rule, Verdict, verdict_text};
use test_fixtures::answer::{Answer, Asked, NO_MEMORY, WRONG, call_of};
use test_fixtures::bits::Names;

// Packets of CIF by a clock: the two of picture 0, which is intra, and that of picture 1, which
// refers to it.
#[derive(Drop)]
struct Packets {
    clock: Clock,
    first: Vec<u8>,
    second: Vec<u8>,
    predicted: Vec<u8>,
}

// What the logs of a clock are made of: its packets, and those of the other clock.
#[derive(Drop)]
struct Source {
    own: Packets,
    other: Packets,
}

// A window of two pictures.
fn params_by(clock: Clock) -> Params
    ensures { IsParams result }
{
    Params {
        slots: 4,
        lead: 1,
        radius: 0,
        clock,
        ..Params::of(Format::Cif)
    }
}

fn coded_by(
    alloc: Global,
    clock: Clock,
    sender: &mut Sender<FixedPace>,
    frame: PictureRef<'_>,
) -> Result<Packets, OutOfMemory>
    requires frame { (picture frame).format ≡ sender.old.params.format }
    requires new { sender.old.sent ≡ 0 }
{
    let mut packets = Packets {
        clock,
        first: Vec::new(alloc),
        second: Vec::new(alloc),
        predicted: Vec::new(alloc),
    };
    if sender.code(frame, &[]).packets == 2 {
        packets.first = Vec::from_slice(alloc, sender.packet(0))?;
        packets.second = Vec::from_slice(alloc, sender.packet(1))?;
    }
    sender.feedback(&[0xC0, 0x04, 0x00]);
    if sender.code(frame, &[]).packets == 1 {
        packets.predicted = Vec::from_slice(alloc, sender.packet(0))?;
    }
    Ok(packets)
}

fn packets_by(alloc: Global, clock: Clock) -> Result<Packets, OutOfMemory> {
    let params = params_by(clock);
    let samples = vec![in alloc; 100; params.format.size() as usize]?;
    let frame = PictureRef::new(params.format, samples.as_slice());
    let mut sender = Sender::start(alloc, &params, FixedPace { quant: 8 })?;
    let packets = coded_by(alloc, clock, &mut sender, frame);
    sender.finish();
    packets
}

fn source_by(alloc: Global, clock: Clock) -> Result<Source, OutOfMemory> {
    let other = match clock {
        Clock::Standard => Clock::Custom,
        Clock::Custom => Clock::Standard,
    };
    Ok(Source {
        own: packets_by(alloc, clock)?,
        other: packets_by(alloc, other)?,
    })
}

// Turns those of the bits from one on that are set in a number.
fn turn(bytes: &mut [u8], from: usize, count: usize, number: u16)
    requires from { from ≤ 1000 }
    requires count { count ≤ 16 }
    ensures { length bytes.new ≡ length bytes.old }
{
    'bits: for i in 0..count {
        let at = from + i;
        if at / 8 < bytes.len() {
            let bit = ((number >> (count - 1 - i)) & 1) as u8;
            bytes[at / 8] ^= bit << (7 - at % 8);
        }
    }
}

// The last numbers of a header by the custom clock stand ten bits later.
fn later(clock: Clock) -> usize
    ensures { result ≤ 10 }
{
    match clock {
        Clock::Standard => 0,
        Clock::Custom => 10,
    }
}

// Turns the bits of a temporal reference: the lower eight, and in the custom clock two above them.
fn turn_tr(bytes: &mut [u8], clock: Clock, tr: u16)
    ensures { length bytes.new ≡ length bytes.old }
{
    turn(bytes, 118, 8, tr % 256);
    match clock {
        Clock::Standard => {}
        Clock::Custom => turn(bytes, 173, 2, tr / 256),
    }
}

// No log here is long.
fn give_packet(audit: &mut Audit, bytes: &[u8]) {
    if audit.pictures() < 2000 {
        audit.packet(bytes);
    }
}

// Temporal references have ten bits at most, flags fourteen.
fn ack(tr: u16, flags: Option<u16>) -> Message
    ensures { IsMessage Custom result }
{
    let marks = match flags {
        Some(flags) => Some(flags % 16384),
        None => None,
    };
    Message::Ack {
        tr: tr % 1024,
        marks,
    }
}

fn nack(tr: u16, rtr: u16) -> Message
    ensures { IsMessage Custom result }
{
    Message::Nack {
        tr: tr % 1024,
        rtr: rtr % 1024,
        marks: None,
    }
}

fn tell(audit: &mut Audit, message: &Message)
    requires { IsMessage Custom message.now }
{
    audit.feedback(write(message).text());
}

impl Packets {
    // Gives a packet of picture 0 as one of another picture. Answers whether there was memory for it.
    fn intra(&self, alloc: Global, audit: &mut Audit, base: &[u8], tr: u16) -> bool {
        let Ok(mut packet) = Vec::from_slice(alloc, base) else {
            return false;
        };
        turn_tr(&mut packet, self.clock, tr);
        give_packet(audit, packet.as_slice());
        true
    }

    fn other_quant(&self, alloc: Global, audit: &mut Audit, tr: u16) -> bool {
        let Ok(mut packet) = Vec::from_slice(alloc, self.second.as_slice()) else {
            return false;
        };
        turn_tr(&mut packet, self.clock, tr);
        turn(&mut packet, 175 + later(self.clock), 1, 1);
        give_packet(audit, packet.as_slice());
        true
    }

    fn predicted(&self, alloc: Global, audit: &mut Audit, tr: u16, trp: u16) -> bool {
        let Ok(mut packet) = Vec::from_slice(alloc, self.predicted.as_slice()) else {
            return false;
        };
        turn_tr(&mut packet, self.clock, tr ^ 1);
        turn(&mut packet, 171 + later(self.clock), 10, trp);
        give_packet(audit, packet.as_slice());
        true
    }

    fn follow(&self, alloc: Global, audit: &mut Audit, from: u16, count: u16) -> bool {
        let mut kept = true;
        'pictures: for i in 0..count {
            let tr = from.saturating_add(i);
            let before = tr.saturating_sub(1);
            tell(audit, &ack(before, None));
            kept = self.predicted(alloc, audit, tr, before) && kept;
        }
        kept
    }
}

impl Source {
    // Answers whether there was memory for it.
    fn pictures(&self, alloc: Global, audit: &mut Audit, call: &str, tr: u16, other: u16) -> bool {
        let own = &self.own;
        match call {
            "intra" => {
                own.intra(alloc, audit, own.first.as_slice(), tr)
                    && own.intra(alloc, audit, own.second.as_slice(), tr)
            }
            "first" => own.intra(alloc, audit, own.first.as_slice(), tr),
            "second" => own.intra(alloc, audit, own.second.as_slice(), tr),
            "quant" => own.other_quant(alloc, audit, tr),
            "predicted" => own.predicted(alloc, audit, tr, other),
            _ => own.follow(alloc, audit, tr, other),
        }
    }

    // A picture or a message with its numbers, of which the second may be left out.
    fn numbered(&self, alloc: Global, audit: &mut Audit, word: &str, answer: &mut Answer) {
        let (call, rest) = call_of(word);
        let (tr, other) = rest.split_once(',').unwrap_or((rest, "0"));
        let tr = answer.number(tr, 65_535) as u16;
        let other = answer.number(other, 65_535) as u16;
        match call {
            "ack" => tell(audit, &ack(tr, None)),
            "flags" => tell(audit, &ack(tr, Some(other))),
            "nack" => tell(audit, &nack(tr, other)),
            "intra" | "first" | "second" | "quant" | "predicted" | "follow" => {
                if !self.pictures(alloc, audit, call, tr, other) {
                    answer.why = NO_MEMORY;
                }
            }
            _ => answer.why = WRONG,
        }
    }

    fn take(
        &self,
        alloc: Global,
        audit: &mut Audit,
        names: &Names,
        word: &str,
        answer: &mut Answer,
    ) {
        let (call, rest) = call_of(word);
        match call {
            "other" => give_packet(audit, self.other.first.as_slice()),
            "packet" => {
                let bytes = answer.bytes(alloc, names, rest);
                give_packet(audit, bytes.as_slice());
            }
            "feedback" => {
                let bytes = answer.bytes(alloc, names, rest);
                audit.feedback(bytes.as_slice());
            }
            _ => self.numbered(alloc, audit, word, answer),
        }
    }
}

// Says the verdict on a log.
fn judge(alloc: Global, asked: &mut Asked<'_>, answer: &mut Answer) {
    let Ok(source) = source_by(alloc, asked.clock()) else {
        answer.why = NO_MEMORY;
        return;
    };
    let Ok(mut audit) = Audit::start(alloc, &params_by(source.own.clock)) else {
        answer.why = NO_MEMORY;
        return;
    };
    let names = asked.names;
    'entries: for word in asked.words.by_ref() {
        source.take(alloc, &mut audit, names, word, answer);
    }
    answer.say(&audit.close());
}

// The line of a verdict.
fn line(asked: &mut Asked<'_>, answer: &mut Answer) {
    let rule = match asked.word() {
        "yes" => None,
        "packet" => Some(Rule::Packet),
        "number" => Some(Rule::Number),
        "header" => Some(Rule::Header),
        "overlap" => Some(Rule::Overlap),
        "gap" => Some(Rule::Gap),
        "reference" => Some(Rule::Reference),
        _ => {
            answer.why = WRONG;
            None
        }
    };
    let number = asked.number(16_777_216);
    let verdict = match rule {
        None => Verdict::Yes { pictures: number },
        Some(rule) => Verdict::No { number, rule },
    };
    say_line(answer, verdict_text(&verdict).text())
}

/// Answers a row of `audit.rows`: does the call of this name by the words after it.
pub fn answer(alloc: Global, call: &str, asked: &mut Asked<'_>, answer: &mut Answer) {
    match call {
        "audit" => judge(alloc, asked, answer),
        "line" => line(asked, answer),
        _ => answer.why = WRONG,
    }
}
