//! A call of two parties against two senders and two receivers that are joined by hand.
//!
//! a's picture 0 is acknowledged in the header of b's, and that one in the header of a's picture 1,
//! which refers to picture 0.
ghost use Rattle.std.specs.Prelude.{◌≡◌, ◌≤◌, ◌+◌, IfSome, length};
ghost use Rattle.h263_types.specs.declared.format.Format.TheVariants.{Qcif};
ghost use Rattle.back_messages.specs.Text.{IsMessage};

use crate::case::{Case, Outcome};
use crate::desks::{compare_desk, desk_of};
use back_messages::{Message, read};
use call_report::Status;
use h263_outside::{MemoryDesk, Role};
use h263_planes::PictureRef;
use h263_types::{FixedPace, Format, Params};
use h263rps_run::run;
use sender_end::Sender;
use std::alloc::Global;

// The ACK of picture 0, and its entry in a log.
const ACK_0: &[u8] = b"\xC0\x04\x00";

const ACK_0_ENTRY: &[u8] = b"B\x00\x03\xC0\x04\x00";

// Appends the packets of the picture that was coded last to the log.
fn log_packets(sender: &Sender<FixedPace>, count: u32, log: &mut Outcome)
    requires { count ≡ length sender.now.packets }
{
    'packets: for place in 0..count {
        let packet = sender.packet(place);
        log.add(b"K");
        log.add(&(packet.len() as u16).to_be_bytes());
        log.add(packet);
    }
}

// Codes a frame with this message in its header, if there is one, and appends its packets to the
// log.
fn capture(
    sender: &mut Sender<FixedPace>,
    frame: &[u8],
    message: Option<Message>,
    log: &mut Outcome,
)
    requires format { sender.old.params.format ≡ Qcif }
    requires early { sender.old.sent ≤ 1 }
    requires message { IfSome message (IsMessage sender.old.params.clock) }
    ensures params { sender.new.params ≡ sender.old.params }
    ensures sent { sender.new.sent ≤ sender.old.sent + 1 }
{
    let format = Format::Qcif;
    if frame.len() != format.size() as usize {
        return;
    }
    let picture = PictureRef::new(format, frame);
    match message {
        Some(message) => {
            let coded = sender.code(picture, &[message]);
            log_packets(sender, coded.packets, log);
        }
        None => {
            let coded = sender.code(picture, &[]);
            log_packets(sender, coded.packets, log);
        }
    }
}

// What the receiver of a party gets and plays. a's second picture, or b's only one, carries the
// message.
fn code_all(
    sender: &mut Sender<FixedPace>,
    message: Message,
    frames: &[u8],
    is_first: bool,
    log: &mut Outcome,
)
    requires format { sender.old.params.format ≡ Qcif }
    requires new { sender.old.sent ≡ 0 }
    requires message { IsMessage sender.old.params.clock message }
{
    let mut last = frames.get(6..38_022).unwrap_or(&[]);
    if is_first {
        capture(sender, last, None, log);
        let _noted = sender.feedback(ACK_0);
        log.add(b"P\x00\x00");
        last = frames.get(38_028..).unwrap_or(&[]);
    }
    capture(sender, last, Some(message), log);
    log.add(b"P\x00\x00");
}

// The log of what arrives of a's pictures, or of b's.
fn log_of(alloc: Global, frames: &[u8], is_first: bool) -> Outcome {
    let mut log = Outcome::new(alloc);
    let params = Params::of(Format::Qcif);
    let pace = FixedPace {
        quant: params.quant,
    };
    if let Ok(message) = read(ACK_0, params.clock) {
        if let Ok(mut sender) = Sender::start(alloc, &params, pace) {
            code_all(&mut sender, message, frames, is_first, &mut log);
            sender.finish();
        }
    }
    log
}

// Tells how a receiver over this log ends, whether it says first that picture 0 is complete, and
// whether it shows these pictures.
fn receive(case: &Case<'_>, log: &[u8], pictures: &[u8], out: &mut Outcome) {
    if let Ok(mut desk) = MemoryDesk::new(out.alloc, case.size.max(1), 10_000_000) {
        if desk.put(Role::Events, log).is_err() {
            out.why = "no memory";
        }
        let ends = run(out.alloc, &["recv", "log", "out", "wire"], &mut desk);
        let said = desk.text(Role::Wire).starts_with(ACK_0_ENTRY);
        out.say(&(ends, said, desk.text(Role::Pictures) == pictures));
    }
}

/// A call of two parties, and what two receivers show of the packets of two senders.
pub fn join_by_hand(case: &Case<'_>, out: &mut Outcome) {
    let first = log_of(out.alloc, &case.bytes("frames", out), true);
    let second = log_of(out.alloc, &case.bytes("frames2", out), false);
    if let Some(mut desk) = desk_of(case, out) {
        let words = case.words(out);
        let ends = run(out.alloc, &words, &mut desk);
        out.say(&ends);
        receive(case, &first.told, desk.text(Role::Pictures), out);
        receive(case, &second.told, desk.text(Role::Pictures2), out);
        compare_desk(case, &desk, out);
    }
    case.compare_told("gives", out);
}
