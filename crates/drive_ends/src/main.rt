//! How to drive the two ends of a call (docs/DRIVING.md). Five frames, each of one grey, are
//! captured, sent and shown; the network loses the third. A line says of each picture how it is
//! shown, from which picture it was predicted, and which grey is on the screen.
#![tactic(auto)]

ghost use Rattle.std.specs.Prelude.{◌≡◌, ◌+◌, ◌<◌, IfOk, length};
ghost use Rattle.h263_types.specs.Params.{IsParams};
ghost use Rattle.h263_planes.specs.Lent.{picture};

use back_messages::Said;
use h263_planes::PictureRef;
use h263_types::{FixedPace, Format, Mark, OutOfMemory, Params};
use receiver_end::Receiver;
use sender_end::{Coded, Sender};
use std::alloc::{AllocError, Global};
use std::io;

const PICTURES: u32 = 5;

// The picture whose packets the network loses.
const LOST: u32 = 2;

// A sender, and the receiver of its pictures. They have no `Drop`: they must be finished.
struct Ends {
    sender: Sender<FixedPace>,
    receiver: Receiver,
}

impl Ends {
    // Takes all memory of the call.
    fn start(alloc: Global, params: &Params) -> Result<Ends, OutOfMemory>
        requires { IsParams params.now }
        ensures format { IfOk result (λ ends. ends.sender.params.format ≡ params.now.format) }
        ensures sent { IfOk result (λ ends. ends.sender.sent ≡ 0) }
        ensures played { IfOk result (λ ends. ends.receiver.played ≡ 0) }
    {
        let pace = FixedPace {
            quant: params.quant,
        };
        let sender = Sender::start_without_recon(alloc, params, pace)?;
        match Receiver::start(alloc, params) {
            Ok(receiver) => Ok(Ends { sender, receiver }),
            Err(OutOfMemory) => {
                sender.finish();
                Err(OutOfMemory)
            }
        }
    }

    // Codes a frame and sends it. What the receiver says of it goes back.
    fn send(&mut self, frame: PictureRef<'_>) -> Coded
        requires left { self.old.sender.sent < 1048576 }
        requires frame { (picture frame).format ≡ self.old.sender.params.format }
        ensures format { self.new.sender.params.format ≡ self.old.sender.params.format }
        ensures sent { self.new.sender.sent ≡ self.old.sender.sent + 1 }
        ensures played { self.new.receiver.played ≡ self.old.receiver.played }
    {
        let coded = self.sender.code(frame, &[]);
        if let Some(message) = carry(&self.sender, &mut self.receiver, coded) {
            self.sender.feedback(message.text());
        }
        coded
    }

    // Plays the next picture, whether anything came of it or not. Where it isn't whole, the
    // receiver asks for an older reference.
    fn play(&mut self) -> Mark
        requires left { self.old.receiver.played < 1048576 }
        ensures format { self.new.sender.params.format ≡ self.old.sender.params.format }
        ensures sent { self.new.sender.sent ≡ self.old.sender.sent }
        ensures played { self.new.receiver.played ≡ self.old.receiver.played + 1 }
    {
        let played = self.receiver.play();
        if let Some(message) = played.message {
            self.sender.feedback(message.text());
        }
        played.mark
    }

    // Gives the memory back.
    fn finish(self) {
        let Ends { sender, receiver } = self;
        sender.finish();
        receiver.finish();
    }
}

// The network: it brings all packets of a picture in their order, or none. Answers what the
// receiver says when the picture is complete.
fn carry(sender: &Sender<FixedPace>, receiver: &mut Receiver, coded: Coded) -> Option<Said>
    requires { coded.packets ≡ length sender.now.packets }
    ensures { receiver.new.played ≡ receiver.old.played }
{
    if coded.number == LOST {
        return None;
    }
    let mut said = None;
    'packets: for i in 0..coded.packets {
        if let Some(message) = receiver.packet(sender.packet(i)).message() {
            said = Some(message);
        }
    }
    said
}

// The line of a picture.
fn tell(rt: &HostRuntime, coded: Coded, mark: Mark, screen: &[u8]) -> io::Result<()> {
    let mark = match mark {
        Mark::Exact => "exact",
        Mark::Patched => "patched",
        Mark::Held => "held",
    };
    let grey = screen.first().copied().unwrap_or(0);
    match coded.reference {
        None => println!(rt; "{} {mark} intra, grey {grey}", coded.number),
        Some(number) => println!(rt; "{} {mark} from {number}, grey {grey}", coded.number),
    }
}

// The call, picture by picture.
fn pass_all(rt: &HostRuntime, ends: &mut Ends, format: Format) -> io::Result<()>
    requires format { format ≡ ends.old.sender.params.format }
    requires sent { ends.old.sender.sent ≡ 0 }
    requires played { ends.old.receiver.played ≡ 0 }
{
    'pictures: for number in 0..PICTURES {
        let grey = 100 + 20 * number as u8;
        let frame = vec![in rt.alloc(); grey; format.size() as usize]?;
        let coded = ends.send(PictureRef::new(format, &frame));
        let mark = ends.play();
        tell(rt, coded, mark, ends.receiver.shown().bytes())?;
    }
    Ok(())
}

fn main(rt: HostRuntime) -> io::Result<()> {
    let params = Params::of(Format::SubQcif);
    let mut ends = match Ends::start(rt.alloc(), &params) {
        Ok(ends) => ends,
        Err(OutOfMemory) => return Err(AllocError.into()),
    };
    let passed = pass_all(&rt, &mut ends, params.format);
    ends.finish();
    passed
}
