//! What a line of the made trace says is done: at both ends, and in the network between them.
ghost use Rattle.std.specs.Prelude.{◌≡◌, ◌+◌, ◌^◌, ◌<◌, ◌≤◌, List, [], ◌∷◌, length};
ghost use Rattle.h263_types.specs.Sizes.{size_of_picture};
ghost use Rattle.h263_planes.specs.Given.{picture_with};
ghost use Rattle.h263_planes.specs.Layout.{picture_of};
ghost use Rattle.make_input.specs.Frames.{made_sample};

use crate::{Demo, laws};
use h263_planes::{PictureMut, PictureRef};
use h263_types::Format;
use loss_trace::Event;
use make_input::frame;
use one_way::laws as one_way_laws;

// Makes frame `number` of the video of this seed in these bytes.
fn make_frame(format: Format, seed: u32, number: u32, bytes: &mut [u8])
    requires { length bytes.old ≡ size_of_picture format }
    ensures size { length bytes.new ≡ size_of_picture format }
    ensures made { picture_of format bytes.new ≡ picture_with format (made_sample seed number) }
{
    let mut picture = PictureMut::new(format, bytes);
    frame(format, seed, number, &mut picture);
}

impl Demo {
    ghost use Rattle.call_model.specs.IdealCall.{Event as Happens, Send};
    ghost use Rattle.one_way.specs.Way.{said_in};
    ghost use Rattle.demo_command.specs.Demo.{with_made_line};
    ghost use Rattle.demo_command.specs.Machine.{AreInPlace, DemoHasDone, IsNearNow, LineReady};
    ghost use Rattle.demo_command.specs.Machine.{SendsOne, sent_after};

    // `S`: the next frame is made and sent.
    fn send_made(&mut self)
        requires ready { LineReady self.old }
        requires left { self.old.both.sender.sent < 10000 }
        ensures ready { LineReady self.new }
        ensures sends { SendsOne self.old self.new }
        ensures done { (past : List Happens) → DemoHasDone self.old past
            → IsNearNow self.old.terms (Send ∷ past) → DemoHasDone self.new (Send ∷ past) }
    {
        one_way_laws::way_laws();
        one_way_laws::near_event_laws();
        let format = self.terms.params.format;
        make_frame(
            format,
            self.terms.seed,
            self.both.sender.sent(),
            &mut self.frame,
        );
        let frame = PictureRef::new(format, &self.frame);
        self.network.send(&mut self.both.sender, frame, &[]);
    }

    /// Does what a line says. No line of a made trace is refused.
    pub fn take_line(&mut self, event: Event)
        requires ready { LineReady self.old }
        requires in_place { AreInPlace 10000 self.old.both.sender.sent (event ∷ []) }
        requires said { said_in self.old.network + 400 < 2 ^ 64 }
        requires few { self.old.both.receiver.played < 2 ^ 20 }
        ensures ready { LineReady self.new }
        ensures terms { self.new.terms ≡ self.old.terms }
        ensures lines { self.new.lines ≡ self.old.lines }
        ensures sent { self.new.both.sender.sent
            ≡ sent_after event self.old.both.sender.sent }
        ensures said { said_in self.new.network ≤ said_in self.old.network + 400 }
        ensures played { self.new.both.receiver.played ≤ self.old.both.receiver.played + 1 }
        ensures done { (past : List Happens) → DemoHasDone self.old past
            → IsNearNow self.old.terms (with_made_line self.old.terms past event)
            → DemoHasDone self.new (with_made_line self.old.terms past event) }
    {
        one_way_laws::way_laws();
        one_way_laws::ends_agree();
        one_way_laws::near_event_laws();
        laws::made_laws();
        match event {
            Event::Nothing => {}
            Event::Send => self.send_made(),
            Event::Packet { number, place } => {
                self.network.deliver(&mut self.both.receiver, number, place);
            }
            Event::All { number } => {
                self.network.deliver_all(&mut self.both.receiver, number);
            }
            Event::Back { message } => {
                self.network.bring_back(&mut self.both.sender, message);
            }
            Event::Play => {
                self.network.play(&mut self.both.receiver);
            }
        }
    }
}
