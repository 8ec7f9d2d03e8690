//! One receiver of a group.
ghost use Rattle.std.specs.Prelude.{◌≡◌, ◌+◌, ◌^◌, ◌<◌, ◌≤◌, ℕ, List, [], ◌∷◌, ◌++◌, IfOk, IfSome};
ghost use Rattle.std.specs.Prelude.{length};
ghost use Rattle.std.specs.Option.{option_map};
ghost use Rattle.back_messages.specs.Said.{text_of_said};
ghost use Rattle.coded_call.specs.Bytes.{AreBytes};
ghost use Rattle.h263_types.specs.declared.params.Params.{Params};
ghost use Rattle.h263_types.specs.Params.{IsParams};
ghost use Rattle.h263_planes.specs.Lent.{picture as lent};
ghost use Rattle.h263_planes.specs.Samples.{IsPicture};
ghost use Rattle.call_rings.specs.Messages.{said_of};
ghost use Rattle.call_model.specs.JoinedRun.{SaidMessage};
ghost use Rattle.call_model.specs.Receiving.{played_mark};
ghost use Rattle.call_decoding.specs.Rules.{rules_of};
ghost use Rattle.receiver_end.specs.Answers.{mark_from};
ghost use Rattle.receiver_end.specs.Decoding.{decoding};
ghost use Rattle.receiver_end.specs.State.{run_of};
ghost use Rattle.one_way.specs.Counts.{no_marks, total_of};
ghost use Rattle.one_way.specs.Network.{HasMessages, told_by, told_in};
ghost use Rattle.group_sender.specs.Holding.{Groups};
ghost use Rattle.group_call.specs.Viewing.{ViewerRun, no_view, coded_packets, view_delivery};
ghost use Rattle.group_call.specs.Viewing.{told_at, view_picture, view_play};

use crate::Broadcast;
use back_messages::Said;
use call_rings::MessageRing;
use h263_planes::PictureRef;
use h263_types::{OutOfMemory, Params};
use one_way::{Tally, are_bytes, laws as one_way_laws};
use receiver_end::{Played, Receiver, laws as receiver_end_laws};
use std::alloc::Global;

/// One receiver of a group, with its last 1,024 messages and the marks of its plays. It must be
/// finished.
pub struct Viewer {
    receiver: Receiver,
    messages: MessageRing,
    tally: Tally,
}

// What was said, if anything was: bytes.
fn as_bytes(said: Option<Said>) -> Option<Said>
    ensures same { result ≡ said }
    ensures bytes { IfSome result (λ said. AreBytes (text_of_said said)) }
{
    if let Some(said) = &said {
        are_bytes(said.text());
    }
    said
}

// Keeps what was said of this picture, if anything was.
fn keep_told(messages: &mut MessageRing, about: u32, told: Option<Said>)
    requires { said_of messages.old + 1 < 2 ^ 64 }
    ensures kept { (said : List SaidMessage) → HasMessages messages.old said
        → HasMessages messages.new (said ++ told_by about told) }
    ensures few { said_of messages.new ≤ said_of messages.old + 1 }
{
    if let Some(message) = told {
        messages.push(about, message);
    }
}

impl Viewer {
    ghost use Rattle.group_call.specs.Holding.{HoldsBroadcast, HoldsViewer, IsCast};
    ghost use Rattle.group_call.specs.Holding.{places_in, told_count};

    /// A receiver that has done nothing.
    pub fn start(alloc: Global, params: &Params) -> Result<Viewer, OutOfMemory>
        requires { IsParams params.now }
        ensures params { IfOk result (λ viewer. viewer.receiver.params ≡ params.now) }
        ensures played { IfOk result (λ viewer. viewer.receiver.played ≡ 0) }
        ensures told { IfOk result (λ viewer. told_count viewer ≡ 0) }
        ensures marks { IfOk result (λ viewer. viewer.tally ≡ no_marks) }
        ensures holds { IfOk result (λ viewer. HoldsViewer params.now viewer no_view) }
    {
        let messages = MessageRing::start(alloc)?;
        let receiver = Receiver::start(alloc, params)?;
        Ok(Viewer {
            receiver,
            messages,
            tally: Tally::new(),
        })
    }

    /// The packet at a place of a picture reaches it, if there is one, and what it says is kept.
    pub fn deliver(&mut self, cast: &Broadcast, number: u32, place: u32)
        requires { told_count self.old + 1 < 2 ^ 64 }
        ensures params { self.new.receiver.params ≡ self.old.receiver.params }
        ensures played { self.new.receiver.played ≡ self.old.receiver.played }
        ensures few { told_count self.new ≤ told_count self.old + 1 }
        ensures tally { self.new.tally ≡ self.old.tally }
        ensures holds { (p : Params) (run : Groups) (view : ViewerRun)
            → HoldsBroadcast p cast.now run → IsCast cast.now (length run.coded) number
            → HoldsViewer p self.old view → HoldsViewer p self.new
            (view_delivery p (coded_packets p run.coded number) number place view) }
    {
        one_way_laws::ring_laws();
        receiver_end_laws::answers_say();
        let Some(bytes) = cast.packet(number, place) else {
            return;
        };
        let heard = self.receiver.packet(bytes);
        keep_told(&mut self.messages, number, as_bytes(heard.message()));
    }

    /// All packets of a picture reach it, in their order.
    pub fn deliver_all(&mut self, cast: &Broadcast, number: u32)
        requires { told_count self.old + places_in cast.now < 2 ^ 64 }
        ensures params { self.new.receiver.params ≡ self.old.receiver.params }
        ensures played { self.new.receiver.played ≡ self.old.receiver.played }
        ensures few { told_count self.new ≤ told_count self.old + places_in cast.now }
        ensures tally { self.new.tally ≡ self.old.tally }
        ensures holds { (p : Params) (run : Groups) (view : ViewerRun)
            → HoldsBroadcast p cast.now run → IsCast cast.now (length run.coded) number
            → HoldsViewer p self.old view → HoldsViewer p self.new
            (view_picture p (coded_packets p run.coded number) number view) }
    {
        let count = cast.count(number);
        'packets: for place in 0..count {
            self.deliver(cast, number, place);
        }
    }

    /// Plays the next picture, counts its mark, and keeps what it says.
    pub fn play(&mut self) -> Played
        requires played { self.old.receiver.played < 2 ^ 20 }
        requires counted { total_of self.old.tally < 1048576 }
        requires told { told_count self.old + 1 < 2 ^ 64 }
        ensures params { self.new.receiver.params ≡ self.old.receiver.params }
        ensures played { self.new.receiver.played ≡ self.old.receiver.played + 1 }
        ensures number { result.number ≡ self.old.receiver.played }
        ensures few { told_count self.new ≤ told_count self.old + 1 }
        ensures counted { total_of self.new.tally ≡ total_of self.old.tally + 1 }
        ensures mark { (p : Params) (view : ViewerRun) → HoldsViewer p self.old view
            → result.mark ≡ mark_from
            (played_mark (decoding p.format) (rules_of p) (run_of p view.entries)) }
        ensures holds { (p : Params) (view : ViewerRun) → HoldsViewer p self.old view
            → HoldsViewer p self.new (view_play p view) }
    {
        one_way_laws::ring_laws();
        let played = self.receiver.play();
        self.tally.count(played.mark);
        keep_told(&mut self.messages, played.number, as_bytes(played.message));
        played
    }

    /// The picture on the screen.
    pub fn shown(&self) -> PictureRef<'_>
        ensures view { (p : Params) (view : ViewerRun) → HoldsViewer p self.now view
            → lent result ≡ (run_of p view.entries).screen }
        ensures format { (lent result).format ≡ self.now.receiver.params.format }
        ensures whole { IsPicture (lent result) }
    {
        self.receiver.shown()
    }

    /// Message `k`, counted from 0 in the order in which it said them, with the number of the picture
    /// that it is about: none where it has left, or isn't said yet.
    pub fn message(&self, k: u32) -> Option<(u32, Said)>
        ensures { (p : Params) (view : ViewerRun) → HoldsViewer p self.now view
            → option_map told_in result ≡ told_at view.told k }
    {
        self.messages.get(k)
    }

    /// How many messages it said.
    pub fn told(&self) -> u64
        ensures count { result ≡ told_count self.now }
        ensures view { (p : Params) (view : ViewerRun) → HoldsViewer p self.now view
            → result ≡ length view.told }
    {
        self.messages.said()
    }

    /// How many pictures it played.
    pub fn played(&self) -> u32
        ensures count { result ≡ self.now.receiver.played }
        ensures view { (p : Params) (view : ViewerRun) → HoldsViewer p self.now view
            → result ≡ (run_of p view.entries).played }
    {
        self.receiver.played()
    }

    /// How many pictures it showed with each mark.
    pub fn tally(&self) -> Tally
        ensures { result ≡ self.now.tally }
    {
        self.tally
    }

    /// Gives back what it holds.
    pub fn finish(self) {
        let Viewer {
            receiver,
            messages: _,
            tally: _,
        } = self;
        receiver.finish();
    }
}
