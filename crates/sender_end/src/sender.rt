//! The sender of a call.
ghost use Rattle.std.specs.Prelude.{◌≡◌, ◌+◌, ◌-◌, ◌%◌, ◌<◌, ◌≤◌, false, true, None, Some, List, [], ◌∷◌, length};
ghost use Rattle.std.specs.Prelude.{slice_index_or, All, IfOk, IfSome};
ghost use Rattle.std.specs.Option.{option_map_or};
ghost use Rattle.h263_types.specs.Params.{IsParams};
ghost use Rattle.picture_store.specs.Pictures.{room_for};
ghost use Rattle.h263_planes.specs.Lent.{picture};
ghost use Rattle.h263_planes.specs.Picture.{Picture};
ghost use Rattle.h263_planes.specs.Samples.{IsPicture};
ghost use Rattle.picture_header.specs.Ranges.{AreMessages};
ghost use Rattle.call_model.specs.Coding.{window};
ghost use Rattle.call_model.specs.CodedPictures.{picture_at};
ghost use Rattle.call_model.specs.Sending as call;
ghost use Rattle.call_model.specs.Sending.{SenderEntry, Capture, feedback_answer};
ghost use Rattle.call_model.specs.SenderStanding.{is_noted};
ghost use Rattle.call_model.specs.Stands.{Sender as CallSender};
ghost use Rattle.call_model.specs.Steering.{after_forget, nothing_done};
ghost use Rattle.call_decoding.specs.Rules.{rules_of};
ghost use Rattle.call_encoding.specs.Frames.{Frame};
ghost use Rattle.call_encoding.specs.Messages.{read_message};

use crate::answers::{Coded, Feedback};
use crate::coding::{push_size, size_of};
use crate::headers::header_of;
use crate::late::{Heading, LateStore};
use crate::next::{Next, known_from, next_from, next_given};
use arrayvec::ArrayVec;
use back_messages::{Message, MessageFault, read};
use call_decoding::{Pictured, Styled, laws as call_decoding_laws};
use call_encoding::{Framed, laws as call_encoding_laws};
use call_model::laws as call_model_laws;
use h263_planes::PictureRef;
use h263_types::{Mb, OutOfMemory, Pace, Params};
use packet_cutter::Cutter;
use reference_selector::Selector;
use std::alloc::Global;
use std::marker::Model;

/// A sender, whose quantisers a pace chooses. It has all its memory from the start. It has no
/// `Drop`: it must be finished.
pub struct Sender<P: Pace> {
    pace: P,
    params: Params,
    sent: u32,
    cutter: Cutter,
    selector: Selector,
    // The bytes of the last pictures, oldest first.
    sizes: ArrayVec<u32, 16>,
    // The first picture that may be a reference: how many were coded when it last forgot.
    since: u32,
    // The pictures of the last `slots` numbers, and one that is coded.
    store: LateStore,
}

impl<P: Pace> Model for Sender<P> {
    ghost use Rattle.sender_end.specs.State.{SenderState};

    ghost Value = { SenderState P };

    ghost use Rattle.sender_end.specs.Parts.{IsReady, sender_state};

    ghost view = { λ s. sender_state s };

    ghost invariant = { λ s. IsReady s };
}

impl<P: Pace> Sender<P> {
    ghost use Rattle.sender_end.specs.Stands.{Describes, PacedStands, last_packets, next_after};
    ghost use Rattle.sender_end.specs.Stands.{reply_of, entries_run};
    ghost use Rattle.sender_end.specs.Stands.{Holds, SentRun, after_code, after_message, next_in};
    ghost use Rattle.sender_end.specs.Stands.{packets_after};
    ghost use Rattle.sender_end.specs.Stands.{IsCodedWith, IsSeen, after_code_from, next_with};
    ghost use Rattle.sender_end.specs.Known.{known_in};

    /// A sender before its first picture. It draws each picture as it is coded, so it has a `recon`.
    pub fn start(alloc: Global, params: &Params, pace: P) -> Result<Sender<P>, OutOfMemory>
        requires { IsParams params.now }
        ensures params { IfOk result (λ sender. sender.params ≡ params.now) }
        ensures sent { IfOk result (λ sender. sender.sent ≡ 0) }
        ensures pace { IfOk result (λ sender. sender.pace ≡ pace) }
        ensures room { IfOk result (λ sender. sender.store.room
            ≡ room_for params.now.format (params.now.slots + 1)) }
        ensures stands { IfOk result (λ sender. PacedStands (P.quant_of sender.pace) sender []) }
        ensures holds { IfOk result (λ sender. Holds sender nothing_done) }
        ensures draws_all { IfOk result (λ sender. sender.draws_all ≡ true) }
    {
        Sender::begin(alloc, params, pace, true)
    }

    /// The same, but an intra picture is drawn only once another is predicted from it: a caller that
    /// wants packets alone is spared the others.
    pub fn start_without_recon(
        alloc: Global,
        params: &Params,
        pace: P,
    ) -> Result<Sender<P>, OutOfMemory>
        requires { IsParams params.now }
        ensures params { IfOk result (λ sender. sender.params ≡ params.now) }
        ensures sent { IfOk result (λ sender. sender.sent ≡ 0) }
        ensures pace { IfOk result (λ sender. sender.pace ≡ pace) }
        ensures room { IfOk result (λ sender. sender.store.room
            ≡ room_for params.now.format (params.now.slots + 1)) }
        ensures stands { IfOk result (λ sender. PacedStands (P.quant_of sender.pace) sender []) }
        ensures holds { IfOk result (λ sender. Holds sender nothing_done) }
        ensures draws_all { IfOk result (λ sender. sender.draws_all ≡ false) }
    {
        Sender::begin(alloc, params, pace, false)
    }

    // A sender before its first picture, which draws each picture as it is coded, or doesn't.
    fn begin(
        alloc: Global,
        params: &Params,
        pace: P,
        draws_all: bool,
    ) -> Result<Sender<P>, OutOfMemory>
        requires { IsParams params.now }
        ensures params { IfOk result (λ sender. sender.params ≡ params.now) }
        ensures sent { IfOk result (λ sender. sender.sent ≡ 0) }
        ensures pace { IfOk result (λ sender. sender.pace ≡ pace) }
        ensures room { IfOk result (λ sender. sender.store.room
            ≡ room_for params.now.format (params.now.slots + 1)) }
        ensures stands { IfOk result (λ sender. PacedStands (P.quant_of sender.pace) sender []) }
        ensures holds { IfOk result (λ sender. Holds sender nothing_done) }
        ensures draws_all { IfOk result (λ sender. sender.draws_all ≡ draws_all) }
    {
        call_model_laws::sender_stands::<Framed, Styled, Mb, Pictured, MessageFault>();
        call_model_laws::sender_holds::<Framed, Styled, Mb, Pictured, MessageFault>();
        call_decoding_laws::are_rules();
        let cutter = Cutter::start(alloc, params)?;
        let store = LateStore::start(alloc, params.format, params.slots, draws_all)?;
        Ok(Sender {
            pace,
            params: *params,
            sent: 0,
            cutter,
            selector: Selector::start(params),
            sizes: ArrayVec::new(),
            since: 0,
            store,
        })
    }

    /// Begins a call anew in the memory that it has, with this pace: a sender before its first
    /// picture.
    pub fn restart(&mut self, first_pace: P)
        ensures params { self.new.params ≡ self.old.params }
        ensures sent { self.new.sent ≡ 0 }
        ensures pace { self.new.pace ≡ first_pace }
        ensures room { self.new.store.room ≡ self.old.store.room }
        ensures draws_all { self.new.draws_all ≡ self.old.draws_all }
        ensures stands { PacedStands (P.quant_of self.new.pace) self.new [] }
        ensures holds { Holds self.new nothing_done }
    {
        call_model_laws::sender_stands::<Framed, Styled, Mb, Pictured, MessageFault>();
        call_model_laws::sender_holds::<Framed, Styled, Mb, Pictured, MessageFault>();
        call_decoding_laws::are_rules();
        let selector = Selector::start(&self.params);
        self.pace = first_pace;
        self.sent = 0;
        self.cutter.restart();
        self.selector = selector;
        self.sizes.clear();
        self.since = 0;
        self.store.clear();
    }

    /// Captures the next picture, of this frame, with at most four messages about pictures of the
    /// other direction in its header. Fewer than 1,048,576 pictures were coded.
    pub fn code(&mut self, frame: PictureRef<'_>, back: &[Message]) -> Coded
        requires frame { (picture frame).format ≡ self.old.params.format }
        requires few { length back.now ≤ 4 }
        requires back { AreMessages self.old.params.clock back.now }
        requires left { self.old.sent < 1048576 }
        ensures params { self.new.params ≡ self.old.params }
        ensures sent { self.new.sent ≡ self.old.sent + 1 }
        ensures pace { self.new.pace ≡ self.old.pace }
        ensures draws_all { self.new.draws_all ≡ self.old.draws_all }
        ensures count { result.packets ≡ length self.new.packets }
        ensures limit { All (λ packet. length packet ≤ self.new.params.limit) self.new.packets }
        ensures stands { (entries : List (SenderEntry Frame))
            → PacedStands (P.quant_of self.old.pace) self.old entries
            → PacedStands (P.quant_of self.old.pace) self.new
            (Capture (record { picture = picture frame.entry; messages = back.now }) ∷ entries) }
        ensures tells { (entries : List (SenderEntry Frame))
            → PacedStands (P.quant_of self.old.pace) self.old entries
            → Describes (length (entries_run self.old.params (P.quant_of self.old.pace) entries).coded)
            (next_after self.old.params (P.quant_of self.old.pace)
            (record { picture = picture frame.entry; messages = back.now }) entries) result }
        ensures holds { (run : SentRun) → Holds self.old run → Holds self.new
            (after_code self.old.params (P.quant_of self.old.pace)
            (record { picture = picture frame.entry; messages = back.now }) run) }
        ensures makes { (run : SentRun) → Holds self.old run → Describes (length run.run.coded)
            (next_in self.old.params (P.quant_of self.old.pace)
            (record { picture = picture frame.entry; messages = back.now }) run) result }
    {
        call_model_laws::sender_stands::<Framed, Styled, Mb, Pictured, MessageFault>();
        call_model_laws::sender_holds::<Framed, Styled, Mb, Pictured, MessageFault>();
        call_encoding_laws::is_encoding();
        call_decoding_laws::are_rules();
        let next = next_from(&self.selector, self.sent, self.since);
        self.code_next(next, frame, back)
    }

    /// Captures the next picture as `code` does, with this reference: a picture in the window that
    /// was chosen elsewhere. At the chain limit it is coded by itself.
    pub fn code_from(
        &mut self,
        reference: Option<u32>,
        frame: PictureRef<'_>,
        back: &[Message],
    ) -> Coded
        requires recent { IfSome reference (λ m. (m < self.old.sent)
            × (self.old.sent ≤ m + window (rules_of self.old.params))) }
        requires frame { (picture frame).format ≡ self.old.params.format }
        requires few { length back.now ≤ 4 }
        requires back { AreMessages self.old.params.clock back.now }
        requires left { self.old.sent < 1048576 }
        ensures params { self.new.params ≡ self.old.params }
        ensures sent { self.new.sent ≡ self.old.sent + 1 }
        ensures pace { self.new.pace ≡ self.old.pace }
        ensures draws_all { self.new.draws_all ≡ self.old.draws_all }
        ensures count { result.packets ≡ length self.new.packets }
        ensures limit { All (λ packet. length packet ≤ self.new.params.limit) self.new.packets }
        ensures holds { (run : SentRun) → Holds self.old run → Holds self.new
            (after_code_from self.old.params (P.quant_of self.old.pace) reference
            (record { picture = picture frame.entry; messages = back.now }) run) }
        ensures makes { (run : SentRun) → Holds self.old run → Describes (length run.run.coded)
            (next_with self.old.params (P.quant_of self.old.pace) reference
            (record { picture = picture frame.entry; messages = back.now }) run) result }
    {
        call_model_laws::sender_holds::<Framed, Styled, Mb, Pictured, MessageFault>();
        call_encoding_laws::is_encoding();
        call_decoding_laws::are_rules();
        let next = next_given(&self.selector, reference, self.sent);
        self.code_next(next, frame, back)
    }

    // Codes the next picture, with this reference and depth.
    fn code_next(&mut self, next: Next, frame: PictureRef<'_>, back: &[Message]) -> Coded
        requires recent { IfSome next.reference (λ m. (m < self.old.sent)
            × (self.old.sent ≤ m + self.old.params.slots)) }
        requires depth { next.reference ≡ None → next.depth ≡ 0 }
        requires frame { (picture frame).format ≡ self.old.params.format }
        requires few { length back.now ≤ 4 }
        requires back { AreMessages self.old.params.clock back.now }
        requires left { self.old.sent < 1048576 }
        ensures params { self.new.params ≡ self.old.params }
        ensures sent { self.new.sent ≡ self.old.sent + 1 }
        ensures pace { self.new.pace ≡ self.old.pace }
        ensures draws_all { self.new.draws_all ≡ self.old.draws_all }
        ensures since { self.new.since ≡ self.old.since }
        ensures count { result.packets ≡ length self.new.packets }
        ensures limit { All (λ packet. length packet ≤ self.new.params.limit) self.new.packets }
        ensures made { (s : CallSender Picture) → IsSeen self.old s
            → next.depth ≡ option_map_or (λ m. s.depth (m % self.old.params.slots) + 1) next.reference 0
            → IsCodedWith self.old.params (P.quant_of self.old.pace s.sizes)
            (record { picture = picture frame.entry; messages = back.now }) next.reference s
            self.new result }
    {
        call_model_laws::searches();
        call_encoding_laws::written_packets();
        call_encoding_laws::carried_as_they_are();
        call_decoding_laws::are_pictures();
        let quant = self.pace.quant(self.sizes.as_slice());
        let number = self.sent;
        let header = header_of(
            &self.params,
            number,
            next.reference,
            next.depth,
            quant,
            back,
        );
        let heading = Heading { number, header };
        self.store.code(
            &mut self.cutter,
            &self.params,
            frame,
            next.reference,
            &heading,
        );
        self.store.keep(number);
        self.selector.coded(number, next.depth);
        push_size(&mut self.sizes, size_of(&self.cutter));
        self.sent = number + 1;
        Coded {
            number,
            reference: next.reference,
            packets: self.cutter.count(),
        }
    }

    /// Packet i of the picture that was coded last, of at most `limit` bytes.
    pub fn packet(&self, i: u32) -> &[u8]
        requires { i < length self.now.packets }
        ensures value { result.now ≡ slice_index_or self.now.packets i [] }
        ensures limit { length result.now ≤ self.now.params.limit }
        ensures small { length result.now ≤ 9000 }
        ensures stands { (entries : List (SenderEntry Frame))
            → PacedStands (P.quant_of self.now.pace) self.now entries
            → result.now
            ≡ slice_index_or (last_packets self.now.params (P.quant_of self.now.pace) entries) i [] }
        ensures holds { (run : SentRun) → Holds self.now run
            → result.now ≡ slice_index_or (packets_after self.now.params run) i [] }
    {
        self.cutter.packet(i)
    }

    /// What a decoder makes of the picture that was coded last. One was coded, and it is drawn: the
    /// sender was started so.
    pub fn recon(&self) -> PictureRef<'_>
        requires coded { 0 < self.now.sent }
        requires drawn { self.now.draws_all ≡ true }
        ensures stands { (entries : List (SenderEntry Frame))
            → PacedStands (P.quant_of self.now.pace) self.now entries
            → Some (picture result)
            ≡ picture_at (entries_run self.now.params (P.quant_of self.now.pace) entries).coded
            (self.now.sent - 1) }
        ensures holds { (run : SentRun) → Holds self.now run
            → Some (picture result) ≡ picture_at run.run.coded (self.now.sent - 1) }
        ensures format { (picture result).format ≡ self.now.params.format }
        ensures whole { IsPicture (picture result) }
    {
        self.store.view(self.sent - 1).unwrap()
    }

    /// How many pictures were coded.
    pub fn sent(&self) -> u32
        ensures value { result ≡ self.now.sent }
        ensures stands { (entries : List (SenderEntry Frame))
            → PacedStands (P.quant_of self.now.pace) self.now entries
            → result
            ≡ length (entries_run self.now.params (P.quant_of self.now.pace) entries).coded }
        ensures holds { (run : SentRun) → Holds self.now run → result ≡ length run.run.coded }
    {
        self.sent
    }

    /// How many pictures it knows to be complete at the other end, of those to which its next
    /// picture may refer: those in the window of `slots - lead - 1` numbers, but for what it forgot.
    pub fn known(&self) -> u32
        ensures { (run : SentRun) → Holds self.now run → result ≡ known_in self.now.params run }
    {
        let window = self.params.slots - self.params.lead - 1;
        let first = self.sent.saturating_sub(window);
        known_from(&self.selector, first, self.since, self.sent)
    }

    /// Takes feedback: the bytes of a message of the other end. Only what is known of the last
    /// pictures changes, and where the message is old or none not even that.
    pub fn feedback(&mut self, bytes: &[u8]) -> Feedback
        ensures others { self.new ≡ record self.old { selector = self.new.selector } }
        ensures same { is_noted (reply_of result) ≡ false → self.new ≡ self.old }
        ensures stands { (entries : List (SenderEntry Frame))
            → PacedStands (P.quant_of self.old.pace) self.old entries
            → PacedStands (P.quant_of self.old.pace) self.new (call.Feedback bytes.now ∷ entries) }
        ensures answer { (entries : List (SenderEntry Frame))
            → PacedStands (P.quant_of self.old.pace) self.old entries
            → reply_of result ≡ feedback_answer (rules_of self.old.params)
            (length (entries_run self.old.params (P.quant_of self.old.pace) entries).coded)
            (read_message self.old.params.clock bytes.now) }
        ensures holds { (run : SentRun) → Holds self.old run
            → Holds self.new (after_message self.old.params bytes.now run) }
        ensures replies { (run : SentRun) → Holds self.old run
            → reply_of result ≡ feedback_answer (rules_of self.old.params)
            (length run.run.coded) (read_message self.old.params.clock bytes.now) }
    {
        call_model_laws::sender_stands::<Framed, Styled, Mb, Pictured, MessageFault>();
        call_model_laws::sender_holds::<Framed, Styled, Mb, Pictured, MessageFault>();
        call_decoding_laws::are_rules();
        match read(bytes, self.params.clock) {
            Err(fault) => Feedback::Refused(fault),
            Ok(message) => {
                if self.selector.note(&message, self.sent) {
                    Feedback::Noted
                } else {
                    Feedback::Old
                }
            }
        }
    }

    /// Takes another pace, which gives the quantisers from the next picture on. It is asked by the
    /// bytes of the last pictures, as the one before it was.
    pub fn set_pace(&mut self, pace: P)
        ensures others { self.new ≡ record self.old { pace = pace } }
        ensures holds { (run : SentRun) → Holds self.old run → Holds self.new run }
    {
        self.pace = pace;
    }

    /// Forgets the pictures that were coded: none of them is a reference any more, however late it
    /// is acknowledged. So the next picture is coded by itself.
    pub fn forget(&mut self)
        ensures others { self.new ≡ record self.old { since = self.old.sent } }
        ensures holds { (run : SentRun) → Holds self.old run → Holds self.new (after_forget run) }
    {
        self.since = self.sent;
    }

    /// Gives all memory back.
    pub fn finish(self) {
        let Sender {
            pace: _,
            params: _,
            sent: _,
            cutter: _,
            selector: _,
            sizes: _,
            since: _,
            store,
        } = self;
        store.finish();
    }
}
