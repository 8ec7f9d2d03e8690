//! The sender of a group.
ghost use Rattle.std.specs.Prelude.{◌≡◌, ◌+◌, ◌-◌, ◌<◌, ◌≤◌, ℕ, true, false, Some, None, List, [], length, slice_index_or, if◌then◌else◌};
ghost use Rattle.std.specs.Prelude.{All, IfOk};
ghost use Rattle.std.specs.Option.{option_map};
ghost use Rattle.h263_types.specs.Params.{IsParams};
ghost use Rattle.h263_planes.specs.Lent.{picture};
ghost use Rattle.h263_planes.specs.Samples.{IsPicture};
ghost use Rattle.picture_header.specs.Ranges.{AreMessages};
ghost use Rattle.call_model.specs.CodedPictures.{picture_at};
ghost use Rattle.call_model.specs.Coding.{Rules};
ghost use Rattle.call_decoding.specs.Rules.{rules_of};
ghost use Rattle.sender_end.specs.Stands.{Describes, reply_of};
ghost use Rattle.sender_end.specs.declared.answers.Feedback.TheVariants.{Noted, Old, Refused};
ghost use Rattle.group_sender.specs.Parties.{Party, party_at};
ghost use Rattle.group_sender.specs.Standing.{MembersStand};

use crate::member::Member;
use crate::members::{join_at, leave_at, newest_for_all, note_at, places, tell_coded};
use crate::waiting::first_late;
use back_messages::{Message, MessageFault, read};
use h263_planes::PictureRef;
use h263_types::{OutOfMemory, Pace, Params};
use sender_end::{Coded, Feedback, Sender};
use std::alloc::Global;

/// One sender for up to 16 receivers, each at a place from 0 to 15. It has all its memory from the
/// start. It has no `Drop`: it must be finished.
pub struct Group<P: Pace> {
    sender: Sender<P>,
    params: Params,
    // What is known of each receiver.
    members: Vec<Member>,
    ghost same: { sender.params ≡ params },
    ghost wide: { params.lead + 2 ≤ params.slots },
    ghost few: { sender.sent ≤ 1048576 },
    ghost count: { length members.items ≡ 16 },
}

// What became of a message, by the answer of a selector.
fn noted(answer: bool) -> Feedback
    ensures { result ≡ (if answer then Noted else Old) }
{
    if answer {
        Feedback::Noted
    } else {
        Feedback::Old
    }
}

// That feedback is no message, where a receiver is there.
fn refused(members: &[Member], place: usize, fault: MessageFault) -> Option<Feedback>
    requires { place < length members.now }
    ensures differs { result ≡ Some Noted → ⊥ }
    ensures value { (rules : Rules) (sent : ℕ) (parties : List Party)
        → MembersStand rules members.now sent parties
        → result ≡ (if (party_at parties place).present then Some (Refused fault) else None) }
{
    let member = &members[place];
    if !member.is_present() {
        return None;
    }
    Some(Feedback::Refused(fault))
}

impl<P: Pace> Group<P> {
    ghost use Rattle.group_sender.specs.Running.{after_join, after_leave, newest_of_all, no_group, waited_for};
    ghost use Rattle.group_sender.specs.Holding.{Groups, HoldsGroup, answer_to, group_after_code};
    ghost use Rattle.group_sender.specs.Holding.{group_after_saying, group_packets, next_of_group};

    /// A sender before its first picture, and nobody to receive it. It draws each picture as it is
    /// coded, so it has a `recon`.
    pub fn start(alloc: Global, params: &Params, pace: P) -> Result<Group<P>, OutOfMemory>
        requires { IsParams params.now }
        ensures params { IfOk result (λ group. group.params ≡ params.now) }
        ensures sent { IfOk result (λ group. group.sender.sent ≡ 0) }
        ensures pace { IfOk result (λ group. group.sender.pace ≡ pace) }
        ensures draws_all { IfOk result (λ group. group.sender.draws_all ≡ true) }
        ensures holds { IfOk result (λ group. HoldsGroup group no_group) }
    {
        let members = places(alloc, params)?;
        let sender = Sender::start(alloc, params, pace)?;
        Ok(Group {
            sender,
            params: *params,
            members,
        })
    }

    /// The same, but an intra picture is drawn only once another is predicted from it.
    pub fn start_without_recon(
        alloc: Global,
        params: &Params,
        pace: P,
    ) -> Result<Group<P>, OutOfMemory>
        requires { IsParams params.now }
        ensures params { IfOk result (λ group. group.params ≡ params.now) }
        ensures sent { IfOk result (λ group. group.sender.sent ≡ 0) }
        ensures pace { IfOk result (λ group. group.sender.pace ≡ pace) }
        ensures draws_all { IfOk result (λ group. group.sender.draws_all ≡ false) }
        ensures holds { IfOk result (λ group. HoldsGroup group no_group) }
    {
        let members = places(alloc, params)?;
        let sender = Sender::start_without_recon(alloc, params, pace)?;
        Ok(Group {
            sender,
            params: *params,
            members,
        })
    }

    /// A receiver joins at this place. It has none of the pictures that were coded so far: it begins
    /// with the next one. One that was there before has left.
    pub fn join(&mut self, receiver: u32)
        requires { receiver < 16 }
        ensures sender { self.new.sender ≡ self.old.sender }
        ensures params { self.new.params ≡ self.old.params }
        ensures holds { (run : Groups) → HoldsGroup self.old run
            → HoldsGroup self.new (after_join receiver run) }
    {
        let sent = self.sender.sent();
        join_at(self.members.as_mut_slice(), receiver as usize, sent);
    }

    /// The receiver at this place leaves: what it has doesn't matter any more.
    pub fn leave(&mut self, receiver: u32)
        requires { receiver < 16 }
        ensures sender { self.new.sender ≡ self.old.sender }
        ensures params { self.new.params ≡ self.old.params }
        ensures holds { (run : Groups) → HoldsGroup self.old run
            → HoldsGroup self.new (after_leave receiver run) }
    {
        leave_at(self.members.as_mut_slice(), receiver as usize);
    }

    /// Captures the next picture, of this frame, with at most four messages in its header. Fewer
    /// than 1,048,576 pictures were coded.
    pub fn code(&mut self, frame: PictureRef<'_>, back: &[Message]) -> Coded
        requires frame { (picture frame).format ≡ self.old.params.format }
        requires few { length back.now ≤ 4 }
        requires back { AreMessages self.old.params.clock back.now }
        requires left { self.old.sender.sent < 1048576 }
        ensures params { self.new.params ≡ self.old.params }
        ensures sent { self.new.sender.sent ≡ self.old.sender.sent + 1 }
        ensures pace { self.new.sender.pace ≡ self.old.sender.pace }
        ensures draws_all { self.new.sender.draws_all ≡ self.old.sender.draws_all }
        ensures count { result.packets ≡ length self.new.sender.packets }
        ensures limit { All (λ packet. length packet ≤ self.new.params.limit)
            self.new.sender.packets }
        ensures holds { (run : Groups) → HoldsGroup self.old run → HoldsGroup self.new
            (group_after_code self.old.params (P.quant_of self.old.sender.pace)
            (record { picture = picture frame.entry; messages = back.now }) run) }
        ensures makes { (run : Groups) → HoldsGroup self.old run → Describes (length run.coded)
            (next_of_group self.old.params (P.quant_of self.old.sender.pace)
            (record { picture = picture frame.entry; messages = back.now }) run) result }
    {
        let sent = self.sender.sent();
        let window = self.params.slots - self.params.lead - 1;
        let reference = newest_for_all(self.members.as_slice(), sent, window);
        let coded = self.sender.code_from(reference, frame, back);
        tell_coded(self.members.as_mut_slice(), sent);
        coded
    }

    /// Packet i of the picture that was coded last, of at most `limit` bytes.
    pub fn packet(&self, i: u32) -> &[u8]
        requires { i < length self.now.sender.packets }
        ensures value { result.now ≡ slice_index_or self.now.sender.packets i [] }
        ensures limit { length result.now ≤ self.now.params.limit }
        ensures holds { (run : Groups) → HoldsGroup self.now run
            → result.now ≡ slice_index_or (group_packets self.now.params run) i [] }
    {
        self.sender.packet(i)
    }

    /// What a decoder makes of the picture that was coded last. One was coded, and it is drawn: the
    /// group was started so.
    pub fn recon(&self) -> PictureRef<'_>
        requires coded { 0 < self.now.sender.sent }
        requires drawn { self.now.sender.draws_all ≡ true }
        ensures holds { (run : Groups) → HoldsGroup self.now run
            → Some (picture result) ≡ picture_at run.coded (self.now.sender.sent - 1) }
        ensures format { (picture result).format ≡ self.now.params.format }
        ensures whole { IsPicture (picture result) }
    {
        self.sender.recon()
    }

    /// How many pictures were coded.
    pub fn sent(&self) -> u32
        ensures value { result ≡ self.now.sender.sent }
        ensures holds { (run : Groups) → HoldsGroup self.now run → result ≡ length run.coded }
    {
        self.sender.sent()
    }

    /// Takes feedback of the receiver at this place: the bytes of a message. Only what is known of
    /// this receiver changes. `None` where nobody is there: then nothing does.
    pub fn feedback(&mut self, receiver: u32, bytes: &[u8]) -> Option<Feedback>
        requires { receiver < 16 }
        ensures sender { self.new.sender ≡ self.old.sender }
        ensures params { self.new.params ≡ self.old.params }
        ensures same { (result ≡ Some Noted → ⊥) → self.new.members.items ≡ self.old.members.items }
        ensures answer { (run : Groups) → HoldsGroup self.old run → option_map reply_of result
            ≡ answer_to self.old.params receiver bytes.now run }
        ensures holds { (run : Groups) → HoldsGroup self.old run
            → HoldsGroup self.new (group_after_saying self.old.params receiver bytes.now run) }
    {
        let place = receiver as usize;
        match read(bytes, self.params.clock) {
            Err(fault) => refused(self.members.as_slice(), place, fault),
            Ok(message) => {
                let sent = self.sender.sent();
                let answer = note_at(self.members.as_mut_slice(), place, &message, sent)?;
                Some(noted(answer))
            }
        }
    }

    /// The first receiver that isn't known to have any picture in the window. While there is one, each
    /// picture is coded by itself, for all: the caller may have it leave, and join again.
    pub fn waiting_for(&self) -> Option<u32>
        ensures { (run : Groups) → HoldsGroup self.now run
            → result ≡ waited_for (rules_of self.now.params) run }
    {
        let window = self.params.slots - self.params.lead - 1;
        first_late(self.members.as_slice(), self.sender.sent(), window)
    }

    /// The newest picture in the window that each receiver that is there is known to have. The next
    /// picture refers to it, but where its chain may not grow; without one it is coded by itself.
    pub fn next_reference(&self) -> Option<u32>
        ensures { (run : Groups) → HoldsGroup self.now run
            → result ≡ newest_of_all (rules_of self.now.params) run }
    {
        let window = self.params.slots - self.params.lead - 1;
        newest_for_all(self.members.as_slice(), self.sender.sent(), window)
    }

    /// Takes another pace, which gives the quantisers from the next picture on.
    pub fn set_pace(&mut self, pace: P)
        ensures sent { self.new.sender.sent ≡ self.old.sender.sent }
        ensures pace { self.new.sender.pace ≡ pace }
        ensures draws_all { self.new.sender.draws_all ≡ self.old.sender.draws_all }
        ensures packets { self.new.sender.packets ≡ self.old.sender.packets }
        ensures params { self.new.params ≡ self.old.params }
        ensures holds { (run : Groups) → HoldsGroup self.old run → HoldsGroup self.new run }
    {
        self.sender.set_pace(pace);
    }

    /// Gives all memory back.
    pub fn finish(self) {
        let Group {
            sender,
            params: _,
            members: _,
        } = self;
        sender.finish();
    }
}
