//! A receiver that knows when its pictures are due.
ghost use Rattle.std.specs.Prelude.{◌≡◌, ◌+◌, ◌<◌, ◌≤◌, ◌^◌, ◌∷◌, ℕ, List, [], IfOk, nat_lt, true, false};
ghost use Rattle.call_model.specs.Receiving.{PlayNext};
ghost use Rattle.h263_planes.specs.Lent.{picture};
ghost use Rattle.h263_planes.specs.Samples.{IsPicture};
ghost use Rattle.h263_types.specs.declared.params.Params.{Params};
ghost use Rattle.h263_types.specs.Params.{IsParams};
ghost use Rattle.receiver_end.specs.declared.answers.Heard.{Heard};
ghost use Rattle.receiver_end.specs.Answers.{IsHeard, IsPlayed};
ghost use Rattle.receiver_end.specs.State.{answer_after, mark_after, message_after, run_of};
ghost use Rattle.playout_times.specs.declared.arrival.Arrival.{Arrival};
ghost use Rattle.playout_times.specs.Due.{due_of};
ghost use Rattle.timed_receiver.specs.Kept.{MayBeHeard, TimedStands};
ghost use Rattle.timed_receiver.specs.Timed.{Came, Entry, Shown, arrivals_of, entries_of};
ghost use Rattle.timed_receiver.specs.Timed.{is_due_after, next_number_after};

use h263_planes::PictureRef;
use h263_types::{OutOfMemory, Params};
use playout_times::{Arrival, Times};
use receiver_end::{Heard, Played, Receiver};
use std::alloc::Global;

/// A receiver, and when its pictures are due. It must be finished, since it has no `Drop`.
pub struct TimedReceiver {
    receiver: Receiver,
    times: Times,
}

impl TimedReceiver {
    /// Nothing came. The next picture has this number, 1,048,576 at most, and each is due so many
    /// nanoseconds, fewer than 2^62, after it would come on the least way. All memory is taken here.
    pub fn start_at(
        alloc: Global,
        params: &Params,
        number: u32,
        wait: u64,
    ) -> Result<TimedReceiver, OutOfMemory>
        requires in_range { IsParams params.now }
        requires few { number ≤ 2 ^ 20 }
        requires wait { wait < 2 ^ 62 }
        ensures params { IfOk result (λ t. t.receiver.params ≡ params.now) }
        ensures wait { IfOk result (λ t. t.times.wait ≡ wait) }
        ensures next { IfOk result (λ t. t.times.next ≡ number) }
        ensures played { IfOk result (λ t. t.receiver.played ≡ number) }
        ensures last { IfOk result (λ t. t.times.last ≡ 0) }
        ensures stands { IfOk result (λ t. TimedStands t number []) }
    {
        let receiver = Receiver::start_at(alloc, params, number)?;
        Ok(TimedReceiver {
            receiver,
            times: Times::start(number, wait),
        })
    }

    /// Begins anew in the memory that it has: nothing came, and the next picture has this number,
    /// 1,048,576 at most.
    pub fn restart(&mut self, number: u32, wait: u64)
        requires few { number ≤ 2 ^ 20 }
        requires wait { wait < 2 ^ 62 }
        ensures params { self.new.receiver.params ≡ self.old.receiver.params }
        ensures wait { self.new.times.wait ≡ wait }
        ensures next { self.new.times.next ≡ number }
        ensures played { self.new.receiver.played ≡ number }
        ensures last { self.new.times.last ≡ 0 }
        ensures stands { TimedStands self.new number [] }
    {
        self.receiver.restart(number);
        self.times = Times::start(number, wait);
    }

    /// A packet came. It is heard unless its picture was played, and its way counts.
    pub fn arrival(&mut self, bytes: &[u8], arrival: Arrival) -> Heard
        requires { MayBeHeard self.old arrival }
        ensures params { self.new.receiver.params ≡ self.old.receiver.params }
        ensures wait { self.new.times.wait ≡ self.old.times.wait }
        ensures next { self.new.times.next ≡ self.old.times.next }
        ensures played { self.new.receiver.played ≡ self.old.receiver.played }
        ensures last { self.new.times.last ≡ arrival.at }
        ensures late { nat_lt arrival.picture self.old.times.next ≡ true → result ≡ Heard.Late }
        ensures answer { (first : ℕ) (past : List Entry) → TimedStands self.old first past
            → nat_lt arrival.picture self.old.times.next ≡ false
            → IsHeard self.old.receiver.params.clock result
            (answer_after self.old.receiver.params (entries_of first past) bytes.now) }
        ensures stands { (first : ℕ) (past : List Entry) → TimedStands self.old first past
            → TimedStands self.new first (Came bytes.now arrival ∷ past) }
    {
        self.times.arrived(arrival);
        if arrival.picture < self.times.next() {
            return Heard::Late;
        }
        self.receiver.packet(bytes)
    }

    /// When the next picture is due, in nanoseconds. None where nothing came of it, or of a later
    /// one.
    pub fn due(&self) -> Option<u64>
        ensures { (first : ℕ) (past : List Entry) → TimedStands self.now first past
            → result ≡ due_of self.now.times.wait (next_number_after first past) (arrivals_of past) }
    {
        self.times.due()
    }

    /// Whether the next picture is due by now.
    pub fn is_due(&self, now: u64) -> bool
        ensures { (first : ℕ) (past : List Entry) → TimedStands self.now first past
            → result ≡ is_due_after self.now.times.wait first past now }
    {
        self.times.is_due(now)
    }

    /// Plays the next picture, which is on the screen then. At most 1,048,576 are played.
    pub fn play(&mut self) -> Played
        requires receiver { self.old.receiver.played < 2 ^ 20 }
        requires times { self.old.times.next < 2 ^ 20 }
        ensures params { self.new.receiver.params ≡ self.old.receiver.params }
        ensures wait { self.new.times.wait ≡ self.old.times.wait }
        ensures next { self.new.times.next ≡ self.old.times.next + 1 }
        ensures played { self.new.receiver.played ≡ self.old.receiver.played + 1 }
        ensures last { self.new.times.last ≡ self.old.times.last }
        ensures number { (first : ℕ) (past : List Entry) → TimedStands self.old first past
            → result.number ≡ next_number_after first past }
        ensures told { (first : ℕ) (past : List Entry) → TimedStands self.old first past
            → IsPlayed self.old.receiver.params.clock result
            (mark_after self.old.receiver.params (entries_of first past))
            (message_after self.old.receiver.params (entries_of first past)) }
        ensures stands { (first now : ℕ) (past : List Entry) → TimedStands self.old first past
            → TimedStands self.new first (Shown now ∷ past) }
    {
        self.times.played();
        self.receiver.play()
    }

    /// The picture on the screen: the one played last, and before the first all samples are 128.
    pub fn shown(&self) -> PictureRef<'_>
        ensures run { (first : ℕ) (past : List Entry) → TimedStands self.now first past
            → picture result ≡ (run_of self.now.receiver.params (entries_of first past)).screen }
        ensures format { (picture result).format ≡ self.now.receiver.params.format }
        ensures whole { IsPicture (picture result) }
    {
        self.receiver.shown()
    }

    /// The number of the next picture.
    pub fn next(&self) -> u32
        ensures count { result ≡ self.now.times.next }
        ensures run { (first : ℕ) (past : List Entry) → TimedStands self.now first past
            → result ≡ next_number_after first past }
    {
        self.times.next()
    }

    /// Gives the memory back.
    pub fn finish(self) {
        let TimedReceiver { receiver, times: _ } = self;
        receiver.finish();
    }
}
