//! The receiving run of one stream.
ghost use Rattle.std.specs.Prelude.{◌≡◌, ◌+◌, ◌-◌, ◌<◌, ◌≤◌, ◌^◌, ◌∷◌, ℕ, List, [], IfOk};
ghost use Rattle.h263_planes.specs.Lent.{picture};
ghost use Rattle.h263_planes.specs.Samples.{IsPicture};
ghost use Rattle.h263_types.specs.Params.{IsParams};
ghost use Rattle.stream_numbers.specs.Placing.{IsRate};
ghost use Rattle.stream_numbers.specs.Streams.{place_of};
ghost use Rattle.playout_times.specs.Due.{due_of};
ghost use Rattle.receiver_end.specs.Answers.{IsPlayed};
ghost use Rattle.receiver_end.specs.State.{mark_after, message_after, run_of};
ghost use Rattle.timed_receiver.specs.Timed.{arrivals_of, entries_of, is_due_after, next_number_after};
ghost use Rattle.stream_run.specs.Entries.{Came, StreamEntry, Shown, heard_of, timed_of};
ghost use Rattle.stream_run.specs.Kept.{IsArrived, IsStreamRun, RunStands};

use h263_planes::PictureRef;
use h263_types::{OutOfMemory, Params};
use playout_times::Arrival;
use receiver_end::{Heard, Played};
use std::alloc::Global;
use stream_numbers::{Numbers, Packet, Place, Rate};
use timed_receiver::TimedReceiver;

// Pictures that are open before the first one that came, for packets out of order at the start.
const BEFORE: u32 = 2;

/// The answer to a packet.
#[derive(Clone, Copy, Debug, PartialEq, Eq)]
pub enum Arrived {
    /// Its picture is ahead of the clock, or none that there can be: nothing changes.
    NoPlace,
    /// It is of this picture, which is too far ahead to be heard: those before it are to be played
    /// first, and the packet handed in again.
    Ahead(u32),
    /// The receiver's answer.
    Heard(Heard),
}

/// The receiving run of one stream. It must be finished, since it has no `Drop`.
pub struct StreamRun {
    numbers: Numbers,
    timed: TimedReceiver,
    lead: u32,
}

impl StreamRun {
    /// Nothing came. Each picture is due so many nanoseconds, fewer than 2^62, after it would come
    /// on the least way. All memory is taken here.
    pub fn start(
        alloc: Global,
        params: &Params,
        rate: Rate,
        wait: u64,
    ) -> Result<StreamRun, OutOfMemory>
        requires in_range { IsParams params.now }
        requires rate { IsRate rate }
        requires wait { wait < 2 ^ 62 }
        ensures run { IfOk result IsStreamRun }
        ensures rate { IfOk result (λ r. r.numbers.rate ≡ rate) }
        ensures params { IfOk result (λ r. r.timed.receiver.params ≡ params.now) }
        ensures next { IfOk result (λ r. r.timed.times.next ≡ 0) }
        ensures last { IfOk result (λ r. r.timed.times.last ≡ 0) }
        ensures wait { IfOk result (λ r. r.timed.times.wait ≡ wait) }
        ensures stands { IfOk result (λ r. RunStands r 0 []) }
    {
        let timed = TimedReceiver::start_at(alloc, params, 0, wait)?;
        Ok(StreamRun {
            numbers: Numbers::start(rate),
            timed,
            lead: params.lead,
        })
    }

    /// Begins anew in the memory that it has: nothing came. The first picture is two before the one
    /// that this temporal reference names, for packets out of order at the start.
    pub fn begin(&mut self, reference: u32, rate: Rate, wait: u64)
        requires run { IsStreamRun self.old }
        requires reference { reference < 1024 }
        requires rate { IsRate rate }
        requires wait { wait < 2 ^ 62 }
        ensures run { IsStreamRun self.new }
        ensures rate { self.new.numbers.rate ≡ rate }
        ensures params { self.new.timed.receiver.params ≡ self.old.timed.receiver.params }
        ensures next { self.new.timed.times.next ≡ reference - 2 }
        ensures last { self.new.timed.times.last ≡ 0 }
        ensures wait { self.new.timed.times.wait ≡ wait }
        ensures stands { RunStands self.new (reference - 2) [] }
    {
        self.numbers = Numbers::start(rate);
        self.timed.restart(reference.saturating_sub(BEFORE), wait);
    }

    /// The place that this packet has if it comes now, if it has one.
    pub fn place(&self, packet: &Packet, now: u64) -> Option<Place>
        requires reference { packet.now.reference < self.now.numbers.rate.period }
        requires now { now < 2 ^ 62 }
        ensures { (first : ℕ) (past : List StreamEntry) → RunStands self.now first past
            → result ≡ place_of self.now.numbers.rate (heard_of past) packet.now now }
    {
        let mut numbers = self.numbers;
        numbers.place(packet, now)
    }

    /// A packet came, no earlier than the one before.
    pub fn arrival(&mut self, packet: &Packet, bytes: &[u8], now: u64) -> Arrived
        requires run { IsStreamRun self.old }
        requires reference { packet.now.reference < self.old.numbers.rate.period }
        requires now { now < 2 ^ 62 }
        requires order { self.old.timed.times.last ≤ now }
        ensures run { IsStreamRun self.new }
        ensures rate { self.new.numbers.rate ≡ self.old.numbers.rate }
        ensures params { self.new.timed.receiver.params ≡ self.old.timed.receiver.params }
        ensures next { self.new.timed.times.next ≡ self.old.timed.times.next }
        ensures last { self.new.timed.times.last ≤ now }
        ensures wait { self.new.timed.times.wait ≡ self.old.timed.times.wait }
        ensures answer { (first : ℕ) (past : List StreamEntry) → RunStands self.old first past
            → IsArrived self.old.timed.receiver.params first self.old.lead
            (timed_of self.old.numbers.rate first self.old.lead past)
            (place_of self.old.numbers.rate (heard_of past) packet.now now) bytes.now result }
        ensures stands { (first : ℕ) (past : List StreamEntry) → RunStands self.old first past
            → RunStands self.new first (Came packet.now bytes.now now ∷ past) }
    {
        let Some(place) = self.numbers.place(packet, now) else {
            return Arrived::NoPlace;
        };
        if place.number as u64 > self.timed.next() as u64 + self.lead as u64 {
            return Arrived::Ahead(place.number);
        }
        let arrival = Arrival {
            picture: place.number,
            captured: place.captured,
            at: now,
        };
        Arrived::Heard(self.timed.arrival(bytes, arrival))
    }

    /// When the next picture is due, in nanoseconds, as far as that is known.
    pub fn due(&self) -> Option<u64>
        ensures { (first : ℕ) (past : List StreamEntry) → RunStands self.now first past
            → let timed = timed_of self.now.numbers.rate first self.now.lead past in
            result ≡ due_of self.now.timed.times.wait (next_number_after first timed) (arrivals_of timed) }
    {
        self.timed.due()
    }

    /// Plays the next picture, which is on the screen then. At most 1,048,576 are played.
    pub fn play(&mut self) -> Played
        requires run { IsStreamRun self.old }
        requires few { self.old.timed.times.next < 2 ^ 20 }
        ensures run { IsStreamRun self.new }
        ensures rate { self.new.numbers.rate ≡ self.old.numbers.rate }
        ensures params { self.new.timed.receiver.params ≡ self.old.timed.receiver.params }
        ensures next { self.new.timed.times.next ≡ self.old.timed.times.next + 1 }
        ensures last { self.new.timed.times.last ≡ self.old.timed.times.last }
        ensures wait { self.new.timed.times.wait ≡ self.old.timed.times.wait }
        ensures number { (first : ℕ) (past : List StreamEntry) → RunStands self.old first past
            → result.number ≡ next_number_after first
            (timed_of self.old.numbers.rate first self.old.lead past) }
        ensures told { (first : ℕ) (past : List StreamEntry) → RunStands self.old first past
            → let entries = entries_of first (timed_of self.old.numbers.rate first self.old.lead past) in
            IsPlayed self.old.timed.receiver.params.clock result
            (mark_after self.old.timed.receiver.params entries)
            (message_after self.old.timed.receiver.params entries) }
        ensures stands { (first now : ℕ) (past : List StreamEntry) → RunStands self.old first past
            → RunStands self.new first (Shown now ∷ past) }
    {
        self.timed.play()
    }

    /// The picture on the screen: the one played last, and before the first all samples are 128.
    pub fn shown(&self) -> PictureRef<'_>
        ensures run { (first : ℕ) (past : List StreamEntry) → RunStands self.now first past
            → picture result ≡ (run_of self.now.timed.receiver.params
            (entries_of first (timed_of self.now.numbers.rate first self.now.lead past))).screen }
        ensures format { (picture result).format ≡ self.now.timed.receiver.params.format }
        ensures whole { IsPicture (picture result) }
    {
        self.timed.shown()
    }

    /// The number of the next picture.
    pub fn next(&self) -> u32
        ensures count { result ≡ self.now.timed.times.next }
        ensures run { (first : ℕ) (past : List StreamEntry) → RunStands self.now first past
            → result ≡ next_number_after first (timed_of self.now.numbers.rate first self.now.lead past) }
    {
        self.timed.next()
    }

    /// Gives the memory back.
    pub fn finish(self) {
        let StreamRun {
            numbers: _,
            timed,
            lead: _,
        } = self;
        timed.finish();
    }
}
