//! The run of a stream, as a session keeps it.
ghost use Rattle.std.specs.Prelude.{◌≡◌, ◌<◌, ◌≤◌, ◌^◌, ℕ, IfOk, IfSome};
ghost use Rattle.h263_planes.specs.Lent.{picture};
ghost use Rattle.h263_planes.specs.Samples.{IsPicture};
ghost use Rattle.receiver_end.specs.State.{run_of};
ghost use Rattle.session_intake.specs.Settings.{IsSettings};
ghost use Rattle.session_runs.specs.Histories.{History, history_after_packet, history_after_play, answer_in, history_begun};
ghost use Rattle.session_runs.specs.Histories.{after_play_if, due_in, history_entries, is_due_in};
ghost use Rattle.session_runs.specs.Histories.{after_nack, moment_in, must_begin, nack_at, ready};
ghost use Rattle.session_runs.specs.Kept.{ArePlays, HistoryStands, IsAnswerOf, IsKeptRun, IsPlay, config_in};

use crate::unheard::Unheard;
use crate::{answers, repair};
use h263_planes::PictureRef;
use h263_types::OutOfMemory;
use packet_gaps::{Gaps, Moment, Nack};
use receiver_end::Played;
use session_intake::Settings;
use std::alloc::Global;
use stream_numbers::Packet;
use stream_run::{Arrived, StreamRun};

// A run has so many pictures at most.
const PICTURES: u32 = 1 << 20;

/// The run of a stream: pictures before `until` are due at once, since a packet came that is too
/// far ahead to be heard before they are played. It must be finished, since it has no `Drop`.
pub struct KeptRun {
    run: StreamRun,
    until: u32,
    unheard: Unheard,
    gaps: Gaps,
}

impl KeptRun {
    /// Nothing came. All memory is taken here.
    pub fn start(alloc: Global, settings: &Settings) -> Result<KeptRun, OutOfMemory>
        requires { IsSettings settings.now }
        ensures kept { IfOk result (IsKeptRun settings.now 0) }
        ensures stands { IfOk result (λ k. HistoryStands k (history_begun 0 0)) }
    {
        let run = StreamRun::start(alloc, &settings.params, settings.rate, settings.wait)?;
        Ok(KeptRun {
            run,
            until: 0,
            unheard: Unheard::fresh(0),
            gaps: Gaps::new(),
        })
    }

    /// Begins anew in the memory that it has, where a packet with this temporal reference came.
    pub fn begin(&mut self, settings: &Settings, reference: u32, now: u64)
        requires settings { IsSettings settings.now }
        requires reference { reference < 1024 }
        requires kept { IsKeptRun settings.now now self.old }
        ensures kept { IsKeptRun settings.now now self.new }
        ensures stands { HistoryStands self.new (history_begun reference now) }
    {
        self.run.begin(reference, settings.rate, settings.wait);
        self.until = 0;
        self.unheard = Unheard::fresh(now);
        self.gaps = Gaps::new();
    }

    // Whether it begins anew at its next packet.
    fn must_begin(&self, now: u64) -> bool
        ensures { (s : Settings) (h : History) → IsKeptRun s now self.now → HistoryStands self.now h
            → result ≡ must_begin (config_in s) now h }
    {
        if self.run.next() >= PICTURES {
            return true;
        }
        self.unheard.is_lost(now)
    }

    /// Begins anew where that is needed, for a packet with this temporal reference.
    pub fn make_ready(&mut self, settings: &Settings, reference: u32, now: u64)
        requires settings { IsSettings settings.now }
        requires reference { reference < 1024 }
        requires kept { IsKeptRun settings.now now self.old }
        ensures kept { IsKeptRun settings.now now self.new }
        ensures stands { (h : History) → HistoryStands self.old h
            → HistoryStands self.new (ready (config_in settings.now) reference now h) }
    {
        if self.must_begin(now) {
            self.begin(settings, reference, now);
        }
    }

    /// A packet of the stream came.
    pub fn arrival(
        &mut self,
        settings: &Settings,
        packet: &Packet,
        bytes: &[u8],
        now: u64,
    ) -> Arrived
        requires reference { packet.now.reference < settings.now.rate.period }
        requires now { now < 2 ^ 62 }
        requires kept { IsKeptRun settings.now now self.old }
        ensures kept { IsKeptRun settings.now now self.new }
        ensures answer { (h : History) → HistoryStands self.old h → IsAnswerOf settings.now.params.clock
            result (answer_in (config_in settings.now) packet.now bytes.now now h) }
        ensures stands { (h : History) → HistoryStands self.old h → HistoryStands self.new
            (history_after_packet (config_in settings.now) packet.now bytes.now now h) }
    {
        let place = self.run.place(packet, now);
        let answer = self.run.arrival(packet, bytes, now);
        self.until = answers::until_after(&answer, settings.params.lead, self.until);
        self.unheard = self.unheard.after(answers::is_heard(&answer), now);
        repair::note(&mut self.gaps, packet.sequence, place, &answer);
        answer
    }

    /// When the next picture is due, as far as that is known: 0 where it is due at once.
    pub fn due(&self) -> Option<u64>
        ensures exact { (s : Settings) (now : ℕ) (h : History) → IsKeptRun s now self.now
            → HistoryStands self.now h → result ≡ due_in (config_in s) h }
        ensures few { IfSome result (λ time. self.now.run.timed.times.next < 2 ^ 20) }
    {
        let next = self.run.next();
        if next >= PICTURES {
            return None;
        }
        if next < self.until {
            return Some(0);
        }
        self.run.due()
    }

    // Plays the next picture.
    fn play(&mut self, settings: &Settings, now: u64) -> Played
        requires few { self.old.run.timed.times.next < 2 ^ 20 }
        requires kept { IsKeptRun settings.now now self.old }
        ensures kept { IsKeptRun settings.now now self.new }
        ensures told { (h : History) → HistoryStands self.old h
            → IsPlay (config_in settings.now) h result }
        ensures stands { (h : History) → HistoryStands self.old h
            → HistoryStands self.new (history_after_play (config_in settings.now) now h) }
    {
        let played = self.run.play();
        self.gaps.played(self.run.next());
        played
    }

    /// Plays the next picture if it is due by now. It is on the screen then.
    pub fn play_due(&mut self, settings: &Settings, now: u64) -> Option<Played>
        requires kept { IsKeptRun settings.now now self.old }
        ensures kept { IsKeptRun settings.now now self.new }
        ensures told { (h : History) → HistoryStands self.old h
            → ArePlays (config_in settings.now) h (is_due_in (config_in settings.now) now h) result }
        ensures stands { (h : History) → HistoryStands self.old h → HistoryStands self.new
            (after_play_if (config_in settings.now) (is_due_in (config_in settings.now) now h) now h) }
    {
        let Some(time) = self.due() else {
            return None;
        };
        if now < time {
            return None;
        }
        Some(self.play(settings, now))
    }

    // The moment at which packets may be asked for: none where it isn't known when the next picture
    // is due, or where it is due at once.
    fn moment(&self, settings: &Settings, round_trip: u64, now: u64) -> Option<Moment>
        requires settings { IsSettings settings.now }
        requires kept { IsKeptRun settings.now now self.now }
        ensures { (h : History) → HistoryStands self.now h
            → result ≡ moment_in (config_in settings.now) round_trip now h }
    {
        let Some(due) = self.due() else {
            return None;
        };
        if due == 0 {
            return None;
        }
        Some(Moment {
            time: now,
            round_trip,
            next: self.run.next(),
            due,
            period: repair::picture_period(&settings.rate),
        })
    }

    /// The next packets of it to ask for, if there are any that can come in time.
    pub fn missing(&mut self, settings: &Settings, round_trip: u64, now: u64) -> Option<Nack>
        requires settings { IsSettings settings.now }
        requires kept { IsKeptRun settings.now now self.old }
        ensures kept { IsKeptRun settings.now now self.new }
        ensures answer { (h : History) → HistoryStands self.old h
            → result ≡ nack_at (moment_in (config_in settings.now) round_trip now h) h }
        ensures stands { (h : History) → HistoryStands self.old h → HistoryStands self.new
            (after_nack (moment_in (config_in settings.now) round_trip now h) h) }
    {
        match self.moment(settings, round_trip, now) {
            Some(moment) => self.gaps.ask(&moment),
            None => None,
        }
    }

    /// The picture on its screen.
    pub fn shown(&self) -> PictureRef<'_>
        ensures run { (s : Settings) (now : ℕ) (h : History) → IsKeptRun s now self.now
            → HistoryStands self.now h
            → picture result ≡ (run_of s.params (history_entries (config_in s) h)).screen }
        ensures whole { IsPicture (picture result) }
    {
        self.run.shown()
    }

    /// Gives the memory back.
    pub fn finish(self) {
        let KeptRun {
            run,
            until: _,
            unheard: _,
            gaps: _gaps,
        } = self;
        run.finish();
    }
}
