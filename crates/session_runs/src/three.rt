//! The three runs of a session.
ghost use Rattle.std.specs.Prelude.{◌≡◌, ◌<◌, ◌≤◌, ◌^◌, ℕ, IfOk};
ghost use Rattle.h263_planes.specs.Lent.{picture};
ghost use Rattle.h263_planes.specs.Samples.{IsPicture};
ghost use Rattle.receiver_end.specs.State.{run_of};
ghost use Rattle.stream_choice.specs.declared.streams.Taker.{Taker};
ghost use Rattle.session_intake.specs.Settings.{IsSettings};
ghost use Rattle.session_runs.specs.Histories.{history_after_packet, after_play_if, answer_in, due_in};
ghost use Rattle.session_runs.specs.Histories.{after_nack, history_entries, is_due_in, moment_in, nack_at};
ghost use Rattle.session_runs.specs.Lines.{Lines, begun_lines, line_of, made_ready, turned, lines_with};
ghost use Rattle.session_runs.specs.Kept.{ArePlays, IsAnswerOf, config_in};
ghost use Rattle.session_runs.specs.Three.{AreKept, LinesStand};

use crate::kept::KeptRun;
use h263_planes::PictureRef;
use h263_types::OutOfMemory;
use packet_gaps::Nack;
use receiver_end::Played;
use session_intake::Settings;
use std::alloc::Global;
use std::mem::swap;
use stream_choice::{Run, Taker, Turn};
use stream_numbers::Packet;
use stream_run::Arrived;

/// The runs of the stream that is followed, of a former one and of one that is tried, each whether
/// there is such a stream or not. They must be finished, since they have no `Drop`.
pub struct ThreeRuns {
    followed: KeptRun,
    former: KeptRun,
    tried: KeptRun,
}

impl ThreeRuns {
    /// Nothing came. All memory is taken here.
    pub fn start(alloc: Global, settings: &Settings) -> Result<ThreeRuns, OutOfMemory>
        requires { IsSettings settings.now }
        ensures kept { IfOk result (AreKept settings.now 0) }
        ensures stands { IfOk result (λ t. LinesStand t (begun_lines 0)) }
    {
        let followed = KeptRun::start(alloc, settings)?;
        let former = match KeptRun::start(alloc, settings) {
            Ok(run) => run,
            Err(error) => {
                followed.finish();
                return Err(error);
            }
        };
        let tried = match KeptRun::start(alloc, settings) {
            Ok(run) => run,
            Err(error) => {
                followed.finish();
                former.finish();
                return Err(error);
            }
        };
        Ok(ThreeRuns {
            followed,
            former,
            tried,
        })
    }

    /// A run begins, or begins anew where that is needed, for a packet with this temporal reference.
    pub fn make_ready(&mut self, settings: &Settings, taker: Taker, reference: u32, now: u64)
        requires settings { IsSettings settings.now }
        requires reference { reference < 1024 }
        requires kept { AreKept settings.now now self.old }
        ensures kept { AreKept settings.now now self.new }
        ensures stands { (l : Lines) → LinesStand self.old l → LinesStand self.new
            (made_ready (config_in settings.now) taker reference now l) }
    {
        match taker {
            Taker::Followed => self.followed.make_ready(settings, reference, now),
            Taker::Former => self.former.make_ready(settings, reference, now),
            Taker::Tried => self.tried.make_ready(settings, reference, now),
            Taker::Begins => self.tried.begin(settings, reference, now),
            Taker::NoRun => {}
        }
    }

    /// A packet of the stream of this run came.
    pub fn arrival(
        &mut self,
        settings: &Settings,
        run: Run,
        packet: &Packet,
        bytes: &[u8],
        now: u64,
    ) -> Arrived
        requires reference { packet.now.reference < settings.now.rate.period }
        requires now { now < 2 ^ 62 }
        requires kept { AreKept settings.now now self.old }
        ensures kept { AreKept settings.now now self.new }
        ensures answer { (l : Lines) → LinesStand self.old l → IsAnswerOf settings.now.params.clock
            result (answer_in (config_in settings.now) packet.now bytes.now now (line_of run l)) }
        ensures stands { (l : Lines) → LinesStand self.old l → LinesStand self.new (lines_with run
            (history_after_packet (config_in settings.now) packet.now bytes.now now (line_of run l)) l) }
    {
        match run {
            Run::Followed => self.followed.arrival(settings, packet, bytes, now),
            Run::Former => self.former.arrival(settings, packet, bytes, now),
            Run::Tried => self.tried.arrival(settings, packet, bytes, now),
        }
    }

    /// The runs go with their streams.
    pub fn turn(&mut self, turn: Turn)
        ensures kept { (s : Settings) (now : ℕ) → AreKept s now self.old → AreKept s now self.new }
        ensures stands { (l : Lines) → LinesStand self.old l → LinesStand self.new (turned turn l) }
    {
        match turn {
            Turn::Stays => {}
            Turn::ToFormer => swap(&mut self.followed, &mut self.former),
            Turn::ToTried => {
                swap(&mut self.followed, &mut self.former);
                swap(&mut self.followed, &mut self.tried);
            }
            Turn::ToTriedBeside => swap(&mut self.followed, &mut self.tried),
        }
    }

    /// When the next picture of this run is due.
    pub fn due(&self, run: Run) -> Option<u64>
        ensures { (s : Settings) (now : ℕ) (l : Lines) → AreKept s now self.now
            → LinesStand self.now l → result ≡ due_in (config_in s) (line_of run l) }
    {
        match run {
            Run::Followed => self.followed.due(),
            Run::Former => self.former.due(),
            Run::Tried => self.tried.due(),
        }
    }

    /// Plays the next picture of this run if it is due by now.
    pub fn play_due(&mut self, settings: &Settings, run: Run, now: u64) -> Option<Played>
        requires kept { AreKept settings.now now self.old }
        ensures kept { AreKept settings.now now self.new }
        ensures told { (l : Lines) → LinesStand self.old l → ArePlays (config_in settings.now)
            (line_of run l) (is_due_in (config_in settings.now) now (line_of run l)) result }
        ensures stands { (l : Lines) → LinesStand self.old l → LinesStand self.new (lines_with run
            (after_play_if (config_in settings.now)
            (is_due_in (config_in settings.now) now (line_of run l)) now (line_of run l)) l) }
    {
        match run {
            Run::Followed => self.followed.play_due(settings, now),
            Run::Former => self.former.play_due(settings, now),
            Run::Tried => self.tried.play_due(settings, now),
        }
    }

    /// The next packets to ask for of the stream that is followed.
    pub fn missing(&mut self, settings: &Settings, round_trip: u64, now: u64) -> Option<Nack>
        requires settings { IsSettings settings.now }
        requires kept { AreKept settings.now now self.old }
        ensures kept { AreKept settings.now now self.new }
        ensures answer { (l : Lines) → LinesStand self.old l → result
            ≡ nack_at (moment_in (config_in settings.now) round_trip now l.followed) l.followed }
        ensures stands { (l : Lines) → LinesStand self.old l → LinesStand self.new (lines_with Run.Followed
            (after_nack (moment_in (config_in settings.now) round_trip now l.followed) l.followed) l) }
    {
        self.followed.missing(settings, round_trip, now)
    }

    /// All begin anew.
    pub fn begin(&mut self, settings: &Settings, now: u64)
        requires settings { IsSettings settings.now }
        requires kept { AreKept settings.now now self.old }
        ensures kept { AreKept settings.now now self.new }
        ensures stands { LinesStand self.new (begun_lines now) }
    {
        self.followed.begin(settings, 0, now);
        self.former.begin(settings, 0, now);
        self.tried.begin(settings, 0, now);
    }

    /// The picture on the screen of the stream that is followed.
    pub fn shown(&self) -> PictureRef<'_>
        ensures run { (s : Settings) (now : ℕ) (l : Lines) → AreKept s now self.now
            → LinesStand self.now l
            → picture result ≡ (run_of s.params (history_entries (config_in s) l.followed)).screen }
        ensures whole { IsPicture (picture result) }
    {
        self.followed.shown()
    }

    /// Gives the memory back.
    pub fn finish(self) {
        let ThreeRuns {
            followed,
            former,
            tried,
        } = self;
        followed.finish();
        former.finish();
        tried.finish();
    }
}
