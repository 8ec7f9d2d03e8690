//! The streams that have a run, and their runs.
ghost use Rattle.std.specs.Prelude.{◌≡◌, ◌<◌, ◌≤◌, ◌^◌, ℕ, List, IfOk, None};
ghost use Rattle.h263_planes.specs.Lent.{picture};
ghost use Rattle.h263_planes.specs.Samples.{IsPicture};
ghost use Rattle.receiver_end.specs.State.{run_of as receivers_run};
ghost use Rattle.stream_choice.specs.Choice.{is_live_one, run_source, taker_of};
ghost use Rattle.session_intake.specs.Settings.{IsSettings};
ghost use Rattle.session_runs.specs.Histories.{answer_in, history_entries};
ghost use Rattle.session_runs.specs.Lines.{Lines, begun_lines, line_of, taker_run};
ghost use Rattle.session_runs.specs.Kept.{IsAnswerOf, config_in};
ghost use Rattle.session_runs.specs.Three.{AreKept};
ghost use Rattle.session_runs.specs.Following.{Follows, after_asked, after_bye, after_heard, after_play_of};
ghost use Rattle.session_runs.specs.Following.{after_run, after_taker, nack_of_followed};
ghost use Rattle.session_runs.specs.Following.{due_next, due_of_run, earlier, is_run_due, source_noted, run_due};
ghost use Rattle.session_runs.specs.Followed.{ArePlayed, AreTaken, FollowsStand, begun_follows};

use crate::answers;
use crate::three::ThreeRuns;
use h263_planes::PictureRef;
use h263_types::OutOfMemory;
use packet_gaps::Nack;
use receiver_end::Played;
use session_intake::Settings;
use std::alloc::Global;
use stream_choice::{Run, Streams, Taker};
use stream_numbers::Packet;
use stream_run::Arrived;

/// The streams that have a run, and their runs.
pub struct Following {
    streams: Streams,
    runs: ThreeRuns,
}

// The run that takes a packet, if there is one.
fn run_of(taker: Taker) -> Option<Run>
    ensures { result ≡ taker_run taker }
{
    match taker {
        Taker::Followed => Some(Run::Followed),
        Taker::Former => Some(Run::Former),
        Taker::Tried => Some(Run::Tried),
        Taker::Begins => Some(Run::Tried),
        Taker::NoRun => None,
    }
}

// The earlier of two times.
fn earlier(a: Option<u64>, b: Option<u64>) -> Option<u64>
    ensures { result ≡ earlier a b }
{
    match a {
        None => b,
        Some(first) => match b {
            None => a,
            Some(second) => Some(first.min(second)),
        },
    }
}

impl Following {
    /// Nothing came. All memory is taken here.
    pub fn start(alloc: Global, settings: &Settings) -> Result<Following, OutOfMemory>
        requires { IsSettings settings.now }
        ensures kept { IfOk result (λ f. AreKept settings.now 0 f.runs) }
        ensures stands { IfOk result (λ f. FollowsStand f (begun_follows 0)) }
    {
        let runs = ThreeRuns::start(alloc, settings)?;
        Ok(Following {
            streams: Streams::new(),
            runs,
        })
    }

    /// Which run takes a packet of this stream now.
    pub fn taker(&self, source: u32, now: u64) -> Taker
        ensures { result ≡ taker_of self.now.streams source now }
    {
        let mut streams = self.streams;
        streams.packet(source, now)
    }

    /// A packet of this stream came.
    pub fn note(&mut self, source: u32, now: u64)
        ensures runs { self.new.runs ≡ self.old.runs }
        ensures stands { (f : Follows) → FollowsStand self.old f
            → FollowsStand self.new (source_noted source now f) }
    {
        self.streams.packet(source, now);
    }

    /// Whether the stream that is followed is live.
    pub fn is_live(&self, now: u64) -> bool
        ensures { result ≡ is_live_one self.now.streams.followed now }
    {
        self.streams.is_live(now)
    }

    /// The SSRC of the stream of this run, if it has one.
    pub fn source(&self, run: Run) -> Option<u32>
        ensures { result ≡ run_source self.now.streams run }
    {
        self.streams.source(run)
    }

    // The stream of this run has a packet that is heard.
    fn hear(
        &mut self,
        settings: &Settings,
        run: Run,
        packet: &Packet,
        bytes: &[u8],
        now: u64,
    ) -> Arrived
        requires reference { packet.now.reference < settings.now.rate.period }
        requires now { now < 2 ^ 62 }
        requires kept { AreKept settings.now now self.old.runs }
        ensures kept { AreKept settings.now now self.new.runs }
        ensures answer { (f : Follows) → FollowsStand self.old f → IsAnswerOf settings.now.params.clock
            result (answer_in (config_in settings.now) packet.now bytes.now now (line_of run f.lines)) }
        ensures stands { (f : Follows) → FollowsStand self.old f → FollowsStand self.new
            (after_heard (config_in settings.now) run packet.now bytes.now now f) }
    {
        let answer = self.runs.arrival(settings, run, packet, bytes, now);
        if answers::is_complete(&answer) {
            let turn = self.streams.turn(run, now);
            self.streams.completed(run, now);
            self.runs.turn(turn);
        }
        answer
    }

    /// A packet with this taker came: the run that takes it, and its answer.
    pub fn take(
        &mut self,
        settings: &Settings,
        taker: Taker,
        packet: &Packet,
        bytes: &[u8],
        now: u64,
    ) -> Option<(Run, Arrived)>
        requires settings { IsSettings settings.now }
        requires reference { packet.now.reference < settings.now.rate.period }
        requires now { now < 2 ^ 62 }
        requires kept { AreKept settings.now now self.old.runs }
        ensures kept { AreKept settings.now now self.new.runs }
        ensures answer { (f : Follows) → FollowsStand self.old f → AreTaken settings.now taker
            (taker_run taker) packet.now bytes.now now f result }
        ensures stands { (f : Follows) → FollowsStand self.old f → FollowsStand self.new
            (after_taker (config_in settings.now) taker packet.now bytes.now now f) }
    {
        let Some(run) = run_of(taker) else {
            return None;
        };
        self.runs.make_ready(settings, taker, packet.reference, now);
        let answer = self.hear(settings, run, packet, bytes, now);
        Some((run, answer))
    }

    // When the next picture of this run is due.
    fn due_of(&self, run: Run) -> Option<u64>
        ensures { (s : Settings) (now : ℕ) (f : Follows) → AreKept s now self.now.runs
            → FollowsStand self.now f → result ≡ due_of_run (config_in s) run f }
    {
        match self.streams.source(run) {
            Some(_) => self.runs.due(run),
            None => None,
        }
    }

    /// When something is due next, as far as that is known.
    pub fn due(&self) -> Option<u64>
        ensures { (s : Settings) (now : ℕ) (f : Follows) → AreKept s now self.now.runs
            → FollowsStand self.now f → result ≡ due_next (config_in s) f }
    {
        earlier(
            self.due_of(Run::Followed),
            earlier(self.due_of(Run::Former), self.due_of(Run::Tried)),
        )
    }

    // Whether a picture of this run is due by now.
    fn is_run_due(&self, run: Run, now: u64) -> bool
        ensures { (s : Settings) (then : ℕ) (f : Follows) → AreKept s then self.now.runs
            → FollowsStand self.now f → result ≡ is_run_due (config_in s) run now f }
    {
        match self.due_of(run) {
            Some(time) => time <= now,
            None => false,
        }
    }

    // The run of which a picture is due by now.
    fn run_due(&self, now: u64) -> Option<Run>
        ensures { (s : Settings) (then : ℕ) (f : Follows) → AreKept s then self.now.runs
            → FollowsStand self.now f → result ≡ run_due (config_in s) now f }
    {
        if self.is_run_due(Run::Followed, now) {
            return Some(Run::Followed);
        }
        if self.is_run_due(Run::Former, now) {
            return Some(Run::Former);
        }
        if self.is_run_due(Run::Tried, now) {
            return Some(Run::Tried);
        }
        None
    }

    /// Plays the next picture that is due by now, of the stream that is followed first.
    pub fn play(&mut self, settings: &Settings, now: u64) -> Option<(Run, Played)>
        requires kept { AreKept settings.now now self.old.runs }
        ensures kept { AreKept settings.now now self.new.runs }
        ensures told { (f : Follows) → FollowsStand self.old f → ArePlayed (config_in settings.now) f
            (run_due (config_in settings.now) now f) result }
        ensures stands { (f : Follows) → FollowsStand self.old f → FollowsStand self.new
            (after_play_of (config_in settings.now) (run_due (config_in settings.now) now f) now f) }
    {
        let Some(run) = self.run_due(now) else {
            return None;
        };
        let Some(played) = self.runs.play_due(settings, run, now) else {
            return None;
        };
        Some((run, played))
    }

    /// The next packets to ask for of the stream that is followed, if there are any that can come in
    /// time.
    pub fn missing(&mut self, settings: &Settings, round_trip: u64, now: u64) -> Option<Nack>
        requires settings { IsSettings settings.now }
        requires kept { AreKept settings.now now self.old.runs }
        ensures kept { AreKept settings.now now self.new.runs }
        ensures answer { (f : Follows) → FollowsStand self.old f
            → result ≡ nack_of_followed (config_in settings.now) round_trip now f }
        ensures stands { (f : Follows) → FollowsStand self.old f
            → FollowsStand self.new (after_asked (config_in settings.now) round_trip now f) }
    {
        match self.streams.source(Run::Followed) {
            Some(_) => self.runs.missing(settings, round_trip, now),
            None => None,
        }
    }

    /// The stream with this SSRC has ended.
    pub fn ended(&mut self, source: u32, now: u64)
        ensures runs { self.new.runs ≡ self.old.runs }
        ensures stands { (f : Follows) → FollowsStand self.old f
            → FollowsStand self.new (after_bye source now f) }
    {
        self.streams.ended(source, now);
    }

    /// No stream has a run any more.
    pub fn begin(&mut self, settings: &Settings, now: u64)
        requires settings { IsSettings settings.now }
        requires kept { AreKept settings.now now self.old.runs }
        ensures kept { AreKept settings.now now self.new.runs }
        ensures stands { FollowsStand self.new (begun_follows now) }
    {
        self.streams = Streams::new();
        self.runs.begin(settings, now);
    }

    /// The picture on the screen of the stream that is followed.
    pub fn shown(&self) -> PictureRef<'_>
        ensures run { (s : Settings) (now : ℕ) (f : Follows) → AreKept s now self.now.runs
            → FollowsStand self.now f → picture result
            ≡ (receivers_run s.params (history_entries (config_in s) f.lines.followed)).screen }
        ensures whole { IsPicture (picture result) }
    {
        self.runs.shown()
    }

    /// Gives the memory back.
    pub fn finish(self) {
        let Following { streams: _, runs } = self;
        runs.finish();
    }
}
