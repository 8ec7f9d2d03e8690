//! The rules of a session, over packets as ends read them.
ghost use Rattle.std.specs.Prelude.{◌≡◌, ◌<◌, IfOk};
ghost use Rattle.h263_planes.specs.Lent.{picture};
ghost use Rattle.h263_planes.specs.Samples.{IsPicture};
ghost use Rattle.receiver_end.specs.State.{run_of as receivers_run};
ghost use Rattle.stream_choice.specs.declared.streams.Taker.{Taker};
ghost use Rattle.stream_choice.specs.Choice.{run_source};
ghost use Rattle.session_intake.specs.Settings.{IsSettings};
ghost use Rattle.session_runs.specs.Histories.{history_entries};
ghost use Rattle.session_runs.specs.Following.{due_next};
ghost use Rattle.session_runs.specs.Lines.{taker_run};
ghost use Rattle.session_runs.specs.Kept.{config_in};
ghost use Rattle.call_session.specs.Sessions.{SessionState, after_anew, after_ended, after_granted, after_missing};
ghost use Rattle.call_session.specs.Sessions.{after_played, after_seen, at, dropped, missing_at};
ghost use Rattle.call_session.specs.Sessions.{is_beside, is_rival, is_told, outcome_of_run, outcome_of_seen};
ghost use Rattle.call_session.specs.Sessions.{played_run, rivals_noted, state_at_start, taker_in, told_of_seen};
ghost use Rattle.call_session.specs.Ruled.{AreSessionRules, IsRunPlayed, IsVerdict, StateStands, verdict_dropped};

use crate::verdict::{Arrived, RunPlayed, Taken, Verdict};
use h263_planes::PictureRef;
use h263_types::{OutOfMemory, Params};
use packet_gaps::Nack;
use session_intake::{Budgets, Cause, Counts, Seen, Settings};
use session_runs::{Following, laws as session_runs_laws};
use std::alloc::Global;
use stream_choice::{Budget, Run, Taker};

// The clock stands at this time.
const LAST: u64 = (1 << 62) - 1;

/// The rules of a session. They must be finished, since they have no `Drop`.
pub struct Rules {
    settings: Settings,
    time: u64,
    following: Following,
    budgets: Budgets,
    rivals: Budget,
    counts: Counts,
}

// Whether a packet with this taker comes beside a stream that is live.
fn is_beside(taker: Taker, is_live: bool) -> bool
    ensures { result ≡ is_beside taker is_live }
{
    match taker {
        Taker::Former => is_live,
        Taker::NoRun => is_live,
        Taker::Followed => false,
        Taker::Tried => false,
        Taker::Begins => false,
    }
}

impl Rules {
    /// Nothing came. All memory is taken here.
    pub fn start(alloc: Global, settings: &Settings) -> Result<Rules, OutOfMemory>
        requires { IsSettings settings.now }
        ensures rules { IfOk result AreSessionRules }
        ensures settings { IfOk result (λ r. r.settings ≡ settings.now) }
        ensures stands { IfOk result (λ r. StateStands r state_at_start) }
    {
        let following = Following::start(alloc, settings)?;
        Ok(Rules {
            settings: *settings,
            time: 0,
            following,
            budgets: Budgets::new(),
            rivals: Budget::of(1),
            counts: Counts::none(),
        })
    }

    /// It is so late now.
    pub fn tick(&mut self, now: u64)
        requires { AreSessionRules self.old }
        ensures rules { AreSessionRules self.new }
        ensures settings { self.new.settings ≡ self.old.settings }
        ensures stands { (st : SessionState) → StateStands self.old st → StateStands self.new (at now st) }
    {
        session_runs_laws::kept_later();
        self.time = self.time.max(now.min(LAST));
    }

    /// A datagram is dropped.
    pub fn drop_for(&mut self, cause: Cause) -> Arrived
        requires { AreSessionRules self.old }
        ensures rules { AreSessionRules self.new }
        ensures settings { self.new.settings ≡ self.old.settings }
        ensures answer { result ≡ verdict_dropped cause }
        ensures stands { (st : SessionState) → StateStands self.old st
            → StateStands self.new (dropped cause st) }
    {
        self.counts.drop_for(cause);
        Arrived {
            verdict: Verdict::Dropped(cause),
            is_rival: false,
        }
    }

    // Whether it is told that another stream comes beside a live one: once a second.
    fn tells(&mut self, taker: Taker) -> bool
        requires { AreSessionRules self.old }
        ensures rules { AreSessionRules self.new }
        ensures settings { self.new.settings ≡ self.old.settings }
        ensures answer { (st : SessionState) → StateStands self.old st
            → result ≡ is_told (is_rival taker st) st.now st.rivals }
        ensures stands { (st : SessionState) → StateStands self.old st
            → StateStands self.new (rivals_noted taker st) }
    {
        if is_beside(taker, self.following.is_live(self.time)) {
            self.rivals.grants(self.time)
        } else {
            false
        }
    }

    // A packet with this taker is looked at.
    fn follow_granted(&mut self, seen: &Seen, taker: Taker, own: &[u8]) -> Arrived
        requires rules { AreSessionRules self.old }
        requires reference { seen.now.packet.reference < self.old.settings.rate.period }
        ensures rules { AreSessionRules self.new }
        ensures settings { self.new.settings ≡ self.old.settings }
        ensures answer { (st : SessionState) → StateStands self.old st
            → IsVerdict self.old.settings.params.clock result.verdict
            (outcome_of_run (config_in self.old.settings) seen.now taker (taker_run taker) own.now st) }
        ensures told { (st : SessionState) → StateStands self.old st
            → result.is_rival ≡ is_told (is_rival taker st) st.now st.rivals }
        ensures stands { (st : SessionState) → StateStands self.old st → StateStands self.new
            (after_granted (config_in self.old.settings) seen.now taker own.now st) }
    {
        let is_rival = self.tells(taker);
        self.following.note(seen.source, self.time);
        let taken = self
            .following
            .take(&self.settings, taker, &seen.packet, own, self.time);
        match taken {
            None => {
                self.counts.drop_for(Cause::OtherStream);
                Arrived {
                    verdict: Verdict::Dropped(Cause::OtherStream),
                    is_rival,
                }
            }
            Some((run, answer)) => {
                self.counts.take();
                Arrived {
                    verdict: Verdict::Taken(Taken {
                        run,
                        source: seen.source,
                        answer,
                    }),
                    is_rival,
                }
            }
        }
    }

    /// A packet of the call's pictures came, by what it says and as ends read it.
    pub fn follow(&mut self, seen: &Seen, own: &[u8]) -> Arrived
        requires rules { AreSessionRules self.old }
        requires reference { seen.now.packet.reference < self.old.settings.rate.period }
        ensures rules { AreSessionRules self.new }
        ensures settings { self.new.settings ≡ self.old.settings }
        ensures answer { (st : SessionState) → StateStands self.old st
            → IsVerdict self.old.settings.params.clock result.verdict
            (outcome_of_seen (config_in self.old.settings) seen.now (taker_in seen.now st) own.now st) }
        ensures told { (st : SessionState) → StateStands self.old st
            → result.is_rival ≡ told_of_seen (taker_in seen.now st) st }
        ensures stands { (st : SessionState) → StateStands self.old st → StateStands self.new
            (after_seen (config_in self.old.settings) seen.now (taker_in seen.now st) own.now st) }
    {
        let taker = self.following.taker(seen.source, self.time);
        if self.budgets.grants(taker, self.time) {
            self.follow_granted(seen, taker, own)
        } else {
            self.drop_for(Cause::TooFast)
        }
    }

    /// When something is due next, as far as that is known.
    pub fn due(&self) -> Option<u64>
        requires { AreSessionRules self.now }
        ensures { (st : SessionState) → StateStands self.now st
            → result ≡ due_next (config_in self.now.settings) st.follows }
    {
        self.following.due()
    }

    /// Plays the next picture that is due.
    pub fn play(&mut self) -> Option<RunPlayed>
        requires { AreSessionRules self.old }
        ensures rules { AreSessionRules self.new }
        ensures settings { self.new.settings ≡ self.old.settings }
        ensures told { (st : SessionState) → StateStands self.old st
            → IsRunPlayed (config_in self.old.settings) st
            (played_run (config_in self.old.settings) st) result }
        ensures stands { (st : SessionState) → StateStands self.old st → StateStands self.new
            (after_played (config_in self.old.settings)
            (played_run (config_in self.old.settings) st) st) }
    {
        match self.following.play(&self.settings, self.time) {
            None => None,
            Some((run, played)) => {
                self.counts.play_of(run, played.mark);
                Some(RunPlayed { run, played })
            }
        }
    }

    /// The next packets to ask for of the stream that is followed.
    pub fn missing(&mut self, round_trip: u64) -> Option<Nack>
        requires { AreSessionRules self.old }
        ensures rules { AreSessionRules self.new }
        ensures settings { self.new.settings ≡ self.old.settings }
        ensures answer { (st : SessionState) → StateStands self.old st
            → result ≡ missing_at (config_in self.old.settings) round_trip st }
        ensures stands { (st : SessionState) → StateStands self.old st → StateStands self.new
            (after_missing (config_in self.old.settings) round_trip st) }
    {
        self.following
            .missing(&self.settings, round_trip, self.time)
    }

    /// The stream with this SSRC has ended.
    pub fn ended(&mut self, source: u32)
        requires { AreSessionRules self.old }
        ensures rules { AreSessionRules self.new }
        ensures settings { self.new.settings ≡ self.old.settings }
        ensures stands { (st : SessionState) → StateStands self.old st
            → StateStands self.new (after_ended source st) }
    {
        self.following.ended(source, self.time);
    }

    /// No stream has a run any more.
    pub fn begin(&mut self)
        requires { AreSessionRules self.old }
        ensures rules { AreSessionRules self.new }
        ensures settings { self.new.settings ≡ self.old.settings }
        ensures stands { (st : SessionState) → StateStands self.old st
            → StateStands self.new (after_anew st) }
    {
        self.following.begin(&self.settings, self.time);
    }

    /// The SSRC of the stream of this run, if it has one.
    pub fn source(&self, run: Run) -> Option<u32>
        ensures { (st : SessionState) → StateStands self.now st
            → result ≡ run_source st.follows.streams run }
    {
        self.following.source(run)
    }

    /// The parameters of the call.
    pub fn params(&self) -> Params
        ensures { result ≡ self.now.settings.params }
    {
        self.settings.params
    }

    /// What was counted.
    pub fn counts(&self) -> Counts
        ensures { (st : SessionState) → StateStands self.now st → result ≡ st.counts }
    {
        self.counts
    }

    /// The picture on the screen of the stream that is followed.
    pub fn shown(&self) -> PictureRef<'_>
        requires { AreSessionRules self.now }
        ensures run { (st : SessionState) → StateStands self.now st → picture result
            ≡ (receivers_run self.now.settings.params
            (history_entries (config_in self.now.settings) st.follows.lines.followed)).screen }
        ensures whole { IsPicture (picture result) }
    {
        self.following.shown()
    }

    /// Gives the memory back.
    pub fn finish(self) {
        let Rules {
            settings: _,
            time: _,
            following,
            budgets: _,
            rivals: _,
            counts: _,
        } = self;
        following.finish();
    }
}
