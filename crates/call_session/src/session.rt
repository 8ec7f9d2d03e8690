//! A session: its calls, in the order in which a telephone makes them.
ghost use Rattle.std.specs.Prelude.{◌≡◌, ◌∷◌, List, [], IfOk};
ghost use Rattle.h263_planes.specs.Lent.{picture};
ghost use Rattle.h263_planes.specs.Samples.{IsPicture};
ghost use Rattle.receiver_end.specs.State.{run_of as receivers_run};
ghost use Rattle.stream_choice.specs.Choice.{run_source};
ghost use Rattle.session_intake.specs.Settings.{IsSettings};
ghost use Rattle.session_runs.specs.Histories.{history_entries};
ghost use Rattle.session_runs.specs.Following.{due_next};
ghost use Rattle.session_runs.specs.Kept.{config_in};
ghost use Rattle.call_session.specs.Sessions.{Anew, Asked, Datagram, DatagramOf, Ended, SessionEntry, Turn, at};
ghost use Rattle.call_session.specs.Sessions.{missing_at, outcome_of, outcome_of_one, played_run};
ghost use Rattle.call_session.specs.Sessions.{session_run, told_of_datagram, told_of_one};
ghost use Rattle.call_session.specs.Ruled.{IsRunPlayed, IsVerdict};
ghost use Rattle.call_session.specs.Whole.{IsSession, SessionStands};

use crate::rules::Rules;
use crate::verdict::{Arrived, RunPlayed};
use h263_planes::PictureRef;
use h263_types::OutOfMemory;
use packet_gaps::Nack;
use session_intake::{Cause, Counts, Settings, read};
use std::alloc::Global;
use std::boxed::BoxedSlice;
use stream_choice::Run;

// The most bytes of a packet.
const LONGEST: usize = 9_000;

/// A session: which stream is followed, which picture a packet is of, and when a picture is played,
/// between a network and a receiver. It must be finished, since it has no `Drop`.
pub struct Session {
    rules: Rules,
    // A packet as ends read it.
    room: BoxedSlice<u8>,
}

impl Session {
    /// Nothing came. All memory is taken here.
    pub fn start(alloc: Global, settings: &Settings) -> Result<Session, OutOfMemory>
        requires { IsSettings settings.now }
        ensures session { IfOk result IsSession }
        ensures settings { IfOk result (λ s. s.rules.settings ≡ settings.now) }
        ensures stands { IfOk result (λ s. SessionStands s []) }
    {
        let room = vec![in alloc; 0u8; LONGEST]?.into_boxed_slice();
        let rules = Rules::start(alloc, settings)?;
        Ok(Session { rules, room })
    }

    /// A datagram came.
    pub fn arrival(&mut self, bytes: &[u8], now: u64) -> Arrived
        requires { IsSession self.old }
        ensures session { IsSession self.new }
        ensures settings { self.new.rules.settings ≡ self.old.rules.settings }
        ensures answer { (past : List SessionEntry) → SessionStands self.old past
            → let c = config_in self.old.rules.settings in
            IsVerdict c.params.clock result.verdict (outcome_of c bytes.now now (session_run c past)) }
        ensures told { (past : List SessionEntry) → SessionStands self.old past
            → let c = config_in self.old.rules.settings in
            result.is_rival ≡ told_of_datagram c bytes.now now (session_run c past) }
        ensures stands { (past : List SessionEntry) → SessionStands self.old past
            → SessionStands self.new (Datagram bytes.now now ∷ past) }
    {
        self.rules.tick(now);
        match read(&self.rules.params(), bytes, &mut self.room) {
            Err(cause) => self.rules.drop_for(cause),
            Ok(seen) => self.rules.follow(&seen, &self.room[..bytes.len()]),
        }
    }

    /// A datagram came of a call in which only the stream with this SSRC is looked at: a packet of
    /// another one is dropped as [`Cause::OtherStream`], and costs no budget.
    pub fn arrival_of(&mut self, source: u32, bytes: &[u8], now: u64) -> Arrived
        requires { IsSession self.old }
        ensures session { IsSession self.new }
        ensures settings { self.new.rules.settings ≡ self.old.rules.settings }
        ensures answer { (past : List SessionEntry) → SessionStands self.old past
            → let c = config_in self.old.rules.settings in IsVerdict c.params.clock result.verdict
            (outcome_of_one c source bytes.now now (session_run c past)) }
        ensures told { (past : List SessionEntry) → SessionStands self.old past
            → let c = config_in self.old.rules.settings in
            result.is_rival ≡ told_of_one c source bytes.now now (session_run c past) }
        ensures stands { (past : List SessionEntry) → SessionStands self.old past
            → SessionStands self.new (DatagramOf source bytes.now now ∷ past) }
    {
        self.rules.tick(now);
        match read(&self.rules.params(), bytes, &mut self.room) {
            Err(cause) => self.rules.drop_for(cause),
            Ok(seen) => {
                if seen.source == source {
                    self.rules.follow(&seen, &self.room[..bytes.len()])
                } else {
                    self.rules.drop_for(Cause::OtherStream)
                }
            }
        }
    }

    /// When something is due next, as far as that is known, without another packet: 0 where it is
    /// due at once.
    pub fn due(&self) -> Option<u64>
        requires { IsSession self.now }
        ensures { (past : List SessionEntry) → SessionStands self.now past
            → let c = config_in self.now.rules.settings in
            result ≡ due_next c (session_run c past).follows }
    {
        self.rules.due()
    }

    /// Plays the next picture that is due by now, one a call, of the stream that is followed first.
    pub fn play(&mut self, now: u64) -> Option<RunPlayed>
        requires { IsSession self.old }
        ensures session { IsSession self.new }
        ensures settings { self.new.rules.settings ≡ self.old.rules.settings }
        ensures told { (past : List SessionEntry) → SessionStands self.old past
            → let c = config_in self.old.rules.settings in
            let st = at now (session_run c past) in IsRunPlayed c st (played_run c st) result }
        ensures stands { (past : List SessionEntry) → SessionStands self.old past
            → SessionStands self.new (Turn now ∷ past) }
    {
        self.rules.tick(now);
        self.rules.play()
    }

    /// The next packets to ask for again (RFC 4585, 6.2.1), of the stream that is followed, that can
    /// come before their pictures are due if the answer takes so long. They count as asked for then:
    /// no packet is asked for a third time, or again within a round trip. It is called until there
    /// are none. Nothing is asked for where it isn't known when the next picture is due, or where it
    /// is due at once.
    pub fn missing(&mut self, round_trip: u64, now: u64) -> Option<Nack>
        requires { IsSession self.old }
        ensures session { IsSession self.new }
        ensures settings { self.new.rules.settings ≡ self.old.rules.settings }
        ensures answer { (past : List SessionEntry) → SessionStands self.old past
            → let c = config_in self.old.rules.settings in
            result ≡ missing_at c round_trip (at now (session_run c past)) }
        ensures stands { (past : List SessionEntry) → SessionStands self.old past
            → SessionStands self.new (Asked round_trip now ∷ past) }
    {
        self.rules.tick(now);
        self.rules.missing(round_trip)
    }

    /// The stream with this SSRC has ended (an RTCP BYE). If it is the one that is followed, it is
    /// live no longer, so that another may be followed at once. A stream of which a trial failed
    /// waits as long as before.
    pub fn bye(&mut self, source: u32, now: u64)
        requires { IsSession self.old }
        ensures session { IsSession self.new }
        ensures settings { self.new.rules.settings ≡ self.old.rules.settings }
        ensures stands { (past : List SessionEntry) → SessionStands self.old past
            → SessionStands self.new (Ended source now ∷ past) }
    {
        self.rules.tick(now);
        self.rules.ended(source);
    }

    /// The call begins anew: no stream has a run any more. The clock, the budgets and what was counted
    /// stay.
    pub fn reset(&mut self, now: u64)
        requires { IsSession self.old }
        ensures session { IsSession self.new }
        ensures settings { self.new.rules.settings ≡ self.old.rules.settings }
        ensures stands { (past : List SessionEntry) → SessionStands self.old past
            → SessionStands self.new (Anew now ∷ past) }
    {
        self.rules.tick(now);
        self.rules.begin();
    }

    /// The picture on the screen: the one of the stream that is followed that was played last. Before
    /// the first all samples are 128.
    pub fn shown(&self) -> PictureRef<'_>
        requires { IsSession self.now }
        ensures run { (past : List SessionEntry) → SessionStands self.now past
            → let c = config_in self.now.rules.settings in
            picture result ≡ (receivers_run c.params
            (history_entries c (session_run c past).follows.lines.followed)).screen }
        ensures whole { IsPicture (picture result) }
    {
        self.rules.shown()
    }

    /// The SSRC of the stream of this run, if it has one.
    pub fn source(&self, run: Run) -> Option<u32>
        ensures { (past : List SessionEntry) → SessionStands self.now past → result
            ≡ run_source (session_run (config_in self.now.rules.settings) past).follows.streams run }
    {
        self.rules.source(run)
    }

    /// What was counted.
    pub fn statistics(&self) -> Counts
        ensures { (past : List SessionEntry) → SessionStands self.now past
            → result ≡ (session_run (config_in self.now.rules.settings) past).counts }
    {
        self.rules.counts()
    }

    /// Gives the memory back.
    pub fn finish(self) {
        let Session { rules, room: _ } = self;
        rules.finish();
    }
}
