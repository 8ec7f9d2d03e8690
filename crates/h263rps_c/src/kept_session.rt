//! A session with what its calls ask for, so that C owes none of it.
ghost use Rattle.std.specs.Prelude.{◌≡◌, ℕ, List, [], ◌∷◌, Some, IfErr, IfOk, length};
ghost use Rattle.session_intake.specs.declared.settings.Settings.{Settings};
ghost use Rattle.session_intake.specs.Settings.{IsSettings};
ghost use Rattle.session_runs.specs.Following.{due_next};
ghost use Rattle.session_runs.specs.Kept.{config_in};
ghost use Rattle.call_session.specs.Sessions.{Anew, Asked, Datagram, DatagramOf, Ended, SessionEntry, Turn, at};
ghost use Rattle.call_session.specs.Sessions.{missing_at, outcome_of, outcome_of_one, played_run};
ghost use Rattle.call_session.specs.Sessions.{told_of_datagram, told_of_one};
ghost use Rattle.h263rps_c.specs.SessionNumbers.{counts_numbers, nack_numbers, time_or_never};
ghost use Rattle.h263rps_c.specs.Sessions.{HoldsSession, ShowsScreen, TellsOutcome, TellsTurn};
ghost use Rattle.h263rps_c.specs.Sessions.{source_after, played_source, state_after};
ghost use Rattle.h263rps_c.specs.declared.refusals.EndRefusal.TheVariants as refusals;

use crate::answers::number_or_zero;
use crate::refusals::EndRefusal;
use crate::session_answers::{CArrived, CCounts, CNack, CTurn};
use call_session::{Session, Settings};
use h263_planes::laws;
use std::alloc::Global;
use std::marker::Model;
use stream_choice::Run;

/// A session whose parts fit one another.
pub struct KeptSession {
    session: Session,
}

impl Model for KeptSession {
    ghost use Rattle.call_session.specs.declared.session.Session.{Session};
    ghost use Rattle.call_session.specs.Whole.{IsSession};

    ghost Value = { Session };

    ghost view = { λ k. k.session };

    ghost invariant = { λ k. IsSession k.session };
}

impl Drop for KeptSession {
    fn drop(self) {
        let KeptSession { session } = self;
        session.finish();
    }
}

// What is due next, as C has it.
fn time_or_never(time: Option<u64>) -> u64
    ensures { result ≡ time_or_never time }
{
    match time {
        None => u64::MAX,
        Some(time) => time,
    }
}

impl KeptSession {
    /// A session before its first datagram.
    pub fn start(alloc: Global, settings: &Settings) -> Result<Box<KeptSession>, EndRefusal>
        requires { IsSettings settings.now }
        ensures memory { IfErr result (λ why. why ≡ refusals.NoMemory) }
        ensures stands { IfOk result (λ k. HoldsSession settings.now [] (Some k.value)) }
    {
        let Ok(session) = Session::start(alloc, settings) else {
            return Err(EndRefusal::NoMemory);
        };
        match Box::new(alloc, KeptSession { session }) {
            Err(_) => Err(EndRefusal::NoMemory),
            Ok(kept) => Ok(kept),
        }
    }

    /// A datagram came.
    pub fn arrival(&mut self, bytes: &[u8], now: u64) -> CArrived
        ensures answer { (s : Settings) (past : List SessionEntry) → HoldsSession s past (Some self.old)
            → TellsOutcome s.params.clock result
            (outcome_of (config_in s) bytes.now now (state_after s past))
            (told_of_datagram (config_in s) bytes.now now (state_after s past)) }
        ensures stands { (s : Settings) (past : List SessionEntry) → HoldsSession s past (Some self.old)
            → HoldsSession s (Datagram bytes.now now ∷ past) (Some self.new) }
    {
        CArrived::of(&self.session.arrival(bytes, now))
    }

    /// A datagram came, where those of one stream alone are taken.
    pub fn arrival_of(&mut self, source: u32, bytes: &[u8], now: u64) -> CArrived
        ensures answer { (s : Settings) (past : List SessionEntry) → HoldsSession s past (Some self.old)
            → TellsOutcome s.params.clock result
            (outcome_of_one (config_in s) source bytes.now now (state_after s past))
            (told_of_one (config_in s) source bytes.now now (state_after s past)) }
        ensures stands { (s : Settings) (past : List SessionEntry) → HoldsSession s past (Some self.old)
            → HoldsSession s (DatagramOf source bytes.now now ∷ past) (Some self.new) }
    {
        CArrived::of(&self.session.arrival_of(source, bytes, now))
    }

    /// The next packets to ask for again.
    pub fn missing(&mut self, round_trip: u64, now: u64) -> CNack
        ensures answer { (s : Settings) (past : List SessionEntry) → HoldsSession s past (Some self.old)
            → result ≡ nack_numbers
            (missing_at (config_in s) round_trip (at now (state_after s past))) }
        ensures stands { (s : Settings) (past : List SessionEntry) → HoldsSession s past (Some self.old)
            → HoldsSession s (Asked round_trip now ∷ past) (Some self.new) }
    {
        CNack::of(self.session.missing(round_trip, now))
    }

    /// A stream has ended.
    pub fn bye(&mut self, source: u32, now: u64)
        ensures { (s : Settings) (past : List SessionEntry) → HoldsSession s past (Some self.old)
            → HoldsSession s (Ended source now ∷ past) (Some self.new) }
    {
        self.session.bye(source, now);
    }

    /// No stream has a run any more.
    pub fn reset(&mut self, now: u64)
        ensures { (s : Settings) (past : List SessionEntry) → HoldsSession s past (Some self.old)
            → HoldsSession s (Anew now ∷ past) (Some self.new) }
    {
        self.session.reset(now);
    }

    /// When something is due next.
    pub fn due(&self) -> u64
        ensures { (s : Settings) (past : List SessionEntry) → HoldsSession s past (Some self.now)
            → result ≡ time_or_never (due_next (config_in s) (state_after s past).follows) }
    {
        time_or_never(self.session.due())
    }

    /// Plays the next picture that is due by now.
    pub fn play(&mut self, now: u64) -> CTurn
        ensures answer { (s : Settings) (past : List SessionEntry) → HoldsSession s past (Some self.old)
            → let c = config_in s in let st = at now (state_after s past) in
            TellsTurn c st result (played_run c st)
            (played_source s (Turn now ∷ past) (played_run c st)) }
        ensures stands { (s : Settings) (past : List SessionEntry) → HoldsSession s past (Some self.old)
            → HoldsSession s (Turn now ∷ past) (Some self.new) }
    {
        match self.session.play(now) {
            None => CTurn::none(),
            Some(turn) => CTurn::of(&turn, number_or_zero(self.session.source(turn.run))),
        }
    }

    /// The samples of the picture on the screen.
    pub fn shown(&self) -> &[u8]
        ensures { ShowsScreen (Some self.now) result.now }
    {
        laws::planes_are_bytes();
        self.session.shown().bytes()
    }

    /// The SSRC of the stream of this run, if it has one.
    pub fn source(&self, run: Run) -> Option<u32>
        ensures { (s : Settings) (past : List SessionEntry) → HoldsSession s past (Some self.now)
            → result ≡ source_after s past run }
    {
        self.session.source(run)
    }

    /// What was counted.
    pub fn counts(&self) -> CCounts
        ensures { (s : Settings) (past : List SessionEntry) → HoldsSession s past (Some self.now)
            → result ≡ counts_numbers (state_after s past).counts }
    {
        CCounts::of(&self.session.statistics())
    }
}
