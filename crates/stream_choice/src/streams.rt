//! Which stream is followed.
ghost use Rattle.std.specs.Prelude.{◌≡◌, None};
ghost use Rattle.std.specs.Option.{option_map};
ghost use Rattle.stream_choice.specs.Choice.{after_complete, after_end, streams_after_packet, is_live_one, run_source};
ghost use Rattle.stream_choice.specs.Choice.{former_turn, taker_of, tried_after, tried_turn, turn_of};
ghost use Rattle.stream_choice.specs.Choice.{with_former, with_tried};

use crate::stream::{self, Stream};
use crate::trial::{self, Trial};

/// A run of a receiver.
#[derive(Clone, Copy, Debug, PartialEq, Eq)]
pub enum Run {
    /// Of the stream that is followed.
    Followed,
    /// Of the stream that was followed before.
    Former,
    /// Of the stream that is tried.
    Tried,
}

/// Which run takes a packet.
#[derive(Clone, Copy, Debug, PartialEq, Eq)]
pub enum Taker {
    Followed,
    Former,
    Tried,
    /// A new run, of the stream that is tried from now on.
    Begins,
    /// None: the packet is dropped.
    NoRun,
}

/// What becomes of the runs where a picture is complete.
#[derive(Clone, Copy, Debug, PartialEq, Eq)]
pub enum Turn {
    /// Each stays what it is.
    Stays,
    /// The former one is followed, and the one that was followed is the former one.
    ToFormer,
    /// The tried one is followed, and the one that was followed is the former one.
    ToTried,
    /// The tried one is followed, and the former one stays.
    ToTriedBeside,
}

/// The streams that have a run. Times are nanoseconds of one clock.
#[derive(Clone, Copy)]
pub struct Streams {
    followed: Option<Stream>,
    former: Option<Stream>,
    tried: Option<Trial>,
}

impl Streams {
    /// No packet came yet.
    pub fn new() -> Streams
        ensures followed { result.followed ≡ None }
        ensures former { result.former ≡ None }
        ensures tried { result.tried ≡ None }
    {
        Streams {
            followed: None,
            former: None,
            tried: None,
        }
    }

    /// A packet of this stream came: which run takes it.
    pub fn packet(&mut self, source: u32, now: u64) -> Taker
        ensures taker { result ≡ taker_of self.old source now }
        ensures after { self.new ≡ streams_after_packet self.old source now }
    {
        let taker = self.taker(source, now);
        self.tried = tried_after(taker, self.tried, source, now);
        taker
    }

    // Which run takes a packet of this stream.
    fn taker(&self, source: u32, now: u64) -> Taker
        ensures { result ≡ taker_of self.now source now }
    {
        if stream::is_of(self.followed, source) {
            return Taker::Followed;
        }
        if stream::is_of(self.former, source) {
            return Taker::Former;
        }
        if trial::is_tried(self.tried, source, now) {
            return Taker::Tried;
        }
        if stream::is_live(self.followed, now) {
            return Taker::NoRun;
        }
        if trial::may_begin(self.tried, source, now) {
            return Taker::Begins;
        }
        Taker::NoRun
    }

    /// A picture of this run is complete.
    pub fn completed(&mut self, run: Run, now: u64)
        ensures { self.new ≡ after_complete self.old run now }
    {
        *self = match run {
            Run::Followed => self.with_followed(now),
            Run::Former => self.with_former(self.former, now),
            Run::Tried => self.with_tried(self.tried, now),
        };
    }

    /// The stream with this SSRC has ended. If it is followed, it is live no longer, so that another
    /// may be tried; it stays followed until a picture of another is complete. Trials stay as they
    /// are, so that none begins sooner after one that failed.
    pub fn ended(&mut self, source: u32, now: u64)
        ensures { self.new ≡ after_end self.old source now }
    {
        self.followed = stream::ended_if(self.followed, source, now);
    }

    /// What becomes of the runs once a picture of this one is complete.
    pub fn turn(&self, run: Run, now: u64) -> Turn
        ensures { result ≡ turn_of self.now run now }
    {
        match run {
            Run::Followed => Turn::Stays,
            Run::Former => self.former_turn(self.former, now),
            Run::Tried => self.tried_turn(self.tried, now),
        }
    }

    fn former_turn(&self, former: Option<Stream>, now: u64) -> Turn
        ensures { result ≡ former_turn self.now former now }
    {
        let Some(stream) = former else {
            return Turn::Stays;
        };
        let counted = stream.counted(now);
        if stream::overtakes(&counted, self.followed, now) {
            Turn::ToFormer
        } else {
            Turn::Stays
        }
    }

    fn tried_turn(&self, tried: Option<Trial>, now: u64) -> Turn
        ensures { result ≡ tried_turn self.now tried now }
    {
        let Some(_) = tried else {
            return Turn::Stays;
        };
        if self.is_live(now) {
            return Turn::Stays;
        }
        if stream::is_kept(self.former, self.followed) {
            Turn::ToTried
        } else {
            Turn::ToTriedBeside
        }
    }

    fn with_followed(&self, now: u64) -> Streams
        ensures { result ≡ after_complete self.now Run.Followed now }
    {
        let followed = match self.followed {
            Some(stream) => Some(stream.counted(now)),
            None => None,
        };
        Streams {
            followed,
            former: self.former,
            tried: self.tried,
        }
    }

    fn with_former(&self, former: Option<Stream>, now: u64) -> Streams
        ensures { result ≡ with_former self.now former now }
    {
        let Some(stream) = former else {
            return *self;
        };
        let counted = stream.counted(now);
        if stream::overtakes(&counted, self.followed, now) {
            Streams {
                followed: Some(counted),
                former: self.followed,
                tried: self.tried,
            }
        } else {
            Streams {
                followed: self.followed,
                former: Some(counted),
                tried: self.tried,
            }
        }
    }

    fn with_tried(&self, tried: Option<Trial>, now: u64) -> Streams
        ensures { result ≡ with_tried self.now tried now }
    {
        let Some(trial) = tried else {
            return *self;
        };
        let is_live = stream::is_live(self.followed, now);
        if is_live {
            return Streams {
                followed: self.followed,
                former: self.former,
                tried: None,
            };
        }
        Streams {
            followed: Some(Stream {
                source: trial.source,
                pictures: 1,
                last: now,
            }),
            former: stream::kept(self.former, self.followed),
            tried: None,
        }
    }

    /// Whether a picture of the stream that is followed was complete in the last half second.
    pub fn is_live(&self, now: u64) -> bool
        ensures { result ≡ is_live_one self.now.followed now }
    {
        stream::is_live(self.followed, now)
    }

    /// The SSRC of the stream of this run, if it has one.
    pub fn source(&self, run: Run) -> Option<u32>
        ensures { result ≡ run_source self.now run }
    {
        match run {
            Run::Followed => stream::source_of(self.followed),
            Run::Former => stream::source_of(self.former),
            Run::Tried => trial::source_of(self.tried),
        }
    }

    /// The SSRC of the stream that is followed, if there is one.
    pub fn followed(&self) -> Option<u32>
        ensures { result ≡ option_map (λ s. s.source) self.now.followed }
    {
        match self.followed {
            Some(stream) => Some(stream.source),
            None => None,
        }
    }
}

// The trial after a packet of this stream.
fn tried_after(taker: Taker, tried: Option<Trial>, source: u32, now: u64) -> Option<Trial>
    ensures { result ≡ tried_after taker tried source now }
{
    match taker {
        Taker::Tried => trial::touched(tried, now),
        Taker::Begins => Some(Trial {
            source,
            began: now,
            last: now,
        }),
        _ => tried,
    }
}
