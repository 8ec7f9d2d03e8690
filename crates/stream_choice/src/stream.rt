//! A stream that is, or was, followed.
ghost use Rattle.std.specs.Prelude.{◌≡◌};
ghost use Rattle.std.specs.Option.{option_map};
ghost use Rattle.stream_choice.specs.Choice.{stream_counted, ended_at, ended_if, keeps_run, is_live, is_live_one, is_of, kept, overtakes};

// A stream is live for half a second after each complete picture.
const LIVE: u64 = 500_000_000;

/// A stream that is, or was, followed: its SSRC, how many pictures of it were complete, and when
/// the last one was.
#[derive(Clone, Copy)]
pub struct Stream {
    pub source: u32,
    pub pictures: u32,
    pub last: u64,
}

impl Stream {
    /// The same with one more picture.
    pub fn counted(&self, now: u64) -> Stream
        ensures { result ≡ stream_counted now self.now }
    {
        Stream {
            source: self.source,
            pictures: self.pictures.saturating_add(1),
            last: now,
        }
    }

    /// The same where it has ended: it is live no longer, half a second after the clock began or
    /// later.
    pub fn ended(&self, now: u64) -> Stream
        ensures { result ≡ ended_at now self.now }
    {
        Stream {
            source: self.source,
            pictures: self.pictures,
            last: self.last.min(now.saturating_sub(LIVE)),
        }
    }

    /// Whether a picture of it was complete in the last half second.
    pub fn is_live(&self, now: u64) -> bool
        ensures { result ≡ is_live now self.now }
    {
        now.saturating_sub(self.last) < LIVE
    }
}

/// Whether there is a stream, and it has this SSRC.
pub fn is_of(stream: Option<Stream>, source: u32) -> bool
    ensures { result ≡ is_of stream source }
{
    match stream {
        Some(stream) => stream.source == source,
        None => false,
    }
}

/// What is left of a stream where the one with this SSRC has ended.
pub fn ended_if(stream: Option<Stream>, source: u32, now: u64) -> Option<Stream>
    ensures { result ≡ ended_if stream source now }
{
    match stream {
        Some(stream) => {
            if stream.source == source {
                Some(stream.ended(now))
            } else {
                Some(stream)
            }
        }
        None => None,
    }
}

/// Whether there is a stream, and it is live.
pub fn is_live(stream: Option<Stream>, now: u64) -> bool
    ensures { result ≡ is_live_one stream now }
{
    match stream {
        Some(stream) => stream.is_live(now),
        None => false,
    }
}

/// Whether a former stream of which one more picture is complete is to be followed again.
pub fn overtakes(former: &Stream, followed: Option<Stream>, now: u64) -> bool
    ensures { result ≡ overtakes followed former.now now }
{
    match followed {
        Some(followed) => {
            if followed.is_live(now) {
                followed.pictures < former.pictures
            } else {
                true
            }
        }
        None => true,
    }
}

/// Of the former stream and of the one that was followed: the one that keeps its run.
pub fn kept(former: Option<Stream>, followed: Option<Stream>) -> Option<Stream>
    ensures { result ≡ kept former followed }
{
    match followed {
        None => former,
        Some(stream) => match former {
            None => followed,
            Some(other) => {
                if other.pictures < stream.pictures {
                    followed
                } else {
                    former
                }
            }
        },
    }
}

/// Whether the one that was followed keeps its run, and the former one doesn't.
pub fn is_kept(former: Option<Stream>, followed: Option<Stream>) -> bool
    ensures { result ≡ keeps_run former followed }
{
    match followed {
        None => false,
        Some(stream) => match former {
            None => true,
            Some(other) => other.pictures < stream.pictures,
        },
    }
}

/// The SSRC of a stream, if there is one.
pub fn source_of(stream: Option<Stream>) -> Option<u32>
    ensures { result ≡ option_map (λ s. s.source) stream }
{
    match stream {
        Some(stream) => Some(stream.source),
        None => None,
    }
}
