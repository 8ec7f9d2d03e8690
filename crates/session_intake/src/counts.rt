//! What a session counts.
ghost use Rattle.std.specs.Prelude.{◌≡◌};
ghost use Rattle.session_intake.specs.Counts.{after_drop, after_mark, counts_after_play, after_taken, nothing_counted};

use crate::seen::Cause;
use h263_types::Mark;
use stream_choice::Run;

/// What a session counts, each up to 2^64 - 1: the datagrams that a run took, those that were
/// dropped, by their causes, and the pictures of the streams that were followed, by their marks.
#[derive(Clone, Copy, Debug, PartialEq, Eq)]
pub struct Counts {
    pub taken: u64,
    pub long: u64,
    pub malformed: u64,
    pub other_pictures: u64,
    pub too_fast: u64,
    pub other_stream: u64,
    pub exact: u64,
    pub patched: u64,
    pub held: u64,
}

impl Counts {
    /// Nothing came.
    pub fn none() -> Counts
        ensures { result ≡ nothing_counted }
    {
        Counts {
            taken: 0,
            long: 0,
            malformed: 0,
            other_pictures: 0,
            too_fast: 0,
            other_stream: 0,
            exact: 0,
            patched: 0,
            held: 0,
        }
    }

    /// A run took a packet.
    pub fn take(&mut self)
        ensures { self.new ≡ after_taken self.old }
    {
        self.taken = self.taken.saturating_add(1);
    }

    /// A datagram was dropped.
    pub fn drop_for(&mut self, cause: Cause)
        ensures { self.new ≡ after_drop cause self.old }
    {
        match cause {
            Cause::Long => self.long = self.long.saturating_add(1),
            Cause::Malformed => self.malformed = self.malformed.saturating_add(1),
            Cause::OtherPictures => self.other_pictures = self.other_pictures.saturating_add(1),
            Cause::TooFast => self.too_fast = self.too_fast.saturating_add(1),
            Cause::OtherStream => self.other_stream = self.other_stream.saturating_add(1),
        }
    }

    // A picture of the stream that is followed was played.
    fn play(&mut self, mark: Mark)
        ensures { self.new ≡ after_mark mark self.old }
    {
        match mark {
            Mark::Exact => self.exact = self.exact.saturating_add(1),
            Mark::Patched => self.patched = self.patched.saturating_add(1),
            Mark::Held => self.held = self.held.saturating_add(1),
        }
    }

    /// A picture of a run was played: counted is that of the stream that is followed.
    pub fn play_of(&mut self, run: Run, mark: Mark)
        ensures { self.new ≡ counts_after_play run mark self.old }
    {
        match run {
            Run::Followed => self.play(mark),
            Run::Former => {}
            Run::Tried => {}
        }
    }
}
