//! What follows a line.
ghost use Rattle.std.specs.Prelude.{◌≡◌, ◌<◌, ◌≤◌};
ghost use Rattle.line_follower.specs.Bucket.{IsTargetFor};
ghost use Rattle.line_follower.specs.Following.{follower_after_sent, after_told, followed, has_room, is_frame_held, carried_size, started, follower_told_by, wanted_by, follower_with_line, with_told};
ghost use Rattle.line_follower.specs.Table.{open_of};
ghost use Rattle.line_follower.specs.Pacing.{nearest_quant};

use crate::line::Line;
use crate::pace::{self, Bounds, Pace};
use crate::picture::{Fate, Picture};
use crate::table::{self, KEPT};

/// Follows a line: pictures go out, messages about them come back, and it says what the next picture
/// may have. Times are nanoseconds of one clock.
#[derive(Drop)]
pub struct Follower {
    pictures: [Picture; KEPT],
    line: Line,
    pace: Pace,
}

impl Follower {
    /// Nothing was sent yet.
    pub fn start(bounds: &Bounds, now: u64) -> Follower
        requires { 1 ≤ bounds.now.period }
        ensures { result ≡ started bounds.now now }
    {
        let first = pace::rate_of(bounds.first, bounds.period);
        let least = pace::rate_of(bounds.least, bounds.period);
        let most = pace::rate_of(bounds.most, bounds.period);
        Follower {
            pictures: [Picture::none(); KEPT],
            line: Line::first(first, least, most, now),
            pace: Pace::first(bounds),
        }
    }

    /// A picture went out, with so many bytes in so many packets.
    pub fn sent(&mut self, number: u32, bytes: u32, packets: u16, now: u64)
        ensures { self.new ≡ follower_after_sent number bytes packets now self.old }
    {
        let wanted = self.wanted();
        let all = bytes.saturating_add(pace::heads_of(packets));
        let picture = Picture {
            number,
            bytes: all,
            packets: packets as u32,
            at: now,
            fate: Fate::Open,
        };
        table::put(&mut self.pictures, &picture);
        self.line = self.line.sent(number, all, now);
        self.pace = self.pace.after(bytes, packets, wanted);
    }

    /// A message came: a picture is whole at the other side, or it isn't. One about a picture that
    /// wasn't sent, or about which something was told before, changes nothing.
    pub fn told(&mut self, number: u32, is_whole: bool, now: u64)
        ensures { self.new ≡ after_told number is_whole now self.old }
    {
        let Some(picture) = table::open(&self.pictures, number) else {
            return;
        };
        self.told_by(&picture, is_whole, now);
    }

    fn told_by(&mut self, picture: &Picture, is_whole: bool, now: u64)
        ensures { self.new ≡ follower_told_by picture.now is_whole now self.old }
    {
        if self.line.since <= picture.number as u64 {
            self.notice(picture, is_whole, now);
            self.follow(picture, is_whole, now);
        } else {
            self.notice(picture, is_whole, now);
        }
    }

    fn follow(&mut self, picture: &Picture, is_whole: bool, now: u64)
        ensures { self.new ≡ followed picture.now is_whole now self.old }
    {
        let through = table::through(&self.pictures, now);
        let line = self.line.told(picture, is_whole, through, now);
        self.go_on(&line);
    }

    // What was told is kept.
    fn notice(&mut self, picture: &Picture, is_whole: bool, now: u64)
        ensures { self.new ≡ with_told picture.now is_whole now self.old }
    {
        table::put(&mut self.pictures, &picture.told(is_whole, now));
        self.line = self.line.noticed(picture);
    }

    // The line is this one now.
    fn go_on(&mut self, line: &Line)
        ensures { self.new ≡ follower_with_line line.now self.old }
    {
        self.pace = self.pace.at(self.line.rate, line.rate);
        self.line = *line;
    }

    /// Whether the next frame may go out. It is left out where the pictures before are more than the
    /// rate carries, where nothing is told of them for long, and where a line drains of which most was
    /// lost.
    pub fn has_room(&self, now: u64) -> bool
        ensures { result ≡ has_room now self.now }
    {
        if now < self.line.paused {
            return false;
        }
        if self.is_held(now) {
            return false;
        }
        self.line
            .debt
            .drained(self.line.rate, now)
            .is_small(self.line.rate)
    }

    // Whether what waits on the line is to go first.
    fn is_held(&self, now: u64) -> bool
        ensures { result ≡ is_frame_held now self.now }
    {
        match table::open(&self.pictures, self.line.untold) {
            None => false,
            Some(picture) => self.line.is_held_for(&picture, now),
        }
    }

    /// Bytes a second that the line carries, with the heads of IP and UDP.
    pub fn rate(&self) -> u32
        ensures { result ≡ self.now.line.rate }
    {
        self.line.rate
    }

    /// Bytes a picture that the line carries.
    pub fn size(&self) -> u64
        ensures { result ≡ carried_size self.now }
    {
        self.pace.size(self.line.rate)
    }

    /// Bytes that the next picture may have.
    pub fn wanted(&self) -> u32
        ensures { result ≡ wanted_by self.now }
    {
        self.pace.wanted(self.line.rate, self.line.debt.bytes())
    }

    /// The next picture's target for a sender whose quantiser goes by the latest sixteen sizes
    /// (`rate_control`): the greatest one that gives `quant`, or `wanted` where each one does.
    pub fn target(&self) -> u32
        ensures fine { nearest_quant self.now.pace ≤ self.now.pace.bounds.finest
            → result ≡ wanted_by self.now }
        ensures coarse { self.now.pace.bounds.finest < nearest_quant self.now.pace
            → IsTargetFor (nearest_quant self.now.pace) self.now.pace.bounds.finest
            self.now.pace.bounds.most self.now.pace.sizes result }
    {
        self.pace.target(self.wanted())
    }

    /// The quantiser at which it would have about so many.
    pub fn quant(&self) -> u32
        ensures { result ≡ nearest_quant self.now.pace }
    {
        self.pace.quant()
    }
}
