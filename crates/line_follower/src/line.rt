//! The rate of a line.
ghost use Rattle.std.specs.Prelude.{◌≡◌, ◌*◌, ◌≤◌};
ghost use Rattle.line_follower.specs.Following.{is_held_for, noticed};
ghost use Rattle.line_follower.specs.Rating.{action_of, after_action, calm_action, eighths_left, line_at_first, grown, line_heard, is_choked, is_line_empty, is_fair};
ghost use Rattle.line_follower.specs.Rating.{is_fine, is_lossy, is_near, limited_rate, losing_action, may_grow, rate_grown, queued, sent_line, shrunk};
ghost use Rattle.line_follower.specs.Rating.{slope_with, speed_of, line_when_told, tripped, line_turned};

use crate::debt::Debt;
use crate::drain::{self, Drain};
use crate::lateness::Lateness;
use crate::latest::Latest;
use crate::least_trip::LeastTrip;
use crate::losses::Losses;
use crate::picture::Picture;
use crate::trend::{Slope, Trend};

const SECOND: u64 = 1_000_000_000;
// So long no picture goes out where most of them are lost, so that what waits on the line is gone.
const PAUSE: u64 = 200_000_000;
// Eighths of the rate that are left where the line is choked.
const CHOKED: u32 = 2;
// A picture of which nothing is told holds the next ones once it is out by so many microseconds longer
// than a round trip. It holds none for longer than this, in nanoseconds.
const LONGER: u64 = 150_000;

const HELD: u64 = 200_000_000;
// The growth a second in thousandths: near the rate at which the line was full last, and elsewhere.
const SLOWLY: u64 = 49;

const FAST: u64 = 223;
// Losses in ten-thousandths: up to the first the rate may grow, and beyond the second it shrinks.
const FEW: u16 = 200;

const MANY: u16 = 1_000;
// Nothing waits on a line whose round trip is no further above its least, in microseconds.
const EMPTY: u64 = 20_000;
// Three times the square of TCP's segment of 1,460 bytes, in ten-thousandths.
const SEGMENTS: u64 = 63_948_000_000;
// No more bytes count as on their way.
const MOST_FLYING: u64 = 1_000_000;

/// What becomes of the rate.
#[derive(Clone, Copy, Debug, PartialEq, Eq)]
pub enum Action {
    /// Most packets are lost: so many eighths are left.
    Cut(u32),
    /// Many are lost.
    Lossy,
    /// The line is full.
    Full,
    Grow,
    Keep,
}

/// The rate of a line, and what it goes by. Rates are bytes a second, with the heads of IP and UDP.
#[derive(Clone, Copy)]
pub struct Line {
    pub(crate) rate: u32,
    least: u32,
    most: u32,
    // The rate at which the line was full last.
    full: Option<u32>,
    // When something was told last.
    grown: u64,
    // Until then no picture goes out.
    pub(crate) paused: u64,
    // Only pictures from this number on tell of the present rate; and the next picture's.
    pub(crate) since: u64,
    next: u64,
    // When a picture went out last.
    pub(crate) out: u64,
    // Of the pictures before this number something was told, or of a later one.
    pub(crate) untold: u32,
    // The newest round trip, in microseconds.
    trip: u32,
    // That to which the line is to drain.
    drains: Option<Drain>,
    pub(crate) debt: Debt,
    trend: Trend,
    losses: Losses,
    latest: Latest,
    least_trip: LeastTrip,
    late: Lateness,
}

impl Line {
    /// Nothing was sent yet.
    pub fn first(rate: u32, least: u32, most: u32, now: u64) -> Line
        ensures { result ≡ line_at_first rate least most now }
    {
        Line {
            rate,
            least,
            most,
            full: None,
            grown: now,
            paused: 0,
            since: 0,
            next: 0,
            out: 0,
            untold: 0,
            trip: 0,
            drains: None,
            debt: Debt::first(now),
            trend: Trend::first(now),
            losses: Losses::first(now),
            latest: Latest::none(),
            least_trip: LeastTrip::first(now),
            late: Lateness::none(),
        }
    }

    /// A picture went out.
    pub fn sent(&self, number: u32, bytes: u32, now: u64) -> Line
        ensures { result ≡ sent_line number bytes now self.now }
    {
        Line {
            next: number as u64 + 1,
            out: now,
            debt: self.debt.drained(self.rate, now).with(bytes),
            ..*self
        }
    }

    /// Nothing is waited for that was sent before this picture.
    pub fn noticed(&self, picture: &Picture) -> Line
        ensures { result ≡ noticed picture.now self.now }
    {
        Line {
            untold: self.untold.max(picture.number.saturating_add(1)),
            ..*self
        }
    }

    /// Whether a frame waits for what is told of this picture.
    pub fn is_held_for(&self, picture: &Picture, now: u64) -> bool
        ensures { result ≡ is_held_for now self.now picture.now }
    {
        if HELD <= now.saturating_sub(self.out) {
            return false;
        }
        self.trip.max(self.least_trip.least()) as u64 + LONGER < picture.trip(now) as u64
    }

    /// Something was told of a picture, and so much comes through.
    pub fn told(&self, picture: &Picture, is_whole: bool, through: u32, now: u64) -> Line
        ensures { result ≡ line_when_told picture.now is_whole through now self.now }
    {
        let is_judged = self.losses.is_judged(picture.packets, is_whole, now);
        let slope = self.slope(picture, is_whole, now);
        let heard = self.heard(picture, is_whole, now);
        heard.turned(
            heard.action(is_whole, slope, is_judged, through),
            through,
            now,
        )
    }

    fn slope(&self, picture: &Picture, is_whole: bool, now: u64) -> Slope
        ensures { result ≡ slope_with picture.now is_whole now self.now }
    {
        if is_whole {
            self.trend
                .slope(self.rate, picture.trip(now), picture.bytes)
        } else {
            Slope::Level
        }
    }

    // What became of a picture is noted.
    fn heard(&self, picture: &Picture, is_whole: bool, now: u64) -> Line
        ensures { result ≡ line_heard picture.now is_whole now self.now }
    {
        let line = Line {
            losses: self.losses.after(picture.packets, is_whole, now),
            latest: self.latest.with(picture.packets, is_whole),
            late: self
                .late
                .with(self.least_trip.least(), picture.at, picture.trip(now)),
            ..*self
        };
        if is_whole {
            line.tripped(picture, now)
        } else {
            line
        }
    }

    // A round trip is noted.
    fn tripped(&self, picture: &Picture, now: u64) -> Line
        ensures { result ≡ tripped picture.now now self.now }
    {
        let trip = picture.trip(now);
        Line {
            trip,
            trend: self.trend.after(self.rate, trip, picture.bytes, now),
            least_trip: self.least_trip.after(trip, now),
            drains: drain::left(self.drains, trip, now),
            ..*self
        }
    }

    fn action(&self, is_whole: bool, slope: Slope, is_judged: bool, through: u32) -> Action
        ensures { result ≡ action_of is_whole slope is_judged through self.now }
    {
        match self.cut(is_whole, through) {
            Some(eighths) => Action::Cut(eighths),
            None => self.losing_action(slope, is_judged, through),
        }
    }

    // The eighths of the rate that are left, where it is to be cut.
    fn cut(&self, is_whole: bool, through: u32) -> Option<u32>
        ensures { result ≡ eighths_left is_whole through self.now }
    {
        if is_whole {
            return self.latest.carried();
        }
        if self.is_choked(through) {
            Some(CHOKED)
        } else {
            self.latest.carried()
        }
    }

    // Whether three pictures in a row are late, and less than half of the rate comes through.
    fn is_choked(&self, through: u32) -> bool
        ensures { result ≡ is_choked through self.now }
    {
        if self.late.count < 3 {
            return false;
        }
        2 * (through as u64) < self.rate as u64
    }

    fn losing_action(&self, slope: Slope, is_judged: bool, through: u32) -> Action
        ensures { result ≡ losing_action slope is_judged through self.now }
    {
        if is_judged {
            if self.is_lossy() {
                return Action::Lossy;
            }
        }
        match self.drains {
            Some(_) => Action::Keep,
            None => self.calm_action(slope, through),
        }
    }

    fn calm_action(&self, slope: Slope, through: u32) -> Action
        ensures { result ≡ calm_action slope through self.now }
    {
        match slope {
            Slope::Rising => Action::Full,
            Slope::Falling => Action::Keep,
            Slope::Level => {
                if self.may_grow(through) {
                    Action::Grow
                } else {
                    Action::Keep
                }
            }
        }
    }

    // Whether so much is lost that the rate is to shrink: not below what TCP would have.
    fn is_lossy(&self) -> bool
        ensures { result ≡ is_lossy self.now }
    {
        if self.losses.share <= MANY {
            return false;
        }
        !self.is_fair()
    }

    // Whether the rate is below what TCP would have, with such losses and such a round trip.
    fn is_fair(&self) -> bool
        ensures { result ≡ is_fair self.now }
    {
        let flying = (self.rate as u64 * self.trip as u64 / 1_000_000).min(MOST_FLYING);
        let share = 2 * self.losses.share as u64;
        square(flying) * share < SEGMENTS
    }

    // Whether nothing waits on the line.
    fn is_empty(&self) -> bool
        ensures { result ≡ is_line_empty self.now }
    {
        (self.trip as u64) < self.least_trip.least() as u64 + EMPTY
    }

    // Whether the losses let the rate grow: those of an empty line are its own.
    fn is_fine(&self) -> bool
        ensures { result ≡ is_fine self.now }
    {
        let share = if self.is_empty() { MANY } else { FEW };
        if self.losses.share <= share {
            return true;
        }
        self.is_fair()
    }

    // A rate that isn't used doesn't grow.
    fn may_grow(&self, through: u32) -> bool
        ensures { result ≡ may_grow through self.now }
    {
        if 2 * (self.rate as u64) < 3 * (through as u64) {
            self.is_fine()
        } else {
            false
        }
    }

    fn turned(&self, action: Action, through: u32, now: u64) -> Line
        ensures { result ≡ line_turned action through now self.now }
    {
        let line = self.after(action, through, now);
        Line { grown: now, ..line }
    }

    fn after(&self, action: Action, through: u32, now: u64) -> Line
        ensures { result ≡ after_action action through now self.now }
    {
        match action {
            Action::Cut(eighths) => {
                let line = self.shrunk(self.rate as u64 * eighths as u64 / 8, now);
                Line {
                    full: None,
                    paused: now.saturating_add(PAUSE),
                    ..line
                }
            }
            Action::Lossy => {
                let lost = self.rate as u64 * self.losses.share as u64 / 20_000;
                self.shrunk((self.rate as u64).saturating_sub(lost), now)
            }
            Action::Full => {
                let back = 85 * through as u64 / 100;
                let line = self.shrunk(back.max(7 * self.rate as u64 / 10), now);
                Line {
                    full: Some(through),
                    debt: line.debt.with_queue(self.queued(), line.rate),
                    drains: Some(drain::of(self.least_trip.least(), self.trip, now)),
                    ..line
                }
            }
            Action::Grow => self.grown(through, now),
            Action::Keep => *self,
        }
    }

    // By how much the round trip is above the least.
    fn queued(&self) -> u32
        ensures { result ≡ queued self.now }
    {
        self.trip.saturating_sub(self.least_trip.least())
    }

    // No more than this rate. Only what follows tells of it.
    fn shrunk(&self, rate: u64, now: u64) -> Line
        ensures { result ≡ shrunk rate now self.now }
    {
        let rate = rate.min(self.rate as u64).max(self.least as u64) as u32;
        Line {
            rate,
            debt: self.debt.drained(self.rate, now).capped(rate),
            since: self.next,
            drains: None,
            trend: self.trend.cleared(),
            losses: self.losses.cleared(now),
            latest: Latest::none(),
            late: self.late.cleared(),
            ..*self
        }
    }

    fn grown(&self, through: u32, now: u64) -> Line
        ensures { result ≡ grown through now self.now }
    {
        let micros = now.saturating_sub(self.grown).min(SECOND) / 1_000;
        let more = more_of(self.rate, speed_of(self.rate, self.full), micros);
        Line {
            rate: limited(self.rate, more, self.most, through),
            debt: self.debt.drained(self.rate, now),
            ..*self
        }
    }
}

fn square(flying: u64) -> u64
    requires { flying ≤ 1000000 }
    ensures value { result ≡ flying * flying }
    ensures small { result ≤ 1000000000000 }
{
    flying * flying
}

// The growth a second, in thousandths.
fn speed_of(rate: u32, full: Option<u32>) -> u64
    ensures { result ≡ speed_of rate full }
{
    if is_near(rate, full) { SLOWLY } else { FAST }
}

// Whether the rate is within a fifth of that at which the line was full last.
fn is_near(rate: u32, full: Option<u32>) -> bool
    ensures { result ≡ is_near rate full }
{
    match full {
        None => false,
        Some(full) => {
            if 4 * (full as u64) < 5 * (rate as u64) {
                5 * (rate as u64) < 6 * (full as u64)
            } else {
                false
            }
        }
    }
}

fn more_of(rate: u32, speed: u64, micros: u64) -> u64
    requires speed { speed ≤ 223 }
    requires micros { micros ≤ 1000000 }
    ensures { result ≡ rate_grown rate speed micros }
{
    rate as u64 + rate as u64 * speed * micros / 1_000_000_000
}

// No further than the most, and than 1.5 times what comes through.
fn limited(rate: u32, more: u64, most: u32, through: u32) -> u32
    ensures { result ≡ limited_rate rate more most through }
{
    let limit = (most as u64).min(3 * through as u64 / 2);
    more.min(limit).max(rate as u64) as u32
}
