//! A packet that is missing.
ghost use Rattle.std.specs.Prelude.{◌≡◌, ◌+◌, ◌==◌};
ghost use Rattle.packet_gaps.specs.Asking.{asked_again, has_waited, is_asked_gap, is_behind_newest, is_in_nack, may_ask, when_told};

use crate::moment::Moment;

/// A packet that is missing, by its sequence number, counted on: the number of the picture after
/// which it is needed no more; how often it was asked for, and when last.
#[derive(Clone, Copy, Debug, Default)]
pub struct Gap {
    pub number: u64,
    pub picture: u32,
    pub asked: u8,
    pub last: u64,
}

impl Gap {
    // Whether it was asked for less than twice, and not within the last round trip.
    fn has_waited(&self, moment: &Moment) -> bool
        ensures { result ≡ has_waited moment.now self.now }
    {
        if self.asked == 0 {
            return true;
        }
        if self.asked >= 2 {
            return false;
        }
        moment.time.saturating_sub(self.last) >= moment.round_trip
    }

    // Whether its 16 bits mean it alone.
    fn is_named(&self, newest: u64) -> bool
        ensures { result ≡ is_behind_newest newest self.now }
    {
        newest.saturating_sub(self.number) < 32_768
    }

    // Whether it is so many after this number.
    fn is_after(&self, first: u64, distance: u64) -> bool
        ensures { result ≡ (self.now.number == first + distance) }
    {
        if self.number < first {
            return false;
        }
        self.number - first == distance
    }

    /// Whether it may be asked for.
    pub fn may_ask(&self, moment: &Moment, newest: u64) -> bool
        ensures { result ≡ may_ask moment.now newest self.now }
    {
        if !self.is_named(newest) {
            return false;
        }
        if !self.has_waited(moment) {
            return false;
        }
        moment.is_in_time(self.picture)
    }

    /// Whether it is so many after this number, and may be asked for.
    pub fn is_asked(&self, moment: &Moment, newest: u64, first: u64, distance: u64) -> bool
        ensures { result ≡ is_asked_gap moment.now newest first distance self.now }
    {
        if self.is_after(first, distance) {
            self.may_ask(moment, newest)
        } else {
            false
        }
    }

    // The same, asked for now.
    fn asked_again(&self, now: u64) -> Gap
        ensures { result ≡ asked_again now self.now }
    {
        Gap {
            number: self.number,
            picture: self.picture,
            asked: self.asked.saturating_add(1),
            last: now,
        }
    }

    // Whether a field asks for it whose PID is this number.
    fn is_told(&self, moment: &Moment, newest: u64, first: u64) -> bool
        ensures { result ≡ is_in_nack moment.now newest first self.now }
    {
        if self.number < first {
            return false;
        }
        if self.number - first > 16 {
            return false;
        }
        self.may_ask(moment, newest)
    }

    /// What it is after a field whose PID is this number.
    pub fn when_told(&self, moment: &Moment, newest: u64, first: u64) -> Gap
        ensures { result ≡ when_told moment.now newest first self.now }
    {
        if self.is_told(moment, newest, first) {
            self.asked_again(moment.time)
        } else {
            *self
        }
    }
}
