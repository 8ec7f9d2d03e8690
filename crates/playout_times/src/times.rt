//! When pictures are due.
ghost use Rattle.std.specs.Prelude.{◌≡◌, ◌↔◌, ◌+◌, ◌<◌, ◌^◌, ◌∷◌, List, [], IsTrue};
ghost use Rattle.playout_times.specs.declared.arrival.Arrival.{Arrival};
ghost use Rattle.playout_times.specs.Due.{due_of, is_due_by};
ghost use Rattle.playout_times.specs.Kept.{MayCome, TimesStand};

use crate::arrival::Arrival;
use crate::captures::{self, PICTURES};
use crate::recent::Recent;
use crate::runs::Runs;

// A quarter of a second, in nanoseconds.
const QUARTER: u64 = 250_000_000;
// By this much ways are counted up.
const ORIGIN: u64 = 1 << 62;

/// When the next picture of a stream is due.
#[derive(Clone, Copy)]
pub struct Times {
    // The number of the next picture.
    next: u32,
    // How long after the least way it is due.
    wait: u64,
    // When the newest packet came.
    last: u64,
    recent: Recent,
    runs: Runs,
    // When the next pictures were captured, the earliest that was said.
    captured: [u64; PICTURES],
}

impl Times {
    /// Nothing came yet. The next picture has this number, and each is due so many nanoseconds,
    /// fewer than 2^62, after it would come on the least way.
    pub fn start(next: u32, wait: u64) -> Times
        requires { wait < 2 ^ 62 }
        ensures next { result.next ≡ next }
        ensures wait { result.wait ≡ wait }
        ensures last { result.last ≡ 0 }
        ensures stands { TimesStand result [] }
    {
        Times {
            next,
            wait,
            last: 0,
            recent: Recent::none(),
            runs: Runs::none(),
            captured: captures::none(),
        }
    }

    /// Whether `arrived` takes the packet: both its times are below 2^62, it came no earlier than
    /// the one before, and it is of a played picture or of one of the next 64.
    pub fn may_come(&self, arrival: &Arrival) -> bool
        ensures { IsTrue result ↔ MayCome self.now arrival.now }
    {
        if arrival.captured >= ORIGIN {
            return false;
        }
        if arrival.at >= ORIGIN {
            return false;
        }
        if arrival.at < self.last {
            return false;
        }
        if arrival.picture as u64 >= self.next as u64 + PICTURES as u64 {
            return false;
        }
        true
    }

    /// A packet came that may come.
    pub fn arrived(&mut self, arrival: Arrival)
        requires { MayCome self.old arrival }
        ensures next { self.new.next ≡ self.old.next }
        ensures wait { self.new.wait ≡ self.old.wait }
        ensures last { self.new.last ≡ arrival.at }
        ensures stands { (past : List Arrival) → TimesStand self.old past
            → TimesStand self.new (arrival ∷ past) }
    {
        let time = arrival.way();
        let quarters = arrival.at / QUARTER - self.last / QUARTER;
        self.recent = self.recent.after(quarters).with(time);
        self.runs = self.runs.with(arrival.picture, time);
        self.last = arrival.at;
        captures::add(&mut self.captured, self.next, &arrival);
    }

    /// The next picture was played. At most 1,048,576 are.
    pub fn played(&mut self)
        requires { self.old.next < 2 ^ 20 }
        ensures next { self.new.next ≡ self.old.next + 1 }
        ensures wait { self.new.wait ≡ self.old.wait }
        ensures last { self.new.last ≡ self.old.last }
        ensures stands { (past : List Arrival) → TimesStand self.old past → TimesStand self.new past }
    {
        captures::forget(&mut self.captured);
        self.next += 1;
    }

    /// When the next picture is due, in nanoseconds. None where nothing came of it, or of a later
    /// one.
    pub fn due(&self) -> Option<u64>
        ensures { (past : List Arrival) → TimesStand self.now past
            → result ≡ due_of self.now.wait self.now.next past }
    {
        let captured = captures::least_of(&self.captured);
        if captured == u64::MAX {
            return None;
        }
        let least = self.recent.least().min(self.runs.least());
        Some(
            captured
                .saturating_add(least)
                .saturating_add(self.wait)
                .saturating_sub(ORIGIN),
        )
    }

    /// Whether the next picture is due by now.
    pub fn is_due(&self, now: u64) -> bool
        ensures { (past : List Arrival) → TimesStand self.now past
            → result ≡ is_due_by now (due_of self.now.wait self.now.next past) }
    {
        match self.due() {
            Some(time) => time <= now,
            None => false,
        }
    }

    /// The number of the next picture.
    pub fn next(&self) -> u32
        ensures { result ≡ self.now.next }
    {
        self.next
    }
}
