//! The packets of a stream that could not be heard.
ghost use Rattle.std.specs.Prelude.{◌≡◌};
ghost use Rattle.session_runs.specs.Unheard.{after_heard, fresh, is_lost};

// After so many packets in a row that could not be heard, over so long, a run begins anew; and
// after so long a silence.
const MANY: u32 = 30;

const LONG: u64 = 1_000_000_000;

const SILENCE: u64 = 30_000_000_000;

/// When a packet came last; and how many in a row could not be heard, since their pictures were
/// played or have no place, and since when.
#[derive(Clone, Copy, Debug, PartialEq, Eq)]
pub struct Unheard {
    pub last: u64,
    pub packets: u32,
    pub since: u64,
}

impl Unheard {
    /// None, and a packet came now.
    pub fn fresh(now: u64) -> Unheard
        ensures { result ≡ fresh now }
    {
        Unheard {
            last: now,
            packets: 0,
            since: now,
        }
    }

    /// After one more packet, that was heard or not.
    pub fn after(&self, is_heard: bool, now: u64) -> Unheard
        ensures { result ≡ after_heard is_heard now self.now }
    {
        if is_heard {
            return Unheard::fresh(now);
        }
        let since = if self.packets == 0 { now } else { self.since };
        Unheard {
            last: now,
            packets: self.packets.saturating_add(1),
            since,
        }
    }

    /// Whether none would ever be heard again.
    pub fn is_lost(&self, now: u64) -> bool
        ensures { result ≡ is_lost now self.now }
    {
        if now.saturating_sub(self.last) > SILENCE {
            return true;
        }
        if self.packets >= MANY {
            now.saturating_sub(self.since) >= LONG
        } else {
            false
        }
    }
}
