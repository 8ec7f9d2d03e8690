//! How many packets are looked at.
ghost use Rattle.std.specs.Prelude.{◌≡◌, ◌≤◌, ℕ};
ghost use Rattle.stream_choice.specs.Granting.{is_granted};
ghost use Rattle.session_intake.specs.Asked.{AreBudgets, LookTimes, AskedStand, look_times_of, no_asked, with_asked};

use stream_choice::{Budget, Taker};

// In each second so many packets are looked at of the stream that is followed, as many of the
// former one, and as many of all others together: more than the largest pictures have.
const MOST: u32 = 12_000;

/// The budgets of the stream that is followed, of the former one, and of all others together.
#[derive(Clone, Copy, Debug)]
pub struct Budgets {
    followed: Budget,
    former: Budget,
    others: Budget,
}

impl Budgets {
    /// Nothing was asked for.
    pub fn new() -> Budgets
        ensures are { AreBudgets 0 result }
        ensures stands { AskedStand result no_asked }
    {
        Budgets {
            followed: Budget::of(MOST),
            former: Budget::of(MOST),
            others: Budget::of(MOST),
        }
    }

    /// Whether a packet with this taker is looked at. Times don't go back.
    pub fn grants(&mut self, taker: Taker, now: u64) -> bool
        requires { AreBudgets now self.old }
        ensures are { AreBudgets now self.new }
        ensures answer { (a : LookTimes) → AskedStand self.old a
            → result ≡ is_granted 12000 now (look_times_of taker a) }
        ensures stands { (a : LookTimes) → AskedStand self.old a
            → AskedStand self.new (with_asked taker now a) }
    {
        match taker {
            Taker::Followed => self.followed.grants(now),
            Taker::Former => self.former.grants(now),
            Taker::Tried => self.others.grants(now),
            Taker::Begins => self.others.grants(now),
            Taker::NoRun => self.others.grants(now),
        }
    }
}
