//! The least ways of the last quarters of a second.
ghost use Rattle.std.specs.Prelude.{◌≡◌, ◌+◌, ◌∷◌, ℕ, List, [], min};
ghost use Rattle.playout_times.specs.declared.arrival.Arrival.{Arrival};
ghost use Rattle.playout_times.specs.Ways.{quarter_of, transit};
ghost use Rattle.playout_times.specs.Kept.{RecentStands};

/// The least ways of a quarter of a second, and of the two before. Where nothing came it is the
/// greatest number.
#[derive(Clone, Copy)]
pub struct Recent {
    this: u64,
    before: u64,
    earlier: u64,
}

impl Recent {
    /// Nothing came.
    pub fn none() -> Recent
        ensures { (quarter : ℕ) → RecentStands result quarter [] }
    {
        Recent {
            this: u64::MAX,
            before: u64::MAX,
            earlier: u64::MAX,
        }
    }

    /// The same, so many quarters of a second later.
    pub fn after(&self, quarters: u64) -> Recent
        ensures { (quarter : ℕ) (past : List Arrival) → RecentStands self.now quarter past
            → RecentStands result (quarter + quarters) past }
    {
        match quarters {
            0 => *self,
            1 => Recent {
                this: u64::MAX,
                before: self.this,
                earlier: self.before,
            },
            2 => Recent {
                this: u64::MAX,
                before: u64::MAX,
                earlier: self.this,
            },
            _ => Recent::none(),
        }
    }

    /// The same with one more way, of this quarter of a second.
    pub fn with(&self, time: u64) -> Recent
        ensures { (quarter : ℕ) (a : Arrival) (past : List Arrival)
            → RecentStands self.now quarter past → transit a ≡ time → quarter_of a.at ≡ quarter
            → RecentStands result quarter (a ∷ past) }
    {
        Recent {
            this: self.this.min(time),
            before: self.before,
            earlier: self.earlier,
        }
    }

    /// The least of all.
    pub fn least(&self) -> u64
        ensures { result ≡ min self.now.this (min self.now.before self.now.earlier) }
    {
        self.this.min(self.before.min(self.earlier))
    }
}
