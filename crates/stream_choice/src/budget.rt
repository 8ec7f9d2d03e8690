//! How many packets are looked at.
ghost use Rattle.std.specs.Prelude.{◌≡◌, ◌≤◌, ◌∷◌, List, [], ℕ, count_by};
ghost use Rattle.stream_choice.specs.Granting.{BudgetStands, granted, is_granted, is_with};

const SECOND: u64 = 1_000_000_000;

/// Grants so many packets in each second of the clock.
#[derive(Clone, Copy, Debug)]
pub struct Budget {
    most: u32,
    // When it was asked last, and how many it has granted in that second.
    last: u64,
    taken: u32,
}

impl Budget {
    /// So many in each second.
    pub fn of(most: u32) -> Budget
        ensures most { result.most ≡ most }
        ensures last { result.last ≡ 0 }
        ensures stands { BudgetStands result [] }
    {
        Budget {
            most,
            last: 0,
            taken: 0,
        }
    }

    // How many it has granted in this second.
    fn before(&self, now: u64) -> u32
        requires { self.now.last ≤ now }
        ensures { (past : List ℕ) → BudgetStands self.now past
            → result ≡ count_by (is_with now) (granted self.now.most past) }
    {
        if now / SECOND == self.last / SECOND {
            return self.taken;
        }
        0
    }

    /// Whether one more is granted. It is asked no earlier than before.
    pub fn grants(&mut self, now: u64) -> bool
        requires { self.old.last ≤ now }
        ensures most { self.new.most ≡ self.old.most }
        ensures last { self.new.last ≡ now }
        ensures answer { (past : List ℕ) → BudgetStands self.old past
            → result ≡ is_granted self.old.most now past }
        ensures stands { (past : List ℕ) → BudgetStands self.old past
            → BudgetStands self.new (now ∷ past) }
    {
        let before = self.before(now);
        self.last = now;
        if before < self.most {
            self.taken = before + 1;
            true
        } else {
            self.taken = before;
            false
        }
    }
}
