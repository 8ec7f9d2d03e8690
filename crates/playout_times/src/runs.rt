//! The least ways of the last runs of packets of one picture.
ghost use Rattle.std.specs.Prelude.{◌≡◌, ◌∷◌, List, [], min};
ghost use Rattle.playout_times.specs.declared.arrival.Arrival.{Arrival};
ghost use Rattle.playout_times.specs.Ways.{transit};
ghost use Rattle.playout_times.specs.Kept.{RunsStand};

/// The picture of the last run, and the least ways of that run and of the two before. Where there
/// is none it is the greatest number.
#[derive(Clone, Copy)]
pub struct Runs {
    picture: u32,
    last: u64,
    before: u64,
    earlier: u64,
}

impl Runs {
    /// Nothing came.
    pub fn none() -> Runs
        ensures { RunsStand result [] }
    {
        Runs {
            picture: 0,
            last: u64::MAX,
            before: u64::MAX,
            earlier: u64::MAX,
        }
    }

    /// The same with one more packet, of a picture, that was on its way for so long.
    pub fn with(&self, picture: u32, time: u64) -> Runs
        ensures { (a : Arrival) (past : List Arrival) → RunsStand self.now past
            → a.picture ≡ picture → transit a ≡ time → RunsStand result (a ∷ past) }
    {
        if self.picture == picture {
            Runs {
                picture,
                last: self.last.min(time),
                before: self.before,
                earlier: self.earlier,
            }
        } else {
            Runs {
                picture,
                last: time,
                before: self.last,
                earlier: self.before,
            }
        }
    }

    /// The least of all.
    pub fn least(&self) -> u64
        ensures { result ≡ min self.now.last (min self.now.before self.now.earlier) }
    {
        self.last.min(self.before.min(self.earlier))
    }
}
