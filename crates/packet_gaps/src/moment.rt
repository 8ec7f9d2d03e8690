//! A moment at which packets may be asked for.
ghost use Rattle.std.specs.Prelude.{◌≡◌};
ghost use Rattle.packet_gaps.specs.Asking.{is_in_time};

/// A moment at which packets may be asked for. Times are nanoseconds of one clock.
#[derive(Clone, Copy, Debug)]
pub struct Moment {
    /// What the clock says.
    pub time: u64,
    /// How long it takes until the answer to a NACK comes.
    pub round_trip: u64,
    /// The number of the next picture to be played.
    pub next: u32,
    /// When that is due.
    pub due: u64,
    /// How long after it each further picture is due.
    pub period: u64,
}

impl Moment {
    /// Whether an answer can come before this picture is due.
    pub(crate) fn is_in_time(&self, picture: u32) -> bool
        ensures { result ≡ is_in_time self.now picture }
    {
        if picture < self.next {
            return false;
        }
        let later = (picture - self.next) as u128 * self.period as u128;
        self.time as u128 + self.round_trip as u128 <= self.due as u128 + later
    }
}
