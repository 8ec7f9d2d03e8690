//! The times of capture of the next pictures.
ghost use Rattle.std.specs.Prelude.{◌≡◌, ◌+◌, ◌<◌, ◌∷◌, List, [], ℕ, length, min, slice_index, slice_set, ◌-◌};
ghost use Rattle.playout_times.specs.declared.arrival.Arrival.{Arrival};
ghost use Rattle.playout_times.specs.Kept.{CapturesStand};
ghost use Rattle.playout_times.specs.Ways.{least_number};

use crate::arrival::Arrival;

/// How many pictures have a time of capture: the next one, and those after it.
pub const PICTURES: usize = 64;

/// Nothing is known.
pub fn none() -> [u64; PICTURES]
    ensures { (next : ℕ) → CapturesStand result next [] }
{
    [u64::MAX; PICTURES]
}

/// Notes what a packet says of one of the next pictures.
pub fn add(captured: &mut [u64], next: u32, arrival: &Arrival)
    requires long { length captured.old ≡ 64 }
    requires near { arrival.now.picture < next + 64 }
    ensures { (past : List Arrival) → CapturesStand captured.old next past
        → CapturesStand captured.new next (arrival.now ∷ past) }
{
    if arrival.picture >= next {
        note(
            captured,
            (arrival.picture - next) as usize,
            arrival.captured,
        );
    }
}

// Notes a time at this place, where it is earlier.
fn note(captured: &mut [u64], place: usize, time: u64)
    requires { place < length captured.old }
    ensures { captured.new ≡ slice_set captured.old place (min (slice_index captured.old place) time) }
{
    captured[place] = captured[place].min(time);
}

/// Forgets the first time, and has none for a further picture.
pub fn forget(captured: &mut [u64])
    requires { 0 < length captured.old }
    ensures len { length captured.new ≡ length captured.old }
    ensures moved { (k : ℕ) → k + 1 < length captured.old
        → slice_index captured.new k ≡ slice_index captured.old (k + 1) }
    ensures last { slice_index captured.new (length captured.old - 1) ≡ 18446744073709551615 }
{
    captured.rotate_left(1);
    let last = captured.len() - 1;
    captured[last] = u64::MAX;
}

/// The earliest time.
pub fn least_of(captured: &[u64]) -> u64
    ensures { result ≡ least_number captured.now }
{
    let mut earliest = u64::MAX;
    for time in captured {
        earliest = earliest.min(*time);
    }
    earliest
}
