//! Numbers that start anew, counted on.
ghost use Rattle.std.specs.Prelude.{◌≡◌, ◌<◌, ◌≤◌, ◌^◌, IfSome, ◌+◌};
ghost use Rattle.stream_numbers.specs.Counting.{ahead_of, allowed_in, nearest_to_base, pictures_within, time_of};

/// The number next to `base` that leaves this rest.
pub fn nearest(base: u64, rest: u64, period: u64) -> Option<u64>
    requires base { base < 2 ^ 60 }
    requires rest { rest < period }
    requires low { 2 ≤ period }
    requires high { period ≤ 2 ^ 32 }
    ensures exact { result ≡ nearest_to_base base rest period }
    ensures near { IfSome result (λ n. n < base + 2 ^ 31) }
{
    let top = base + period / 2 - 1;
    let over = (top + period - rest) % period;
    if top < over {
        return None;
    }
    Some(top - over)
}

/// By how much a sequence number is ahead of another, or 0.
pub fn ahead_of(before: u16, sequence: u16) -> u32
    ensures exact { result ≡ ahead_of before sequence }
    ensures few { result < 32768 }
{
    let ahead = (sequence as u32 + 65_536 - before as u32) % 65_536;
    if ahead < 32_768 { ahead } else { 0 }
}

/// How many pictures are captured in so many ticks.
pub fn pictures_in(rate: u32, second: u32, ticks: u64) -> u64
    requires rate { rate ≤ 65536 }
    requires second_low { 1 ≤ second }
    requires second_high { second ≤ 4096 }
    requires ticks { ticks < 2 ^ 46 }
    ensures { result ≡ pictures_within rate second ticks }
{
    (2 * ticks * rate as u64 + 90_000 * second as u64) / (180_000 * second as u64)
}

/// The time of so many pictures in nanoseconds, rounded up.
pub fn time_of(rate: u32, second: u32, pictures: u32) -> u64
    requires rate_low { 1 ≤ rate }
    requires rate_high { rate ≤ 65536 }
    requires second { second ≤ 4096 }
    requires pictures { pictures < 1048576 }
    ensures { result ≡ time_of rate second pictures }
{
    (pictures as u64 * second as u64 * 1_000_000_000 + (rate as u64 - 1)) / rate as u64
}

/// By how much a stream may go on in so much time.
pub fn allowed_in(time: u64) -> u64
    requires { time < 2 ^ 62 }
    ensures exact { result ≡ allowed_in time }
    ensures small { result < 2 ^ 63 }
{
    time + time / 10
}
