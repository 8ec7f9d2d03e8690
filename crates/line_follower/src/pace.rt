//! The sizes of pictures.
ghost use Rattle.std.specs.Prelude.{◌≡◌, ◌*◌, ◌<◌, ◌≤◌, ◌^◌};
ghost use Rattle.line_follower.specs.Bucket.{IsTargetFor};
ghost use Rattle.line_follower.specs.Pacing.{first_pace, heads_after, heads_of, nearest_quant, pace_after, pace_at, quant_by_size, quant_by_rate, quant_by};
ghost use Rattle.line_follower.specs.Pacing.{rate_per_second, size_at, wanted_of};

use crate::search::target_for;
use crate::sizes::Sizes;

const SECOND: u64 = 1_000_000_000;
// Bytes of IP and UDP before each packet.
const HEADS: u32 = 28;
// The coarsest quantiser, in 256ths.
const COARSEST: u64 = 7_936;

/// Where a line begins, and between which its rate stays.
#[derive(Clone, Copy, Debug)]
pub struct Bounds {
    /// Bytes a picture: the first, the least and the most.
    pub first: u32,
    pub least: u32,
    pub most: u32,
    /// The finest quantiser.
    pub finest: u8,
    /// The time of a picture, in nanoseconds.
    pub period: u32,
}

/// What the next picture may have.
#[derive(Clone, Copy)]
pub struct Pace {
    bounds: Bounds,
    // The quantiser, in 256ths.
    quant: u16,
    // Eight times the heads that a picture has of late.
    heads: u32,
    sizes: Sizes,
}

impl Pace {
    /// Nothing was sent yet.
    pub fn first(bounds: &Bounds) -> Pace
        ensures { result ≡ first_pace bounds.now }
    {
        Pace {
            bounds: *bounds,
            quant: 256 * bounds.finest as u16,
            heads: 0,
            sizes: Sizes::none(),
        }
    }

    /// Bytes a picture at this rate.
    pub fn size(&self, rate: u32) -> u64
        ensures { result ≡ size_at rate self.now.bounds.period }
    {
        rate as u64 * self.bounds.period as u64 / SECOND
    }

    /// What the next picture may have, at this rate and with so many bytes that were sent beyond it.
    /// These are made good over eight pictures.
    pub fn wanted(&self, rate: u32, owed: u64) -> u32
        ensures { result ≡ wanted_of rate owed self.now }
    {
        let room = self
            .size(rate)
            .saturating_sub(self.heads as u64 / 8)
            .saturating_sub(owed / 8);
        room.min(self.bounds.most as u64)
            .max(self.bounds.least as u64) as u32
    }

    /// After a picture of this size, where another was wanted.
    pub fn after(&self, bytes: u32, packets: u16, wanted: u32) -> Pace
        ensures { result ≡ pace_after bytes packets wanted self.now }
    {
        Pace {
            bounds: self.bounds,
            quant: quant_after(self.quant, bytes, wanted, self.bounds.finest),
            heads: heads_after(self.heads, packets),
            sizes: self.sizes.with(bytes),
        }
    }

    /// The same at another rate than before: where it fell the next picture is smaller at once.
    pub fn at(&self, before: u32, rate: u32) -> Pace
        ensures { result ≡ pace_at before rate self.now }
    {
        if before <= rate {
            return *self;
        }
        Pace {
            quant: quant_at(self.quant, before, rate, self.bounds.finest),
            ..*self
        }
    }

    /// The target at which the sender takes the next picture's quantiser: the greatest one, or what
    /// is wanted where each one does.
    pub fn target(&self, wanted: u32) -> u32
        ensures fine { nearest_quant self.now ≤ self.now.bounds.finest → result ≡ wanted }
        ensures coarse { self.now.bounds.finest < nearest_quant self.now
            → IsTargetFor (nearest_quant self.now) self.now.bounds.finest self.now.bounds.most
            self.now.sizes result }
    {
        let quant = self.quant();
        if quant <= self.bounds.finest as u32 {
            return wanted;
        }
        target_for(quant, self.bounds.finest, self.bounds.most, &self.sizes)
    }

    /// The next picture's quantiser, to the nearest.
    pub fn quant(&self) -> u32
        ensures { result ≡ nearest_quant self.now }
    {
        (self.quant as u32 + 128) / 256
    }
}

/// The heads of so many packets.
pub fn heads_of(packets: u16) -> u32
    ensures { result ≡ heads_of packets }
{
    HEADS * packets as u32
}

/// So many bytes a picture, as a rate.
pub fn rate_of(bytes: u32, period: u32) -> u32
    requires { 1 ≤ period }
    ensures { result ≡ rate_per_second bytes period }
{
    (bytes as u64 * SECOND / period as u64).min(u32::MAX as u64) as u32
}

fn heads_after(heads: u32, packets: u16) -> u32
    ensures { result ≡ heads_after heads packets }
{
    (heads - heads / 8).saturating_add(heads_of(packets))
}

fn quant_after(quant: u16, bytes: u32, wanted: u32, finest: u8) -> u16
    ensures { result ≡ quant_by_size quant bytes wanted finest }
{
    let w = wanted.max(1) as u64;
    quant_by(quant, (bytes as u64).max(w / 2).min(2 * w), w, finest)
}

// After a fall of the rate.
fn quant_at(quant: u16, before: u32, rate: u32, finest: u8) -> u16
    ensures { result ≡ quant_by_rate quant before rate finest }
{
    let w = rate.max(1) as u64;
    quant_by(quant, (before as u64).min(4 * w), w, finest)
}

// Sizes go by the square of the quantiser: it is to be multiplied by the root of how far a size is
// off. That is about (3 s + w) / (s + 3 w).
fn quant_by(quant: u16, s: u64, w: u64, finest: u8) -> u16
    requires some { 1 ≤ w }
    requires small { w < 2 ^ 32 }
    requires near { s ≤ 4 * w }
    ensures { result ≡ quant_by quant s w finest }
{
    let next = quant as u64 * (3 * s + w) / (s + 3 * w);
    next.min(COARSEST).max(256 * finest as u64) as u16
}
