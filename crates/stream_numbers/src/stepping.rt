//! One packet after another.
ghost use Rattle.std.specs.Prelude.{◌≡◌, ◌<◌, ◌^◌, None, Some, IfSome};
ghost use Rattle.std.specs.Option.{ForSome};
ghost use Rattle.stream_numbers.specs.declared.rate.Rate.{Rate};
ghost use Rattle.stream_numbers.specs.Streams.{is_time_small};
ghost use Rattle.stream_numbers.specs.Placing.{IsNewest, IsRate, advanced, newest_at_first, guess_of};
ghost use Rattle.stream_numbers.specs.Placing.{newest_moved, stream_place, sequence_after, step_of, with_stamp};

use crate::counting::{ahead_of, allowed_in, nearest, pictures_in, time_of};
use crate::newest::Newest;
use crate::packet::{Packet, Place};
use crate::rate::Rate;

// By how much a stream may run ahead, in nanoseconds.
const AHEAD: u64 = 2_000_000_000;
// Pictures that there can be.
const PICTURES: u32 = 1 << 20;
// Ticks that there can be.
const TICKS: u64 = 1 << 46;

/// The place of a packet, and the newest picture after it.
#[derive(Clone, Copy)]
pub struct Step {
    pub newest: Newest,
    pub place: Place,
}

// A picture's place.
fn place_at(number: u32, stamp: u64) -> Place
    requires { stamp < 2 ^ 46 }
    ensures exact { result ≡ stream_place number stamp }
    ensures small { result.captured < 2 ^ 62 }
{
    Place {
        number,
        captured: stamp * 100_000 / 9,
    }
}

// After the first packet.
fn first_of(packet: &Packet, now: u64) -> Newest
    requires { packet.now.reference < 1024 }
    ensures exact { result ≡ newest_at_first packet.now now }
    ensures range { IsNewest result }
{
    Newest {
        number: packet.reference,
        stamp: (1 << 32) + packet.timestamp as u64,
        sequence: packet.sequence,
        at: now,
        credit: AHEAD,
    }
}

// The number from which the temporal reference counts.
fn guess_of(rate: &Rate, newest: &Newest, packet: &Packet, stamp: u64) -> u64
    requires rate { IsRate rate.now }
    requires newest { IsNewest newest.now }
    requires stamp { stamp < 2 ^ 46 }
    ensures exact { result ≡ guess_of rate.now newest.now packet.now stamp }
    ensures small { result < 2 ^ 21 }
{
    let later = stamp.saturating_sub(newest.stamp);
    let pictures = pictures_in(rate.rate, rate.second, later);
    let ahead = ahead_of(newest.sequence, packet.sequence) as u64;
    newest.number as u64 + pictures.min(ahead)
}

// The greatest sequence number so far.
fn sequence_after(newest: &Newest, packet: &Packet) -> u16
    ensures { result ≡ sequence_after newest.now packet.now }
{
    let ahead = ahead_of(newest.sequence, packet.sequence);
    ((newest.sequence as u32 + ahead) % 65_536) as u16
}

// After a packet of a newer picture, where the clock allows it.
fn advanced(
    rate: &Rate,
    newest: &Newest,
    packet: &Packet,
    number: u32,
    stamp: u64,
    now: u64,
) -> Option<Newest>
    requires rate { IsRate rate.now }
    requires newest { IsNewest newest.now }
    requires number { number < 1048576 }
    requires stamp { stamp < 2 ^ 46 }
    requires now { now < 2 ^ 62 }
    ensures exact { result ≡ advanced rate.now newest.now packet.now number stamp now }
    ensures range { IfSome result IsNewest }
{
    let cost = time_of(rate.rate, rate.second, number.saturating_sub(newest.number));
    let most = newest.credit + allowed_in(now.saturating_sub(newest.at));
    if most < cost {
        return None;
    }
    Some(Newest {
        number,
        stamp,
        sequence: sequence_after(newest, packet),
        at: now,
        credit: (most - cost).min(AHEAD),
    })
}

// After a packet of this picture.
fn moved(
    rate: &Rate,
    newest: &Newest,
    packet: &Packet,
    number: u64,
    stamp: u64,
    now: u64,
) -> Option<Newest>
    requires rate { IsRate rate.now }
    requires newest { IsNewest newest.now }
    requires stamp { stamp < 2 ^ 46 }
    requires now { now < 2 ^ 62 }
    ensures exact { result ≡ newest_moved rate.now newest.now packet.now number stamp now }
    ensures range { IfSome result IsNewest }
{
    if number >= PICTURES as u64 {
        return None;
    }
    if (newest.number as u64) < number {
        return advanced(rate, newest, packet, number as u32, stamp, now);
    }
    Some(Newest {
        number: newest.number,
        stamp: newest.stamp,
        sequence: sequence_after(newest, packet),
        at: newest.at,
        credit: newest.credit,
    })
}

// After a packet at this time, counted on.
fn with_stamp(rate: &Rate, newest: &Newest, packet: &Packet, stamp: u64, now: u64) -> Option<Step>
    requires rate { IsRate rate.now }
    requires newest { IsNewest newest.now }
    requires reference { packet.now.reference < rate.now.period }
    requires stamp { stamp < 2 ^ 62 }
    requires now { now < 2 ^ 62 }
    ensures exact { result ≡ with_stamp rate.now newest.now packet.now (Some stamp) now }
    ensures range { IfSome result (λ s. IsNewest s.newest) }
    ensures small { IfSome result (λ s. is_time_small s.place) }
{
    if stamp >= TICKS {
        return None;
    }
    let guess = guess_of(rate, newest, packet, stamp);
    let Some(number) = nearest(guess, packet.reference as u64, rate.period as u64) else {
        return None;
    };
    let Some(after) = moved(rate, newest, packet, number, stamp, now) else {
        return None;
    };
    Some(Step {
        newest: after,
        place: place_at(number as u32, stamp),
    })
}

// A packet after the newest picture.
fn step_after(rate: &Rate, newest: &Newest, packet: &Packet, now: u64) -> Option<Step>
    requires rate { IsRate rate.now }
    requires newest { IsNewest newest.now }
    requires reference { packet.now.reference < rate.now.period }
    requires now { now < 2 ^ 62 }
    ensures exact { result ≡ step_of rate.now (Some newest.now) packet.now now }
    ensures range { IfSome result (λ s. IsNewest s.newest) }
    ensures small { IfSome result (λ s. is_time_small s.place) }
{
    let Some(stamp) = nearest(newest.stamp, packet.timestamp as u64, 1 << 32) else {
        return None;
    };
    with_stamp(rate, newest, packet, stamp, now)
}

// The first packet.
fn step_first(packet: &Packet, now: u64) -> Step
    requires { packet.now.reference < 1024 }
    ensures exact { (rate : Rate) → Some result ≡ step_of rate None packet.now now }
    ensures range { IsNewest result.newest }
    ensures small { is_time_small result.place }
{
    Step {
        newest: first_of(packet, now),
        place: place_at(packet.reference, (1 << 32) + packet.timestamp as u64),
    }
}

/// A packet after the newest picture, if there is one.
pub fn taken(rate: &Rate, newest: Option<Newest>, packet: &Packet, now: u64) -> Option<Step>
    requires rate { IsRate rate.now }
    requires newest { ForSome newest IsNewest }
    requires reference { packet.now.reference < rate.now.period }
    requires now { now < 2 ^ 62 }
    ensures exact { result ≡ step_of rate.now newest packet.now now }
    ensures range { IfSome result (λ s. IsNewest s.newest) }
    ensures small { IfSome result (λ s. is_time_small s.place) }
{
    match newest {
        None => Some(step_first(packet, now)),
        Some(newest) => step_after(rate, &newest, packet, now),
    }
}
