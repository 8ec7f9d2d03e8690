//! The numbers of a stream.
ghost use Rattle.std.specs.Option.{ForSome};
ghost use Rattle.stream_numbers.specs.Placing.{IsNewest, IsRate};

use crate::newest::Newest;
use crate::packet::{Packet, Place};
use crate::rate::Rate;
use crate::stepping::taken;

/// The pictures of a stream, by its packets in any order.
#[derive(Clone, Copy)]
pub struct Numbers {
    rate: Rate,
    newest: Option<Newest>,
    ghost pace: { IsRate rate },
    ghost range: { ForSome newest IsNewest },
}

impl Numbers {
    ghost use Rattle.std.specs.Prelude.{◌≡◌, ◌<◌, ◌^◌, ◌∷◌, List, [], IfSome};
    ghost use Rattle.stream_numbers.specs.Streams.{HeardPacket, is_time_small, place_of};
    ghost use Rattle.stream_numbers.specs.Kept.{NumbersStand};

    /// No packet came yet.
    pub fn start(rate: Rate) -> Numbers
        requires { IsRate rate }
        ensures rate { result.rate ≡ rate }
        ensures stands { NumbersStand result [] }
    {
        Numbers { rate, newest: None }
    }

    /// After so many pictures a temporal reference comes again.
    pub fn period(&self) -> u32
        ensures { result ≡ self.now.rate.period }
    {
        self.rate.period
    }

    /// A packet came: its place, or None where its picture is ahead of the clock, or none of the
    /// 2^20 that there can be. Then nothing changes.
    pub fn place(&mut self, packet: &Packet, now: u64) -> Option<Place>
        requires reference { packet.now.reference < self.old.rate.period }
        requires now { now < 2 ^ 62 }
        ensures rate { self.new.rate ≡ self.old.rate }
        ensures place { (past : List HeardPacket) → NumbersStand self.old past
            → result ≡ place_of self.old.rate past packet.now now }
        ensures small { IfSome result is_time_small }
        ensures stands { (past : List HeardPacket) → NumbersStand self.old past
            → NumbersStand self.new ((packet.now, now) ∷ past) }
    {
        match taken(&self.rate, self.newest, packet, now) {
            Some(step) => {
                self.newest = Some(step.newest);
                Some(step.place)
            }
            None => None,
        }
    }
}
