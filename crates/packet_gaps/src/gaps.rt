//! The packets that are missing.
ghost use Rattle.std.specs.Prelude.{◌≡◌, ◌∷◌, List, [], None};
ghost use Rattle.packet_gaps.specs.Asking.{after_asking, nack_of};
ghost use Rattle.packet_gaps.specs.Kept.{Asked, Came, GapEvent, GapsStand, Played, asks};
ghost use Rattle.packet_gaps.specs.Missing.{gaps_after_packet, gaps_after_play, newest_after_packet};

use crate::asking::{first_of, following, told};
use crate::gap::Gap;
use crate::kept::{filled, number_of, played, without};
use crate::moment::Moment;
use arrayvec::ArrayVec;

/// The field of a Generic NACK (RFC 4585, 6.2.1).
#[derive(Clone, Copy, Debug, PartialEq, Eq)]
pub struct Nack {
    /// PID: the sequence number of a packet that is asked for.
    pub packet: u16,
    /// BLP: bit i, from 1 at the least significant one, asks for the packet i after it.
    pub following: u16,
}

/// The packets of a stream that are missing.
#[derive(Drop)]
pub struct Gaps {
    // The newest packet's number, counted on.
    newest: Option<u64>,
    // The newest last.
    gaps: ArrayVec<Gap, 64>,
}

impl Gaps {
    /// No packet came yet.
    pub fn new() -> Gaps
        ensures newest { result.newest ≡ None }
        ensures gaps { result.gaps.items ≡ [] }
        ensures stands { GapsStand result [] }
    {
        Gaps {
            newest: None,
            gaps: ArrayVec::new(),
        }
    }

    /// A packet with this sequence number came, of this picture.
    pub fn arrived(&mut self, sequence: u16, picture: u32)
        ensures newest { self.new.newest ≡ newest_after_packet self.old.newest sequence }
        ensures gaps { self.new.gaps.items
            ≡ gaps_after_packet self.old.newest sequence picture self.old.gaps.items }
        ensures stands { (past : List GapEvent) → GapsStand self.old past
            → GapsStand self.new (Came sequence picture ∷ past) }
    {
        let Some(newest) = self.newest else {
            self.newest = Some(65_536 + sequence as u64);
            return;
        };
        let number = number_of(newest, sequence);
        if newest < number {
            self.newest = Some(number);
            self.gaps = filled(self.gaps.as_slice(), newest, number, picture);
        } else {
            self.gaps = without(self.gaps.as_slice(), number);
        }
    }

    /// The pictures before this one were played: their packets are needed no more.
    pub fn played(&mut self, next: u32)
        ensures newest { self.new.newest ≡ self.old.newest }
        ensures gaps { self.new.gaps.items ≡ gaps_after_play next self.old.gaps.items }
        ensures stands { (past : List GapEvent) → GapsStand self.old past
            → GapsStand self.new (Played next ∷ past) }
    {
        self.gaps = played(self.gaps.as_slice(), next);
    }

    /// The next packets to ask for, if there are any. They count as asked for, then. It is called
    /// until there are none: where the round trip isn't 0, 65 times at most.
    pub fn ask(&mut self, moment: &Moment) -> Option<Nack>
        ensures newest { self.new.newest ≡ self.old.newest }
        ensures nack { result ≡ nack_of moment.now self.old.newest self.old.gaps.items }
        ensures gaps { self.new.gaps.items
            ≡ after_asking moment.now self.old.newest self.old.gaps.items }
        ensures answer { (past : List GapEvent) → GapsStand self.old past → result ≡ asks moment.now past }
        ensures stands { (past : List GapEvent) → GapsStand self.old past
            → GapsStand self.new (Asked moment.now ∷ past) }
    {
        let newest = self.newest?;
        let first = first_of(self.gaps.as_slice(), moment, newest)?;
        let following = following(self.gaps.as_slice(), moment, newest, first.number);
        self.gaps = told(self.gaps.as_slice(), moment, newest, first.number);
        Some(Nack {
            packet: (first.number % 65_536) as u16,
            following,
        })
    }
}
