//! What an end has counted since its start.
ghost use Rattle.std.specs.Prelude.{◌≡◌};
ghost use Rattle.h263rps_c.specs.Counting as counts;

use crate::answers::{Answer, Made, Reply};

/// What an end has counted since its start. A count that comes to 2^64 - 1 stays there.
#[repr(C)]
#[derive(Clone, Copy)]
pub struct Statistics {
    /// The packets that a receiver was given, or that a sender gave out.
    pub packets: u64,
    /// Their bytes.
    pub bytes: u64,
    /// A receiver's packets by the kind of their answer.
    pub heard: [u64; 6],
    /// Those that were refused by their fault, where all faults of bytes are 0.
    pub faults: [u64; 5],
    /// A receiver's pictures by their mark.
    pub played: [u64; 3],
    /// A sender's pictures by how far back their reference is: intra, 1, 2, 3, 4 to 7, 8 or more.
    pub coded: [u64; 6],
    /// A sender's messages by the kind of their answer.
    pub noted: [u64; 3],
}

fn plus(count: u64, more: u64) -> u64
    ensures { result ≡ counts.plus count more }
{
    count.saturating_add(more)
}

fn tally<const N: usize>(places: [u64; N], place: u32) -> [u64; N]
    ensures { result ≡ counts.tally places.entry place }
{
    let mut tallied = places;
    let place = place as usize;
    if place < tallied.len() {
        tallied[place] = plus(tallied[place], 1);
    }
    tallied
}

// All faults of a packet's bytes are one.
fn fault_group(fault: u32) -> u32
    ensures { result ≡ counts.fault_group fault }
{
    if fault < 5 { fault } else { 0 }
}

fn distance_group(distance: u32) -> u32
    ensures { result ≡ counts.distance_group distance }
{
    if distance < 4 {
        distance
    } else if distance < 8 {
        4
    } else {
        5
    }
}

// How far back the reference is, by groups.
fn reference_group(made: &Made) -> u32
    ensures { result ≡ counts.reference_group made.now }
{
    if made.intra == 1 {
        0
    } else {
        distance_group(made.number.saturating_sub(made.reference))
    }
}

impl Statistics {
    /// Before anything.
    pub fn none() -> Statistics
        ensures { result ≡ counts.no_statistics }
    {
        Statistics {
            packets: 0,
            bytes: 0,
            heard: [0; 6],
            faults: [0; 5],
            played: [0; 3],
            coded: [0; 6],
            noted: [0; 3],
        }
    }

    /// With a packet of so many bytes that a receiver answered.
    pub fn with_heard(&self, length: usize, answer: &Answer) -> Statistics
        ensures { result ≡ counts.statistics_with_heard length answer.now self.now }
    {
        let faults = if answer.kind == 5 {
            tally(self.faults, fault_group(answer.fault))
        } else {
            self.faults
        };
        Statistics {
            heard: tally(self.heard, answer.kind),
            faults,
            ..self.with_packet(length)
        }
    }

    /// With a picture that a receiver played.
    pub fn with_played(&self, answer: &Answer) -> Statistics
        ensures { result ≡ counts.statistics_with_played answer.now self.now }
    {
        Statistics {
            played: tally(self.played, answer.kind),
            ..*self
        }
    }

    /// With a picture that a sender coded.
    pub fn with_made(&self, made: &Made) -> Statistics
        ensures { result ≡ counts.with_made made.now self.now }
    {
        Statistics {
            coded: tally(self.coded, reference_group(made)),
            ..*self
        }
    }

    /// With a packet of so many bytes.
    pub fn with_packet(&self, length: usize) -> Statistics
        ensures { result ≡ counts.statistics_with_packet length self.now }
    {
        Statistics {
            packets: plus(self.packets, 1),
            bytes: plus(self.bytes, length as u64),
            ..*self
        }
    }

    /// With a message that a sender answered.
    pub fn with_reply(&self, reply: &Reply) -> Statistics
        ensures { result ≡ counts.statistics_with_reply reply.now self.now }
    {
        Statistics {
            noted: tally(self.noted, reply.kind),
            ..*self
        }
    }
}
