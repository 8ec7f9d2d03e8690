//! The meter: it follows the level of a leaky bucket over the packets of a log.
ghost use Rattle.std.specs.Prelude.{◌≡◌, ◌+◌, ◌-◌, ◌<◌, ◌≤◌, ◌^◌, ◌∷◌, [], ◌++◌, List, ℕ};
ghost use Rattle.h263_bits.specs.declared.fault.Fault.{Fault};
ghost use Rattle.rate_control.specs.Metering.{HasRoomInLog, HasRoomAtEnd, HasRoomFor, IsMeter, MeterStands};
ghost use Rattle.rate_control.specs.Metering.{after_picture, metered, meter_taking, telling, totals_of};

use crate::level::filled;
use h263_bits::Fault;
use rtp_header::laws as rtp_header_laws;

/// A picture, or an accepted packet: its time, and its bytes so far.
#[derive(Clone, Copy)]
pub struct Picture {
    timestamp: u32,
    size: u64,
}

/// What became of a packet.
#[derive(Clone, Copy, Debug)]
pub enum Metered {
    /// It is of the picture that is going on, or of the first one.
    Same,
    /// It begins a picture, and the one before has ended: its number from 0, its size in bytes, and
    /// the level at its end.
    Ended { number: u32, size: u64, level: u64 },
    /// It is no packet of the stream.
    Refused(Fault),
}

/// What there is to say of a whole log.
#[derive(Clone, Copy, Debug)]
pub struct Totals {
    /// The number, the size and the level of the picture that was still going on; none where no
    /// packet was accepted.
    pub last: Option<(u32, u64, u64)>,
    /// How many pictures there are, the last one included, as in the two numbers that follow.
    pub pictures: u32,
    /// The greatest level, and 0 without a picture.
    pub greatest: u64,
    /// How many levels lie above the bucket.
    pub over: u32,
    /// How many packets were refused.
    pub refused: u32,
}

/// A meter for any log of packets: it tells the pictures by their timestamps (RFC 3550, 5.1), and
/// the level at the end of each.
#[derive(Clone, Copy)]
pub struct Meter {
    target: u32,
    bucket: u32,
    // The picture that is going on.
    picture: Option<Picture>,
    // Of those that have ended: how many there are, the level, the greatest level, and how many lay
    // above the bucket.
    pictures: u32,
    level: u64,
    greatest: u64,
    over: u32,
    refused: u32,
}

impl Meter {
    /// A meter before the first packet: the target is 1 to 999,999 bytes per picture, and the
    /// bucket holds 999,999 bytes at most.
    pub fn new(target: u32, bucket: u32) -> Meter
        requires some { 1 ≤ target }
        requires few { target ≤ 999999 }
        requires bucket { bucket ≤ 999999 }
        ensures target { result.target ≡ target }
        ensures bucket { result.bucket ≡ bucket }
        ensures stands { MeterStands result [] }
    {
        Meter {
            target,
            bucket,
            picture: None,
            pictures: 0,
            level: 0,
            greatest: 0,
            over: 0,
            refused: 0,
        }
    }

    /// Takes the bytes of a packet. Fewer than 16,777,216 were taken before.
    pub fn packet(&mut self, bytes: &[u8]) -> Metered
        requires { HasRoomInLog self.old }
        ensures target { self.new.target ≡ self.old.target }
        ensures bucket { self.new.bucket ≡ self.old.bucket }
        ensures stands { (packets : List (List ℕ)) → MeterStands self.old packets
            → MeterStands self.new (packets ++ bytes.now ∷ []) }
        ensures answer { (packets : List (List ℕ)) → MeterStands self.old packets
            → result ≡ metered self.old.target packets bytes.now }
        // What is refused changes nothing but the count of what is refused.
        ensures refused { (fault : Fault) → result ≡ Metered.Refused fault
            → self.new ≡ record self.old { refused = self.old.refused + 1 } }
    {
        rtp_header_laws::payload_within();
        match rtp_header::read(bytes) {
            Ok(header) => self.take(Picture {
                timestamp: header.timestamp,
                size: bytes.len() as u64,
            }),
            Err(fault) => {
                self.refused += 1;
                Metered::Refused(fault)
            }
        }
    }

    // Takes an accepted packet.
    fn take(&mut self, packet: Picture) -> Metered
        requires { HasRoomFor self.old packet }
        ensures meter { self.new ≡ meter_taking self.old self.old.picture packet }
        ensures answer { result ≡ telling self.old self.old.picture packet }
    {
        let Some(picture) = self.picture else {
            self.picture = Some(packet);
            return Metered::Same;
        };
        if picture.timestamp == packet.timestamp {
            self.picture = Some(Picture {
                timestamp: picture.timestamp,
                size: picture.size + packet.size,
            });
            return Metered::Same;
        }
        let number = self.pictures;
        self.end(picture.size);
        self.picture = Some(packet);
        Metered::Ended {
            number,
            size: picture.size,
            level: self.level,
        }
    }

    // Ends a picture of this size.
    fn end(&mut self, size: u64)
        requires { HasRoomAtEnd self.old size }
        ensures { self.new ≡ after_picture self.old size }
    {
        self.level = filled(self.level, size, self.target);
        self.greatest = self.greatest.max(self.level);
        self.pictures += 1;
        if self.level > self.bucket as u64 {
            self.over += 1;
        }
    }

    /// Ends the log.
    pub fn close(mut self) -> Totals
        requires { IsMeter self }
        ensures { (packets : List (List ℕ)) → MeterStands self packets
            → result ≡ totals_of self.target self.bucket packets }
    {
        rtp_header_laws::payload_within();
        let number = self.pictures;
        let last = match self.picture {
            None => None,
            Some(picture) => {
                self.end(picture.size);
                Some((number, picture.size, self.level))
            }
        };
        Totals {
            last,
            pictures: self.pictures,
            greatest: self.greatest,
            over: self.over,
            refused: self.refused,
        }
    }
}
