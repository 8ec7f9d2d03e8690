//! A pace that fits pictures to a target.
ghost use Rattle.std.specs.Prelude.{◌≡◌, ◌≤◌};
ghost use Rattle.picture_pace.specs.Fitting.{after_coded, bytes_to_save, bytes_spared, bytes_wanted, difficulty_of};
ghost use Rattle.picture_pace.specs.Fitting.{fitting, fitting_quant, learnt, pace_at_start, poured_into, redirected};

use h263_types::{Format, Kind};

// What a macroblock's difficulty is taken for before a picture of its kind was coded.
const INTRA: u64 = 200;

const PREDICTED: u64 = 100;
// A picture gets this share of the target at least, unless the bucket is full.
const LEAST: u64 = 4;

/// Fits the pictures of a stream to a target in bytes a picture, which their sum may exceed by a
/// room.
#[repr(C)]
#[derive(Clone, Copy, Debug)]
pub struct FitPace {
    // Bytes a picture, and bytes.
    target: u32,
    room: u32,
    // What is in the bucket.
    level: u64,
    // The bytes of a picture of each kind, times its quantiser.
    intra: u64,
    predicted: u64,
    // The bytes by which predicted pictures exceed the target.
    excess: u64,
}

impl FitPace {
    /// Before the first picture: this many bytes a picture, and this many that their sum may exceed
    /// it by.
    pub fn start(format: Format, target: u32, room: u32) -> FitPace
        ensures { result ≡ pace_at_start format target room }
    {
        FitPace {
            target,
            room,
            level: 0,
            intra: INTRA * format.mbs() as u64,
            predicted: PREDICTED * format.mbs() as u64,
            excess: 0,
        }
    }

    /// Another target and another room from the next picture on. What is in the bucket stays.
    pub fn redirect(&mut self, target: u32, room: u32)
        ensures { self.new ≡ redirected target room self.old }
    {
        self.target = target;
        self.room = room;
    }

    /// The quantiser for the next picture, where it is of this kind.
    pub fn quant(&self, kind: Kind) -> u8
        ensures value { result ≡ fitting_quant kind self.now }
        ensures low { 1 ≤ result }
        ensures high { result ≤ 31 }
    {
        if self.level > self.room as u64 {
            return 31;
        }
        fitting(self.difficulty(kind), self.wanted(kind))
    }

    /// A picture of this kind was coded with this quantiser, and has so many bytes.
    pub fn coded(&mut self, kind: Kind, quant: u8, bytes: u32)
        ensures { self.new ≡ after_coded kind quant bytes self.old }
    {
        match kind {
            Kind::I => self.intra = learnt(self.intra, quant, bytes),
            Kind::P => {
                self.predicted = learnt(self.predicted, quant, bytes);
                self.excess = poured_into(self.excess, bytes, self.target);
            }
        }
        self.level = poured_into(self.level, bytes, self.target);
    }

    /// What is in the bucket: the bytes by which the pictures exceed the target.
    pub fn level(&self) -> u64
        ensures { result ≡ self.now.level }
    {
        self.level
    }

    /// Bytes that the next picture may have, where it is of this kind and the bucket isn't full.
    pub fn wanted(&self, kind: Kind) -> u64
        ensures value { result ≡ bytes_wanted kind self.now }
        ensures some { 1 ≤ result }
    {
        let target = self.target as u64;
        let wanted = (target + self.spared(kind)).saturating_sub(self.owed(kind));
        wanted.max(target / LEAST).max(1)
    }

    // What a picture of this kind may have beyond the target.
    fn spared(&self, kind: Kind) -> u64
        ensures value { result ≡ bytes_spared kind self.now }
        ensures few { result ≤ 4294967295 }
    {
        let below = (self.room as u64 / 2).saturating_sub(self.level);
        match kind {
            Kind::I => 2 * below / 3,
            Kind::P => below.min((self.target as u64).saturating_sub(self.excess)) / 2,
        }
    }

    // What it must save.
    fn owed(&self, kind: Kind) -> u64
        ensures { result ≡ bytes_to_save kind self.now }
    {
        let above = self.level.saturating_sub(self.room as u64 / 2);
        match kind {
            Kind::I => above / 2,
            Kind::P => above.max(self.excess.saturating_sub(self.target as u64)) / 2,
        }
    }

    fn difficulty(&self, kind: Kind) -> u64
        ensures { result ≡ difficulty_of kind self.now }
    {
        match kind {
            Kind::I => self.intra,
            Kind::P => self.predicted,
        }
    }
}

// The finest quantiser from 2 on with which a picture of this difficulty has fewer bytes than are
// wanted, or 31.
fn fitting(difficulty: u64, wanted: u64) -> u8
    requires { 1 ≤ wanted }
    ensures value { result ≡ fitting difficulty wanted }
    ensures low { 1 ≤ result }
    ensures high { result ≤ 31 }
{
    (difficulty / wanted).max(1).min(30) as u8 + 1
}

fn learnt(difficulty: u64, quant: u8, bytes: u32) -> u64
    ensures { result ≡ learnt quant bytes difficulty }
{
    difficulty / 2 + quant as u64 * bytes as u64 / 2
}

fn poured_into(level: u64, bytes: u32, target: u32) -> u64
    ensures { result ≡ poured_into target level bytes }
{
    level
        .saturating_add(bytes as u64)
        .saturating_sub(target as u64)
}
