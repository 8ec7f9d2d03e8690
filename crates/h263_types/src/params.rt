//! The parameters of a call.
ghost use Rattle.std.specs.Prelude.{◌≡◌, ◌↔◌, IsOk};
ghost use Rattle.h263_types.specs.Params.{IsParams, default_params, range_verdict, ranges};

use crate::clock::Clock;
use crate::format::Format;
use thiserror::Error;

/// The parameters of a call and of each of its ends.
#[derive(Clone, Copy, Debug, PartialEq, Eq)]
pub struct Params {
    /// The format of every picture.
    pub format: Format,
    /// The quantiser, 1 to 31.
    pub quant: u8,
    /// How many places of the zigzag order are coded, 1 to 64.
    pub keep: u8,
    /// How far the motion search goes, in whole samples, 0 to 15.
    pub radius: u8,
    /// The most bytes of a whole RTP packet, 1200 to 9000.
    pub limit: u32,
    /// How many pictures each end keeps, 2 to 64.
    pub slots: u32,
    /// The most pictures that may come before their turn, 0 to `slots` - 2.
    pub lead: u32,
    /// The version of the receiver's messages, 1 or 2; those of version 2 name further complete
    /// pictures.
    pub messages: u8,
    /// The clock of every picture.
    pub clock: Clock,
}

/// The first parameter that is out of its range.
#[derive(Clone, Copy, Debug, PartialEq, Eq, Error)]
pub enum ParamFault {
    #[error("Quant")]
    Quant,
    #[error("Keep")]
    Keep,
    #[error("Radius")]
    Radius,
    #[error("Limit")]
    Limit,
    #[error("Slots")]
    Slots,
    #[error("Lead")]
    Lead,
    #[error("Messages")]
    Messages,
}

impl Params {
    /// The parameters of a call in this format where nothing else is asked for.
    pub fn of(format: Format) -> Params
        ensures value { result ≡ default_params format }
        ensures in_range { IsParams result }
    {
        Params {
            format,
            quant: 8,
            keep: 64,
            radius: 7,
            limit: 1400,
            slots: 16,
            lead: 3,
            messages: 1,
            clock: Clock::Standard,
        }
    }

    /// Whether each parameter is in its range; if not, which is the first that isn't, in the order
    /// of the fields.
    pub fn check(&self) -> Result<(), ParamFault>
        ensures fault { result ≡ range_verdict (ranges self.now) }
        ensures ok { IsOk result ↔ IsParams self.now }
    {
        if self.quant < 1 || self.quant > 31 {
            return Err(ParamFault::Quant);
        }
        if self.keep < 1 || self.keep > 64 {
            return Err(ParamFault::Keep);
        }
        if self.radius > 15 {
            return Err(ParamFault::Radius);
        }
        if self.limit < 1200 || self.limit > 9000 {
            return Err(ParamFault::Limit);
        }
        if self.slots < 2 || self.slots > 64 {
            return Err(ParamFault::Slots);
        }
        if self.lead > self.slots - 2 {
            return Err(ParamFault::Lead);
        }
        if self.messages < 1 || self.messages > 2 {
            return Err(ParamFault::Messages);
        }
        Ok(())
    }
}
