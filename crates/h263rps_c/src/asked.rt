//! The parameters of a call as C has them.
ghost use Rattle.std.specs.Prelude.{◌≡◌, ◌≤◌, IfOk};
ghost use Rattle.h263_types.specs.Params.{IsParams, default_params};
ghost use Rattle.h263rps_c.specs.Asked as asking;

use crate::MOST_PICTURES;
use h263_types::{Clock, Format, ParamFault, Params};

/// The parameters of a call, each as a number.
#[repr(C)]
#[derive(Clone, Copy)]
pub struct Asked {
    /// How many bytes the struct has: 32. A program says so by which parameters it knows.
    pub size: u32,
    /// 1 sub-QCIF, 2 QCIF, 3 CIF.
    pub format: u32,
    pub quant: u8,
    pub keep: u8,
    pub radius: u8,
    pub messages: u8,
    pub limit: u32,
    pub slots: u32,
    pub lead: u32,
    /// 0 the standard clock, 1 the custom one.
    pub clock: u16,
    /// What a sender makes of its target: 0 follows it by the sizes of the last 16 pictures, 1 fits
    /// it. Up to version 2.2 these were the upper bits of the clock.
    pub pace: u16,
    /// Bytes per picture, up to 999,999, which a sender's quantiser follows; 0 is no target.
    pub target: u32,
}

/// The format of a number.
pub fn format_of(number: u32) -> Option<Format>
    ensures { result ≡ asking.format_numbered number }
{
    match number {
        1 => Some(Format::SubQcif),
        2 => Some(Format::Qcif),
        3 => Some(Format::Cif),
        _ => None,
    }
}

fn clock_of(number: u16) -> Option<Clock>
    ensures { result ≡ asking.clock_numbered number }
{
    match number {
        0 => Some(Clock::Standard),
        1 => Some(Clock::Custom),
        _ => None,
    }
}

/// The number of a parameter.
pub fn param_number(fault: ParamFault) -> u32
    ensures { result ≡ asking.param_number fault }
{
    match fault {
        ParamFault::Quant => 1,
        ParamFault::Keep => 2,
        ParamFault::Radius => 3,
        ParamFault::Limit => 4,
        ParamFault::Slots => 5,
        ParamFault::Lead => 6,
        ParamFault::Messages => 7,
    }
}

const SIZE: u32 = 32;

const BAD_SIZE: u32 = 12;

const BAD_FORMAT: u32 = 8;

const BAD_CLOCK: u32 = 9;

const BAD_TARGET: u32 = 10;

const BAD_NUMBER: u32 = 11;

const BAD_PACE: u32 = 15;

impl Asked {
    // In a format and by a clock.
    fn with(&self, format: Format, clock: Clock) -> Params
        ensures { result ≡ asking.params_with self.now format clock }
    {
        Params {
            format,
            quant: self.quant,
            keep: self.keep,
            radius: self.radius,
            limit: self.limit,
            slots: self.slots,
            lead: self.lead,
            messages: self.messages,
            clock,
        }
    }

    // Those of this format and clock, each in its range, or the number of the first that isn't.
    fn checked(&self, format: Format, clock: Clock) -> Result<Params, u32>
        ensures value { result ≡ asking.checked_params self.now format clock }
        ensures in_range { IfOk result IsParams }
        ensures target { IfOk result (λ p. self.now.target ≤ 999999) }
    {
        let params = self.with(format, clock);
        if let Err(fault) = params.check() {
            return Err(param_number(fault));
        }
        if self.target > 999_999 {
            return Err(BAD_TARGET);
        }
        if self.pace > 1 {
            return Err(BAD_PACE);
        }
        Ok(params)
    }

    /// Whether a sender fits its target.
    pub fn fits(&self) -> bool
        ensures { result ≡ asking.fits_in self.now.pace }
    {
        self.pace == 1
    }

    /// The parameters, or the number of the first that is out of its range.
    pub fn params(&self) -> Result<Params, u32>
        ensures value { result ≡ asking.params_asked self.now }
        ensures in_range { IfOk result IsParams }
        ensures target { IfOk result (λ p. self.now.target ≤ 999999) }
    {
        if self.size != SIZE {
            return Err(BAD_SIZE);
        }
        let Some(format) = format_of(self.format) else {
            return Err(BAD_FORMAT);
        };
        let Some(clock) = clock_of(self.clock) else {
            return Err(BAD_CLOCK);
        };
        self.checked(format, clock)
    }

    /// The same for an end that begins at a picture's number, up to 1,048,576.
    pub fn params_at(&self, number: u32) -> Result<Params, u32>
        ensures value { result ≡ asking.params_at number (asking.params_asked self.now) }
        ensures in_range { IfOk result IsParams }
        ensures few { IfOk result (λ p. number ≤ 1048576) }
    {
        match self.params() {
            Err(fault) => Err(fault),
            Ok(params) => {
                if number <= MOST_PICTURES {
                    Ok(params)
                } else {
                    Err(BAD_NUMBER)
                }
            }
        }
    }

    /// The parameters of a call in this format where nothing else is asked for.
    pub fn of(number: u32, format: Format) -> Asked
        ensures { result ≡ asking.asked_with number (default_params format) }
    {
        let params = Params::of(format);
        Asked {
            size: SIZE,
            format: number,
            quant: params.quant,
            keep: params.keep,
            radius: params.radius,
            messages: params.messages,
            limit: params.limit,
            slots: params.slots,
            lead: params.lead,
            clock: 0,
            pace: 0,
            target: 0,
        }
    }
}
