//! What a session is started with.
ghost use Rattle.std.specs.Prelude.{◌≡◌, ◌<◌, ◌≤◌, ◌^◌, IfOk};
ghost use Rattle.h263_types.specs.Params.{IsParams};
ghost use Rattle.session_intake.specs.Settings.{IsSettings, longest_wait, settings_of, with_rate};

use h263_types::{OutOfMemory, ParamFault, Params};
use stream_numbers::Rate;
use thiserror::Error;

// A wait of less counts as this one: the packets of a picture that are sent with its first one are
// heard, too.
const LEAST_WAIT: u64 = 1_000_000;

const SECOND: u64 = 1_000_000_000;

/// Why a session can't be like this: the first cause, in this order.
#[derive(Clone, Copy, Debug, PartialEq, Eq, Error)]
pub enum SettingFault {
    /// A parameter of the call is out of its range.
    #[error("Params")]
    Params(ParamFault),
    /// Not 1 to 65,536 pictures in 1 to 4,096 seconds.
    #[error("Rate")]
    Rate,
    /// More pictures come in the wait than the lead holds.
    #[error("Lead")]
    Lead,
}

/// What a session is started with.
#[derive(Clone, Copy, Debug, PartialEq, Eq)]
pub struct Settings {
    pub params: Params,
    pub rate: Rate,
    pub wait: u64,
}

impl Settings {
    /// The parameters of both ends, so many pictures, 1 to 65,536, in so many seconds, 1 to 4,096,
    /// and the wait in nanoseconds: each picture is due so long after it would come on the least
    /// way.
    pub fn new(params: &Params, rate: u32, second: u32, wait: u64) -> Result<Settings, SettingFault>
        ensures exact { result ≡ settings_of params.now rate second wait }
        ensures range { IfOk result IsSettings }
    {
        match params.check() {
            Err(fault) => Err(SettingFault::Params(fault)),
            Ok(()) => with_rate(params, rate, second, wait.max(LEAST_WAIT)),
        }
    }
}

// The same, of parameters in their ranges.
fn with_rate(params: &Params, rate: u32, second: u32, wait: u64) -> Result<Settings, SettingFault>
    requires { IsParams params.now }
    ensures exact { result ≡ with_rate params.now rate second wait }
    ensures range { IfOk result IsSettings }
{
    if rate < 1 || rate > 65_536 {
        return Err(SettingFault::Rate);
    }
    if second < 1 || second > 4_096 {
        return Err(SettingFault::Rate);
    }
    if longest_wait(params.lead, rate, second) < wait {
        return Err(SettingFault::Lead);
    }
    let rate = Rate {
        period: params.clock.period(),
        rate,
        second,
    };
    Ok(Settings {
        params: *params,
        rate,
        wait,
    })
}

// How long the lead's pictures take.
fn longest_wait(lead: u32, rate: u32, second: u32) -> u64
    requires lead { lead ≤ 62 }
    requires rate { 1 ≤ rate }
    requires second { second ≤ 4096 }
    ensures exact { result ≡ longest_wait lead rate second }
    ensures range { result < 2 ^ 62 }
{
    lead as u64 * second as u64 * SECOND / rate as u64
}
