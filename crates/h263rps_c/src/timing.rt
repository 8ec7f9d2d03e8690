//! What a session is started with, as C has it.
ghost use Rattle.std.specs.Prelude.{◌≡◌, IfOk};
ghost use Rattle.h263_types.specs.Params.{IsParams};
ghost use Rattle.session_intake.specs.Settings.{IsSettings, settings_of};
ghost use Rattle.h263rps_c.specs.Asked.{params_asked};
ghost use Rattle.h263rps_c.specs.Timing as timings;

use crate::asked::{Asked, param_number};
use call_session::{SettingFault, Settings};
use h263_types::Params;

/// When a session's pictures are due: so many of them in so many seconds, and each so many
/// nanoseconds after it would come on the least way.
#[repr(C)]
#[derive(Clone, Copy)]
pub struct Timing {
    pub rate: u32,
    pub second: u32,
    pub wait: u64,
}

const BAD_RATE: u32 = 13;

const BAD_WAIT: u32 = 14;

fn setting_number(fault: SettingFault) -> u32
    ensures { result ≡ timings.setting_number fault }
{
    match fault {
        SettingFault::Params(fault) => param_number(fault),
        SettingFault::Rate => BAD_RATE,
        SettingFault::Lead => BAD_WAIT,
    }
}

impl Timing {
    // With these parameters, or the number of the first setting that is out of its range.
    fn with(&self, params: &Params) -> Result<Settings, u32>
        ensures value { result ≡ timings.settings_with params.now self.now }
        ensures in_range { IfOk result IsSettings }
    {
        match Settings::new(params, self.rate, self.second, self.wait) {
            Ok(settings) => Ok(settings),
            Err(fault) => Err(setting_number(fault)),
        }
    }

    /// The settings of a session, or the number of the first that is out of its range.
    pub fn settings(&self, asked: &Asked) -> Result<Settings, u32>
        ensures value { result ≡ timings.settings_in (params_asked asked.now) self.now }
        ensures in_range { IfOk result IsSettings }
    {
        match asked.params() {
            Err(number) => Err(number),
            Ok(params) => self.with(&params),
        }
    }
}
