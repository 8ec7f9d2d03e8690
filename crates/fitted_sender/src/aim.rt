//! What the quantisers of a sender follow.
ghost use Rattle.std.specs.Prelude.{◌≡◌, ◌≤◌, IfSome};
ghost use Rattle.h263_types.specs.Params.{IsParams};
ghost use Rattle.rate_control.specs.Pace.{first_quant, target_of};
ghost use Rattle.fitted_sender.specs.Aiming.{aim_after, first_aim, aimed_at, first_by, fit_after, fit_at, fit_at_start, fixed, refitted, target_by};
ghost use Rattle.fitted_sender.specs.Stands.{IsAim};

use h263_types::{Format, Kind, Params};
use picture_pace::FitPace;
use rate_control::SendPace;

// The room of a pace that fits, in targets.
const ROOM: u32 = 30;

/// What the quantisers follow: one for all pictures, a target with this one as the first, or a pace
/// that fits.
#[derive(Clone, Copy)]
pub struct Aim {
    quant: u8,
    target: Option<u32>,
    fit: Option<FitPace>,
}

impl Aim {
    /// Before the first picture: targets in bytes a picture, 1 to 999,999 and up to 999,999, of
    /// which the second one is fitted, whatever the first.
    pub fn start(params: &Params, target: Option<u32>, fit: Option<u32>) -> Aim
        requires params { IsParams params.now }
        requires some { IfSome target (λ n. 1 ≤ n) }
        requires few { IfSome target (λ n. n ≤ 999999) }
        requires fit { IfSome fit (λ n. n ≤ 999999) }
        ensures value { result ≡ first_aim params.now target fit }
        ensures ready { IsAim result }
    {
        Aim {
            quant: params.quant,
            target,
            fit: begun(params.format, fit),
        }
    }

    /// One quantiser for all pictures.
    pub fn fixed(quant: u8) -> Aim
        requires low { 1 ≤ quant }
        requires high { quant ≤ 31 }
        ensures value { result ≡ fixed quant }
        ensures ready { IsAim result }
    {
        Aim {
            quant,
            target: None,
            fit: None,
        }
    }

    /// The same pace with another target, or one begun where nothing is fitted yet. Without a target
    /// each picture has the parameters' quantiser.
    pub fn refitted(&self, params: &Params, target: Option<u32>) -> Aim
        requires params { IsParams params.now }
        requires few { IfSome target (λ n. n ≤ 999999) }
        ensures value { result ≡ refitted params.now target self.now }
        ensures ready { IsAim result }
    {
        Aim {
            quant: params.quant,
            target: None,
            fit: redirected(params.format, target, self.fit),
        }
    }

    /// The pace of the next picture, which is of this kind.
    pub fn pace(&self, kind: Kind) -> SendPace
        requires { IsAim self.now }
        ensures target { target_of result ≡ target_by self.now.target self.now.fit }
        ensures first { first_quant result ≡ first_by self.now.quant kind self.now.fit }
    {
        match self.fit {
            None => SendPace::choose(self.target, self.quant),
            Some(pace) => SendPace::choose(None, pace.quant(kind)),
        }
    }

    /// A picture of this kind was coded with that pace, and has so many bytes.
    pub fn coded(&mut self, kind: Kind, bytes: u32)
        ensures value { self.new ≡ aim_after kind bytes self.old }
        ensures ready { IsAim self.old → IsAim self.new }
    {
        self.fit = told(self.fit, kind, bytes);
    }
}

fn begun(format: Format, fit: Option<u32>) -> Option<FitPace>
    requires few { IfSome fit (λ n. n ≤ 999999) }
    ensures { result ≡ fit_at_start format fit }
{
    match fit {
        None => None,
        Some(target) => Some(FitPace::start(format, target, ROOM * target)),
    }
}

fn redirected(format: Format, target: Option<u32>, fit: Option<FitPace>) -> Option<FitPace>
    requires few { IfSome target (λ n. n ≤ 999999) }
    ensures { result ≡ fit_at format target fit }
{
    match target {
        None => None,
        Some(target) => Some(aimed_at(format, target, fit)),
    }
}

fn aimed_at(format: Format, target: u32, fit: Option<FitPace>) -> FitPace
    requires few { target ≤ 999999 }
    ensures { result ≡ aimed_at format target fit }
{
    match fit {
        None => FitPace::start(format, target, ROOM * target),
        Some(pace) => {
            let mut pace = pace;
            pace.redirect(target, ROOM * target);
            pace
        }
    }
}

fn told(fit: Option<FitPace>, kind: Kind, bytes: u32) -> Option<FitPace>
    ensures { result ≡ fit_after kind bytes fit }
{
    match fit {
        None => None,
        Some(pace) => {
            let mut pace = pace;
            let quant = pace.quant(kind);
            pace.coded(kind, quant, bytes);
            Some(pace)
        }
    }
}
