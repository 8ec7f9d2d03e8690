//! A pace that uses its target, for C, and a sender that takes its quantisers.
ghost use Rattle.std.specs.Prelude.{Bool, ◌≡◌, ◌≢◌, ◌≤◌, ℕ, List, ◌∷◌, IfErr, IfSome, IsOk, Ok, Some};
ghost use Rattle.h263_types.specs.declared.format.Format.{Format};
ghost use Rattle.h263_types.specs.declared.params.Params.{Params};
ghost use Rattle.picture_pace.specs.Fitting.{after_coded, fitting_quant, redirected, pace_at_start};
ghost use Rattle.h263rps_c.specs.Asked.{format_numbered};
ghost use Rattle.h263rps_c.specs.Ends.{HoldsSteered, end_packets};
ghost use Rattle.h263rps_c.specs.Pacing.{kind_in, pacing_refusal};
ghost use Rattle.h263rps_c.specs.Refusals.{quant_refusal, end_refusal, status_of};
ghost use Rattle.h263rps_c.specs.Slots.{for_sender};
ghost use Rattle.h263rps_c.specs.Steering.{Steering};
ghost use Rattle.h263rps_c.specs.Steering as steering;

use crate::asked::format_of;
use crate::ends::End;
use crate::handles::Slot;
use crate::refusals::{EndRefusal, OK};
use h263_types::{Format, Kind};
use picture_pace::FitPace;

const MOST_BYTES: u32 = 999_999;

fn kind_of(intra: u32) -> Kind
    ensures { result ≡ kind_in intra }
{
    if intra == 0 { Kind::P } else { Kind::I }
}

// The format, where a pace may have it and this target.
fn paced(format: u32, target: u32) -> Result<Format, EndRefusal>
    ensures refusal { end_refusal result ≡ pacing_refusal format target }
    ensures format { (f : Format) → result ≡ Ok f → format_numbered format ≡ Some f }
{
    let Some(chosen) = format_of(format) else {
        return Err(EndRefusal::BadParams);
    };
    if target == 0 {
        return Err(EndRefusal::BadParams);
    }
    if target > MOST_BYTES {
        return Err(EndRefusal::BadParams);
    }
    Ok(chosen)
}

/// A pace before its first picture: a target of 1 to 999,999 bytes a picture, and the bytes that
/// their sum may exceed it by.
#[unsafe(no_mangle)]
pub extern "C" fn h263rps_raw_pace_start(
    pace: &mut FitPace,
    format: u32,
    target: u32,
    room: u32,
) -> u32
    ensures result { result ≡ status_of (pacing_refusal format target) }
    ensures same { result ≢ 0 → pace.new ≡ pace.old }
    ensures value { result ≡ 0 → IfSome (format_numbered format) (λ f.
        pace.new ≡ pace_at_start f target room) }
{
    match paced(format, target) {
        Err(refusal) => refusal.number(),
        Ok(chosen) => {
            *pace = FitPace::start(chosen, target, room);
            OK
        }
    }
}

/// A pace with another target and another room from its next picture on.
#[unsafe(no_mangle)]
pub extern "C" fn h263rps_raw_pace_redirect(pace: &mut FitPace, target: u32, room: u32) -> u32
    ensures result { result ≡ status_of (pacing_refusal 1 target) }
    ensures same { result ≢ 0 → pace.new ≡ pace.old }
    ensures value { result ≡ 0 → pace.new ≡ redirected target room pace.old }
{
    match paced(1, target) {
        Err(refusal) => refusal.number(),
        Ok(_) => {
            pace.redirect(target, room);
            OK
        }
    }
}

/// The quantiser for the next picture, which is intra or, where that is 0, predicted.
#[unsafe(no_mangle)]
pub extern "C" fn h263rps_raw_pace_quant(pace: &FitPace, intra: u32) -> u32
    ensures value { result ≡ fitting_quant (kind_in intra) pace.now }
    ensures low { 1 ≤ result }
    ensures high { result ≤ 31 }
{
    pace.quant(kind_of(intra)) as u32
}

/// A picture was coded with this quantiser, and its packets have so many bytes.
#[unsafe(no_mangle)]
pub extern "C" fn h263rps_raw_pace_coded(pace: &mut FitPace, intra: u32, quant: u8, bytes: u32)
    ensures { pace.new ≡ after_coded (kind_in intra) quant bytes pace.old }
{
    pace.coded(kind_of(intra), quant, bytes);
}

impl End {
    // A sender codes with this quantiser from the next picture on.
    fn fix(&mut self, quant: u8) -> Result<(), EndRefusal>
        ensures refusal { end_refusal result ≡ for_sender (quant_refusal quant) (Some self.old) }
        ensures same { IfErr result (λ why. self.new ≡ self.old) }
        ensures packets { end_packets (Some self.new) ≡ end_packets (Some self.old) }
        ensures steers { (p : Params) (fits : Bool) (first : ℕ) (past : List Steering)
            → HoldsSteered p fits first past (Some self.old) → IsOk result
            → HoldsSteered p fits first (steering.Quant quant ∷ past) (Some self.new) }
    {
        match self {
            End::Sending(sending) => sending.fix(quant),
            End::Receiving(_) => Err(EndRefusal::OtherEnd),
            End::Repeats(_) => Err(EndRefusal::OtherEnd),
            End::Line(_) => Err(EndRefusal::OtherEnd),
        }
    }
}

/// A sender codes with this quantiser, 1 to 31, from its next picture on, and follows no target.
#[unsafe(no_mangle)]
pub extern "C" fn h263rps_raw_sender_quant(slot: &mut Slot, quant: u8) -> u32
    ensures result { result
        ≡ status_of (for_sender (quant_refusal quant) slot.old.handle.inside) }
    ensures same { result ≢ 0 → slot.new.handle.inside ≡ slot.old.handle.inside }
    ensures counts { slot.new.counted ≡ slot.old.counted }
    ensures packets { end_packets slot.new.handle.inside ≡ end_packets slot.old.handle.inside }
    ensures steers { (p : Params) (fits : Bool) (first : ℕ) (past : List Steering)
        → HoldsSteered p fits first past slot.old.handle.inside → result ≡ 0
        → HoldsSteered p fits first (steering.Quant quant ∷ past) slot.new.handle.inside }
{
    if !slot.is_started() {
        return EndRefusal::NotStarted.number();
    }
    match slot.handle.end_mut().fix(quant) {
        Err(refusal) => refusal.number(),
        Ok(()) => OK,
    }
}
