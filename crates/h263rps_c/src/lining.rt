//! What follows a line, for C.
ghost use Rattle.std.specs.Prelude.{◌≡◌, ◌≢◌, ◌≤◌, None, Some, IfErr, IfOk, IfSome};
ghost use Rattle.line_follower.specs.declared.follower.Follower.{Follower};
ghost use Rattle.line_follower.specs.Following.{follower_after_sent, after_told, has_room, started};
ghost use Rattle.h263rps_c.specs.Counting as counts;
ghost use Rattle.h263rps_c.specs.Lines.{HoldsLine, TellsShare, are_bounds, are_sizes, bounds_in};
ghost use Rattle.h263rps_c.specs.Lines.{line_refusal, says_whole};
ghost use Rattle.h263rps_c.specs.Refusals.{end_refusal, refusal_number, status_of};
ghost use Rattle.h263rps_c.specs.SessionNumbers.{bit};
ghost use Rattle.h263rps_c.specs.Slots.{for_line};
ghost use Rattle.h263rps_c.specs.Stays.{Stays};
ghost use Rattle.h263rps_c.specs.declared.lining.Share.TheVariants as shares;
ghost use Rattle.h263rps_c.specs.declared.refusals.EndRefusal.TheVariants as refusals;

use crate::ends::{End, EndKind};
use crate::handles::{Slot, put, taken};
use crate::refusals::{EndRefusal, OK};
use crate::repeating::is_between;
use line_follower::{Bounds, Follower};
use std::alloc::Global;

// The most bytes a picture, as a sender's target.
const MOST_TARGET: u32 = 999_999;

const COARSEST: u32 = 31;

/// Where a line begins, and between which its rate stays.
#[repr(C)]
#[derive(Clone, Copy)]
pub struct CBounds {
    /// Bytes a picture: the first, the least and the most.
    pub first: u32,
    pub least: u32,
    pub most: u32,
    /// The finest quantiser.
    pub finest: u32,
    /// The time of a picture, in nanoseconds.
    pub period: u32,
}

impl CBounds {
    fn are_sizes(&self) -> bool
        ensures { result ≡ are_sizes self.now.first self.now.least self.now.most }
    {
        if is_between(1, self.first, self.least) {
            is_between(self.first, MOST_TARGET, self.most)
        } else {
            false
        }
    }

    fn are_bounds(&self) -> bool
        ensures { result ≡ are_bounds self.now }
    {
        if self.are_sizes() {
            if is_between(1, COARSEST, self.finest) {
                1 <= self.period
            } else {
                false
            }
        } else {
            false
        }
    }

    // The bounds, if they are some.
    fn bounds(&self) -> Option<Bounds>
        ensures value { result ≡ bounds_in self.now }
        ensures some { IfSome result (λ b. 1 ≤ b.period) }
    {
        if self.are_bounds() {
            Some(Bounds {
                first: self.first,
                least: self.least,
                most: self.most,
                finest: self.finest as u8,
                period: self.period,
            })
        } else {
            None
        }
    }
}

/// What is asked of a line: the bytes a second that it carries, and of its next picture the bytes
/// that it may have, the target and the quantiser.
#[derive(Clone, Copy)]
pub enum Share {
    Rate,
    Wanted,
    Target,
    Quant,
}

fn share_of(follower: &Follower, share: Share) -> u32
    ensures { TellsShare share follower.now result }
{
    match share {
        Share::Rate => follower.rate(),
        Share::Wanted => follower.wanted(),
        Share::Target => follower.target(),
        Share::Quant => follower.quant(),
    }
}

impl End {
    /// What follows a line on which nothing was sent.
    pub fn line(alloc: Global, bounds: &Bounds, now: u64) -> Result<Box<End>, EndRefusal>
        requires { 1 ≤ bounds.now.period }
        ensures memory { IfErr result (λ why. why ≡ refusals.NoMemory) }
        ensures stands { IfOk result (λ end. HoldsLine (started bounds.now now) (Some end.value)) }
    {
        match Box::new(alloc, End::Line(Follower::start(bounds, now))) {
            Err(_) => Err(EndRefusal::NoMemory),
            Ok(end) => Ok(end),
        }
    }

    /// A picture went out.
    pub fn line_sent(
        &mut self,
        number: u32,
        bytes: u32,
        packets: u16,
        now: u64,
    ) -> Result<(), EndRefusal>
        ensures refusal { end_refusal result ≡ for_line (Some self.old) }
        ensures same { IfErr result (λ why. self.new ≡ self.old) }
        ensures stands { (f : Follower) → HoldsLine f (Some self.old)
            → HoldsLine (follower_after_sent number bytes packets now f) (Some self.new) }
    {
        match self {
            End::Sending(_) => Err(EndRefusal::OtherEnd),
            End::Receiving(_) => Err(EndRefusal::OtherEnd),
            End::Repeats(_) => Err(EndRefusal::OtherEnd),
            End::Line(follower) => {
                follower.sent(number, bytes, packets, now);
                Ok(())
            }
        }
    }

    /// A message came.
    pub fn line_told(&mut self, number: u32, is_whole: bool, now: u64) -> Result<(), EndRefusal>
        ensures refusal { end_refusal result ≡ for_line (Some self.old) }
        ensures same { IfErr result (λ why. self.new ≡ self.old) }
        ensures stands { (f : Follower) → HoldsLine f (Some self.old)
            → HoldsLine (after_told number is_whole now f) (Some self.new) }
    {
        match self {
            End::Sending(_) => Err(EndRefusal::OtherEnd),
            End::Receiving(_) => Err(EndRefusal::OtherEnd),
            End::Repeats(_) => Err(EndRefusal::OtherEnd),
            End::Line(follower) => {
                follower.told(number, is_whole, now);
                Ok(())
            }
        }
    }

    /// Whether the next frame may go out.
    pub fn line_has_room(&self, now: u64) -> Result<bool, EndRefusal>
        ensures refusal { end_refusal result ≡ for_line (Some self.now) }
        ensures told { (f : Follower) → HoldsLine f (Some self.now)
            → IfOk result (λ has. has ≡ has_room now f) }
    {
        match self {
            End::Sending(_) => Err(EndRefusal::OtherEnd),
            End::Receiving(_) => Err(EndRefusal::OtherEnd),
            End::Repeats(_) => Err(EndRefusal::OtherEnd),
            End::Line(follower) => Ok(follower.has_room(now)),
        }
    }

    /// What is asked of it.
    pub fn line_share(&self, share: Share) -> Result<u32, EndRefusal>
        ensures refusal { end_refusal result ≡ for_line (Some self.now) }
        ensures told { (f : Follower) → HoldsLine f (Some self.now)
            → IfOk result (TellsShare share f) }
    {
        match self {
            End::Sending(_) => Err(EndRefusal::OtherEnd),
            End::Receiving(_) => Err(EndRefusal::OtherEnd),
            End::Repeats(_) => Err(EndRefusal::OtherEnd),
            End::Line(follower) => Ok(share_of(follower, share)),
        }
    }
}

// Writes down what is asked of a line.
fn note_share(slot: &mut Slot, share: Share, number: &mut u32) -> u32
    ensures result { result ≡ status_of (for_line slot.old.handle.inside) }
    ensures same { Stays slot.old slot.new }
    ensures untold { result ≢ 0 → number.new ≡ number.old }
    ensures told { (f : Follower) → HoldsLine f slot.old.handle.inside → result ≡ 0
        → TellsShare share f number.new }
{
    if !slot.is_started() {
        return EndRefusal::NotStarted.number();
    }
    match slot.handle.end_mut().line_share(share) {
        Err(refusal) => refusal.number(),
        Ok(told) => {
            *number = told;
            OK
        }
    }
}

fn bit_of(is_so: bool) -> u32
    ensures { result ≡ bit is_so }
{
    if is_so { 1 } else { 0 }
}

/// Starts to follow a line in an empty slot.
#[unsafe(no_mangle)]
pub extern "C" fn h263rps_raw_line_start(
    alloc: Global,
    slot: &mut Slot,
    bounds: &CBounds,
    now: u64,
) -> u32
    ensures result { result ≢ refusal_number refusals.NoMemory
        → result ≡ status_of (line_refusal slot.old.handle.inside (bounds_in bounds.now)) }
    ensures memory { result ≡ refusal_number refusals.NoMemory
        → line_refusal slot.old.handle.inside (bounds_in bounds.now) ≡ None }
    ensures same { result ≢ 0 → Stays slot.old slot.new }
    ensures nothing { result ≡ 0 → slot.new.counted ≡ counts.no_statistics }
    ensures stands { result ≡ 0 → IfSome (bounds_in bounds.now)
        (λ b. HoldsLine (started b now) slot.new.handle.inside) }
{
    if slot.is_started() {
        return EndRefusal::Started.number();
    }
    match bounds.bounds() {
        None => EndRefusal::BadParams.number(),
        Some(bounds) => match End::line(alloc, &bounds, now) {
            Err(refusal) => refusal.number(),
            Ok(end) => {
                put(slot, end);
                OK
            }
        },
    }
}

/// A picture went out on a line, with so many bytes in so many packets.
#[unsafe(no_mangle)]
pub extern "C" fn h263rps_raw_line_sent(
    slot: &mut Slot,
    number: u32,
    bytes: u32,
    packets: u16,
    now: u64,
) -> u32
    ensures result { result ≡ status_of (for_line slot.old.handle.inside) }
    ensures same { result ≢ 0 → Stays slot.old slot.new }
    ensures counts { slot.new.counted ≡ slot.old.counted }
    ensures stands { (f : Follower) → HoldsLine f slot.old.handle.inside
        → HoldsLine (follower_after_sent number bytes packets now f) slot.new.handle.inside }
{
    if !slot.is_started() {
        return EndRefusal::NotStarted.number();
    }
    match slot.handle.end_mut().line_sent(number, bytes, packets, now) {
        Err(refusal) => refusal.number(),
        Ok(()) => OK,
    }
}

/// A message came about a picture that went out on a line: it is whole at the other side, or, where
/// `whole` is 0, it isn't.
#[unsafe(no_mangle)]
pub extern "C" fn h263rps_raw_line_told(slot: &mut Slot, number: u32, whole: u32, now: u64) -> u32
    ensures result { result ≡ status_of (for_line slot.old.handle.inside) }
    ensures same { result ≢ 0 → Stays slot.old slot.new }
    ensures counts { slot.new.counted ≡ slot.old.counted }
    ensures stands { (f : Follower) → HoldsLine f slot.old.handle.inside
        → HoldsLine (after_told number (says_whole whole) now f) slot.new.handle.inside }
{
    if !slot.is_started() {
        return EndRefusal::NotStarted.number();
    }
    match slot.handle.end_mut().line_told(number, whole != 0, now) {
        Err(refusal) => refusal.number(),
        Ok(()) => OK,
    }
}

/// Whether the next frame may go out on a line: 1, or 0.
#[unsafe(no_mangle)]
pub extern "C" fn h263rps_raw_line_has_room(slot: &mut Slot, now: u64, has: &mut u32) -> u32
    ensures result { result ≡ status_of (for_line slot.old.handle.inside) }
    ensures same { Stays slot.old slot.new }
    ensures untold { result ≢ 0 → has.new ≡ has.old }
    ensures told { (f : Follower) → HoldsLine f slot.old.handle.inside → result ≡ 0
        → has.new ≡ bit (has_room now f) }
{
    if !slot.is_started() {
        return EndRefusal::NotStarted.number();
    }
    match slot.handle.end_mut().line_has_room(now) {
        Err(refusal) => refusal.number(),
        Ok(room) => {
            *has = bit_of(room);
            OK
        }
    }
}

/// Bytes a second that a line carries.
#[unsafe(no_mangle)]
pub extern "C" fn h263rps_raw_line_rate(slot: &mut Slot, rate: &mut u32) -> u32
    ensures result { result ≡ status_of (for_line slot.old.handle.inside) }
    ensures same { Stays slot.old slot.new }
    ensures untold { result ≢ 0 → rate.new ≡ rate.old }
    ensures told { (f : Follower) → HoldsLine f slot.old.handle.inside → result ≡ 0
        → TellsShare shares.Rate f rate.new }
{
    note_share(slot, Share::Rate, rate)
}

/// Bytes that the next picture may have.
#[unsafe(no_mangle)]
pub extern "C" fn h263rps_raw_line_wanted(slot: &mut Slot, bytes: &mut u32) -> u32
    ensures result { result ≡ status_of (for_line slot.old.handle.inside) }
    ensures same { Stays slot.old slot.new }
    ensures untold { result ≢ 0 → bytes.new ≡ bytes.old }
    ensures told { (f : Follower) → HoldsLine f slot.old.handle.inside → result ≡ 0
        → TellsShare shares.Wanted f bytes.new }
{
    note_share(slot, Share::Wanted, bytes)
}

/// The next picture's target, for the sender's own rate control.
#[unsafe(no_mangle)]
pub extern "C" fn h263rps_raw_line_target(slot: &mut Slot, bytes: &mut u32) -> u32
    ensures result { result ≡ status_of (for_line slot.old.handle.inside) }
    ensures same { Stays slot.old slot.new }
    ensures untold { result ≢ 0 → bytes.new ≡ bytes.old }
    ensures told { (f : Follower) → HoldsLine f slot.old.handle.inside → result ≡ 0
        → TellsShare shares.Target f bytes.new }
{
    note_share(slot, Share::Target, bytes)
}

/// The next picture's quantiser.
#[unsafe(no_mangle)]
pub extern "C" fn h263rps_raw_line_quant(slot: &mut Slot, quant: &mut u32) -> u32
    ensures result { result ≡ status_of (for_line slot.old.handle.inside) }
    ensures same { Stays slot.old slot.new }
    ensures untold { result ≢ 0 → quant.new ≡ quant.old }
    ensures told { (f : Follower) → HoldsLine f slot.old.handle.inside → result ≡ 0
        → TellsShare shares.Quant f quant.new }
{
    note_share(slot, Share::Quant, quant)
}

/// Gives the memory of what follows a line back, and leaves the slot empty.
#[unsafe(no_mangle)]
pub extern "C" fn h263rps_raw_line_finish(alloc: Global, slot: &mut Slot) -> u32
    ensures result { result ≡ status_of (for_line slot.old.handle.inside) }
    ensures same { result ≢ 0 → Stays slot.old slot.new }
    ensures empty { result ≡ 0 → slot.new.handle.inside ≡ None }
    ensures nothing { result ≡ 0 → slot.new.counted ≡ counts.no_statistics }
{
    if !slot.is_started() {
        return EndRefusal::NotStarted.number();
    }
    if !slot.handle.end_mut().is_of(EndKind::Line) {
        return EndRefusal::OtherEnd.number();
    }
    let _end = taken(alloc, slot);
    OK
}
