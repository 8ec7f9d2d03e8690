//! The joiner: it takes packets as they come, and gives packets of one slice each.
ghost use Rattle.std.specs.Prelude.{◌≡◌, ◌↔◌, ℕ, ◌+◌, ◌-◌, ◌%◌, ◌<◌, [], ◌∷◌, List, Some, Ok, true, false, IsNone, IfSome, IfOk};
ghost use Rattle.std.specs.Borrow.{sem};
ghost use Rattle.h263_types.specs.declared.format.Format.{Format};
ghost use Rattle.payload_join.specs.declared.took.Took.{Took};
ghost use Rattle.payload_join.specs.Packet.{packet_in};
ghost use Rattle.payload_join.specs.Parts.{ArePartsInside, packet_from_parts};
ghost use Rattle.payload_join.specs.Places.{holding_at, top_after};
ghost use Rattle.payload_join.specs.Units.{HasMade, IsWholeIf};
ghost use Rattle.payload_join.specs.Giving.{IsGiving};
ghost use Rattle.payload_join.specs.Left.{left_in_room};
ghost use Rattle.payload_join.specs.Run.{is_held, took_next, given_next};

use crate::giving::{Giving, build, lay};
use crate::parts::{Parts, read_parts};
use crate::ring::HeldPackets;
use crate::took::Took;
use crate::units::{Span, made_with, take_first};
use h263_types::{Format, OutOfMemory};
use std::alloc::Global;
use std::marker::Model;

/// Holds packets of RFC 4629 that follow on one another, or that carry several slices, and gives
/// packets of one slice. It has no `Drop`: it must be finished.
pub struct Joiner {
    ring: HeldPackets,
    // that of the last packet
    format: Format,
    // whole units that are still to be laid into the room
    first: Option<Span>,
    second: Option<Span>,
    // the unit in the room
    giving: Giving,
    // where in the room the packet lies that was given last
    from: usize,
    to: usize,
}

impl Model for Joiner {
    ghost use Rattle.payload_join.specs.Joining.{Joining};
    ghost use Rattle.payload_join.specs.Keeping.{IsJoiner, joining_of};

    ghost Value = { Joining };

    ghost view = { λ j. joining_of j.ring j.format j.first j.second j.giving j.from j.to };

    ghost invariant = { λ j. IsJoiner j.ring j.first j.second j.giving j.from j.to };
}

impl Joiner {
    ghost use Rattle.payload_join.specs.Joining.{JoinerStands, after_next, is_left};
    ghost use Rattle.payload_join.specs.Ends.{EndsPast};

    /// A joiner that holds nothing. It takes all its memory: 64 packets and one outgoing packet.
    pub fn start(alloc: Global) -> Result<Joiner, OutOfMemory>
        ensures stands { IfOk result (λ joiner. JoinerStands joiner []) }
        ensures none { IfOk result (λ joiner. joiner.left ≡ []) }
    {
        let ring = HeldPackets::start(alloc)?;
        Ok(Joiner {
            ring,
            format: Format::SubQcif,
            first: None,
            second: None,
            giving: Giving::none(),
            from: 0,
            to: 0,
        })
    }

    /// Takes a packet. All that goes out with it is left to be given. `format` is that of the
    /// picture headers; where it is the same at each call, what goes out is a join run.
    pub fn take(&mut self, bytes: &[u8], format: Format) -> Took
        // What went out with the packet before was given.
        requires { self.old.left ≡ [] }
        ensures answer { (past : List (List ℕ)) → JoinerStands self.old past
            → result ≡ took_next past bytes.now }
        ensures stands { (past : List (List ℕ)) → JoinerStands self.old past
            → JoinerStands self.new (bytes.now ∷ past) }
        ensures left { (past : List (List ℕ)) → JoinerStands self.old past
            → self.new.left ≡ given_next format past bytes.now }
        ensures same { is_held result ≡ false → self.new ≡ self.old }
    {
        match read_parts(bytes) {
            Ok(parts) => self.consider(bytes, parts, format),
            Err(fault) => Took::Refused(fault),
        }
    }

    // Takes a packet that can be read.
    fn consider(&mut self, bytes: &[u8], parts: Parts, format: Format) -> Took
        requires left { self.old.left ≡ [] }
        requires inside { ArePartsInside bytes.now parts }
        requires read { packet_in bytes.now ≡ Ok (packet_from_parts bytes.now parts) }
        ensures answer { (past : List (List ℕ)) → JoinerStands self.old past
            → result ≡ took_next past bytes.now }
        ensures stands { (past : List (List ℕ)) → JoinerStands self.old past
            → JoinerStands self.new (bytes.now ∷ past) }
        ensures left { (past : List (List ℕ)) → JoinerStands self.old past
            → self.new.left ≡ given_next format past bytes.now }
        ensures same { is_held result ≡ false → self.new ≡ self.old }
    {
        let took = self.ring.judge(parts.sequence);
        if !took.is_held() {
            return took;
        }
        self.hold(bytes, parts, format);
        took
    }

    // Holds a packet, and finds what it makes whole.
    fn hold(&mut self, bytes: &[u8], parts: Parts, format: Format)
        requires left { self.old.left ≡ [] }
        requires inside { ArePartsInside bytes.now parts }
        requires near { (top_after self.old.top parts.sequence + 65536 - parts.sequence) % 65536 < 64 }
        ensures top { self.new.top ≡ Some (top_after self.old.top parts.sequence) }
        ensures packets { self.new.packets ≡ holding_at self.old.top self.old.packets
            parts.sequence (packet_from_parts bytes.now parts) }
        ensures left { HasMade format self.old.top parts.sequence self.new.packets self.new.left }
    {
        let top = self.ring.hold(bytes, parts);
        let made = made_with(&self.ring, top, parts.sequence);
        self.first = made.first;
        self.second = made.second;
        self.format = format;
    }

    // Builds the next outgoing packet, if one is left.
    fn advance(&mut self) -> bool
        ensures left { result ≡ is_left self.old.left }
        ensures new { self.new ≡ after_next self.old }
    {
        let format = self.format;
        if !ready(
            &mut self.ring,
            &mut self.giving,
            &mut self.first,
            &mut self.second,
            format,
        ) {
            return false;
        }
        let (from, to) = build(&mut self.ring, &mut self.giving);
        self.from = from;
        self.to = to;
        true
    }

    // The packet that was given last.
    fn current(&self) -> &[u8]
        ensures { result.now ≡ self.now.given }
    {
        &self.ring.room()[self.from..self.to]
    }

    /// The next outgoing packet, or none where all were given.
    pub fn next(&mut self) -> Option<&[u8]>
        ensures none { IsNone result ↔ (self.old.left ≡ []) }
        ensures some { IfSome result (λ packet. (left : List (List ℕ))
            × (self.old.left ≡ packet.now ∷ left)) }
        // It holds the same packets, and what is left is less by the first.
        ensures* passes { sem 𝓛 (EndsPast self.entry) }
    {
        if !self.advance() {
            return None;
        }
        Some(self.current())
    }

    /// Gives every slot and the memory back.
    pub fn finish(self) {
        let Joiner {
            ring,
            format: _,
            first: _,
            second: _,
            giving: _,
            from: _,
            to: _,
        } = self;
        ring.finish();
    }
}

// A unit is in the room of which something is left, if there is one.
fn ready(
    ring: &mut HeldPackets,
    giving: &mut Giving,
    first: &mut Option<Span>,
    second: &mut Option<Span>,
    format: Format,
) -> bool
    requires is { IsGiving giving.old }
    requires first { IsWholeIf ring.old.packets first.old }
    requires second { IsWholeIf ring.old.packets second.old }
    ensures left { left_in_room ring.new format first.new second.new giving.new
        ≡ left_in_room ring.old format first.old second.old giving.old }
    ensures ready { result ≡ true → giving.new.is_left ≡ true }
    ensures none { result ≡ false → left_in_room ring.old format first.old second.old giving.old ≡ [] }
    ensures same { result ≡ false → ring.new ≡ ring.old }
    ensures is { IsGiving giving.new }
    ensures first { IsWholeIf ring.old.packets first.new }
    ensures second { IsWholeIf ring.old.packets second.new }
    ensures top { ring.new.top ≡ ring.old.top }
    ensures packets { ring.new.packets ≡ ring.old.packets }
{
    if giving.is_left {
        return true;
    }
    let Some(unit) = take_first(first, second) else {
        return false;
    };
    *giving = lay(ring, unit, format);
    true
}
