//! Whether two headers are the same, field by field: what `==` says of two headers a proof can't
//! use.
ghost use Rattle.std.specs.Prelude.{◌≡◌, ◌↔◌, true, IsTrue};

use crate::header::Header;
use back_messages::Message;
use h263_types::{Clock, Format, Kind};

fn is_same_format(a: Format, b: Format) -> bool
    ensures { (result ≡ true) ↔ (a ≡ b) }
{
    a == b
}

fn is_same_kind(a: Kind, b: Kind) -> bool
    ensures { (result ≡ true) ↔ (a ≡ b) }
{
    a == b
}

fn is_same_clock(a: Clock, b: Clock) -> bool
    ensures { (result ≡ true) ↔ (a ≡ b) }
{
    a == b
}

fn is_same_reference(a: Option<u16>, b: Option<u16>) -> bool
    ensures { (result ≡ true) ↔ (a ≡ b) }
{
    a == b
}

fn is_same_message(a: &Option<Message>, b: &Option<Message>) -> bool
    ensures { (result ≡ true) ↔ (a.now ≡ b.now) }
{
    a == b
}

fn are_same_messages(a: &[Option<Message>; 4], b: &[Option<Message>; 4]) -> bool
    ensures { (result ≡ true) ↔ (a.now ≡ b.now) }
{
    is_same_message(&a[0], &b[0])
        && is_same_message(&a[1], &b[1])
        && is_same_message(&a[2], &b[2])
        && is_same_message(&a[3], &b[3])
}

fn are_same_numbers(a: &Header, b: &Header) -> bool
    ensures { (result ≡ true) ↔ ((a.now.tr ≡ b.now.tr) × (a.now.rounding ≡ b.now.rounding)
        × (a.now.channel ≡ b.now.channel) × (a.now.quant ≡ b.now.quant)) }
{
    a.tr == b.tr && a.rounding == b.rounding && a.channel == b.channel && a.quant == b.quant
}

impl Header {
    /// Whether both headers say the same.
    pub fn is_same(&self, other: &Header) -> bool
        ensures { IsTrue result ↔ (self.now ≡ other.now) }
    {
        if !are_same_numbers(self, other) {
            return false;
        }
        if !is_same_format(self.format, other.format) || !is_same_kind(self.kind, other.kind) {
            return false;
        }
        if !is_same_clock(self.clock, other.clock) || !is_same_reference(self.trp, other.trp) {
            return false;
        }
        are_same_messages(&self.back, &other.back)
    }
}
