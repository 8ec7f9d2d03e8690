//! A reader of bits: it lends the bytes, and knows its place and its end.
ghost use Rattle.std.specs.Prelude.{◌≡◌, ℕ, ◌+◌, ◌-◌, ◌*◌, ◌/◌, ◌%◌, ◌<◌, ◌≤◌, ◌^◌, length, take, drop, IfOk, OnErr};
ghost use Rattle.h263_bits.specs.Bits.{bits_of, number};
ghost use Rattle.h263_bits.specs.Reading.{Bits, Gives, bits_between, number_at, skip};
ghost use Rattle.h263_bits.specs.Syntax.{field_at, only};

use crate::fault::{Fault, FaultKind};
use std::marker::Model;

/// Reads bits from a place up to another, most significant first.
#[derive(Drop)]
pub struct BitReader<'a> {
    bytes: &'a [u8],
    at: u32,
    end: u32,
}

impl<'a> Model for BitReader<'a> {
    ghost use Rattle.std.specs.Prelude.{◌*◌, ◌≤◌, length};
    ghost use Rattle.h263_bits.specs.Reading.{Bits, bits_between};

    ghost Value = { Bits };

    ghost view = { λ r. bits_between r.bytes.now r.at r.end };

    ghost invariant = { λ r. (r.at ≤ r.end) × (r.end ≤ 8 * length r.bytes.now)
        × (length r.bytes.now ≤ 65535) };
}

// The number of the eight bytes from a place on, the first of them highest: one load.
fn eight_bytes(bytes: &[u8], first: usize) -> u64
    requires { first + 8 ≤ length bytes.now }
    ensures { result ≡ number (bits_of (take 8 (drop first bytes.now))) }
{
    u64::from_be_bytes([
        bytes[first],
        bytes[first + 1],
        bytes[first + 2],
        bytes[first + 3],
        bytes[first + 4],
        bytes[first + 5],
        bytes[first + 6],
        bytes[first + 7],
    ])
}

// The number of the last bytes, where no eight are left, the first of them highest.
fn last_bytes(bytes: &[u8]) -> u64
    requires { length bytes.now < 8 }
    ensures { result ≡ number (bits_of bytes.now) }
{
    let mut sum: u64 = 0;
    for byte in bytes {
        sum = sum * 256 + *byte as u64;
    }
    sum
}

// The n bits of a number that have this many below them.
fn bits_above(number: u64, below: u32, n: u32) -> u32
    requires few { n ≤ 32 }
    requires below { below < 64 }
    ensures { result ≡ number / 2 ^ below % 2 ^ n }
{
    ((number >> below) & ((1u64 << n) - 1)) as u32
}

// The number of the n bits from a place on.
fn number_from(bytes: &[u8], at: u32, n: u32) -> u32
    requires few { n ≤ 32 }
    requires room { at + n ≤ 8 * length bytes.now }
    requires short { length bytes.now ≤ 65535 }
    ensures value { result ≡ number (take n (drop at (bits_of bytes.now))) }
    ensures below { result < 2 ^ n }
{
    // All 64 bits may stand below no bits, and no shift goes as far.
    if n == 0 {
        return 0;
    }
    let first = (at / 8) as usize;
    let left = bytes.len() - first;
    if left >= 8 {
        return bits_above(eight_bytes(bytes, first), 64 - at % 8 - n, n);
    }
    bits_above(last_bytes(&bytes[first..]), 8 * left as u32 - at % 8 - n, n)
}

// The number of the n bits from a place on that has 64 bits before the end: one load has them.
#[inline(always)]
fn number_early(bytes: &[u8], at: u32, n: u32) -> u32
    requires some { 0 < n }
    requires few { n ≤ 32 }
    requires many { at + 64 ≤ 8 * length bytes.now }
    requires short { length bytes.now ≤ 65535 }
    ensures value { result ≡ number (take n (drop at (bits_of bytes.now))) }
    ensures below { result < 2 ^ n }
{
    bits_above(eight_bytes(bytes, (at / 8) as usize), 64 - at % 8 - n, n)
}

impl<'a> BitReader<'a> {
    /// A reader of the bits from place `from` up to place `to`.
    pub fn new(bytes: &'a [u8], from: u32, to: u32) -> BitReader<'a>
        requires short { length bytes.now ≤ 65535 }
        requires order { from ≤ to }
        requires within { to ≤ 8 * length bytes.now }
        ensures bits { result ≡ bits_between bytes.now from to }
        ensures rest { length result.bits ≡ to - from }
    {
        BitReader {
            bytes,
            at: from,
            end: to,
        }
    }

    /// The next n bits as a number.
    pub fn bits(&mut self, n: u32) -> Result<u32, Fault>
        requires { n ≤ 32 }
        ensures reads { Gives (λ (v : ℕ). v) result self.new (number_at n self.old) }
        ensures below { IfOk result (λ v. v < 2 ^ n) }
        ensures err { OnErr result (self.new ≡ self.old) }
    {
        if self.end - self.at < n {
            return Err(FaultKind::Ended.at(self.at));
        }
        let value = number_from(self.bytes, self.at, n);
        self.at += n;
        Ok(value)
    }

    /// Reads a field of n bits that has one value. Another value is the fault, at the field's first
    /// bit.
    pub fn fixed(&mut self, n: u32, value: u32, kind: FaultKind) -> Result<(), Fault>
        requires { n ≤ 32 }
        ensures { Gives (λ _. value) result self.new (field_at n (only value kind) self.old) }
    {
        let at = self.at;
        if self.bits(n)? != value {
            return Err(kind.at(at));
        }
        Ok(())
    }

    /// The next n bits as a number, which the reader keeps.
    pub fn peek(&self, n: u32) -> u32
        requires few { n ≤ 32 }
        requires there { n ≤ length self.now.bits }
        ensures value { result ≡ number (take n self.now.bits) }
        ensures below { result < 2 ^ n }
    {
        number_from(self.bytes, self.at, n)
    }

    /// The next n bits as a number, as [`peek`](BitReader::peek) has it, where 64 or more are left:
    /// so the bytes needn't be counted.
    #[inline(always)]
    pub fn peek_early(&self, n: u32) -> u32
        requires some { 0 < n }
        requires few { n ≤ 32 }
        requires many { 64 ≤ length self.now.bits }
        ensures value { result ≡ number (take n self.now.bits) }
        ensures below { result < 2 ^ n }
    {
        number_early(self.bytes, self.at, n)
    }

    /// Passes over n bits.
    pub fn skip(&mut self, n: u32)
        requires { n ≤ length self.old.bits }
        ensures { self.new ≡ skip n self.old }
    {
        self.at += n;
    }

    /// The place of the next bit, counted from the first bit of the bytes.
    pub fn at(&self) -> u32
        ensures { result ≡ self.now.at }
    {
        self.at
    }

    /// How many bits are left.
    pub fn rest(&self) -> u32
        ensures { result ≡ length self.now.bits }
    {
        self.end - self.at
    }
}
