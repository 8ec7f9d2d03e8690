//! A writer of bits into bytes that it was lent.
ghost use Rattle.std.specs.Prelude.{◌≡◌, ℕ, ◌+◌, ◌-◌, ◌*◌, ◌/◌, ◌%◌, ◌<◌, ◌≤◌, ◌^◌, ◌++◌, length, take, []};
ghost use Rattle.h263_bits.specs.Bits.{bits_of, spelled};

/// Writes bits one after another, most significant first.
#[derive(Drop)]
pub struct BitWriter<'a> {
    bytes: &'a mut [u8],
    len: u32,
    ghost short: { length bytes.now ≤ 65535 },
    ghost within: { len ≤ 8 * length bytes.now },
}

// A byte with a few bits put after its first `used`.
fn with_part(old: u8, used: u32, part: u32, count: u32) -> u8
    requires inside { used + count ≤ 8 }
    requires fits { part < 2 ^ count }
    ensures { take (used + count) (spelled 8 result)
        ≡ take used (spelled 8 old) ++ spelled count part }
{
    let kept = (old as u32 >> (8 - used)) << (8 - used);
    (kept + (part << (8 - used - count))) as u8
}

// Writes a few bits inside one byte, after the first `at` bits.
fn put_part(bytes: &mut [u8], at: u32, part: u32, count: u32)
    requires inside { at % 8 + count ≤ 8 }
    requires fits { part < 2 ^ count }
    requires room { at + count ≤ 8 * length bytes.old }
    requires some { 0 < count }
    ensures { take (at + count) (bits_of bytes.new)
        ≡ take at (bits_of bytes.old) ++ spelled count part }
{
    let k = (at / 8) as usize;
    bytes[k] = with_part(bytes[k], at % 8, part, count);
}

// Writes the n bits of a number after the first `at` bits, part by part, each within a byte.
#[inline(never)]
fn put_parts(bytes: &mut [u8], at: u32, value: u32, n: u32)
    requires few { n ≤ 32 }
    requires fits { value < 2 ^ n }
    requires room { at + n ≤ 8 * length bytes.old }
    requires short { length bytes.old ≤ 65535 }
    ensures { take (at + n) (bits_of bytes.new) ≡ take at (bits_of bytes.old) ++ spelled n value }
{
    let mut left = n;
    'parts: while left > 0 {
        let place = at + (n - left);
        let count = left.min(8 - place % 8);
        let part = (value >> (left - count)) % (1 << count);
        put_part(bytes, place, part, count);
        left -= count;
    }
}

// The first `used` bits of a byte, then the n bits of a number, then zeros.
#[inline(always)]
fn word_of(old: u8, used: u32, value: u32, n: u32) -> u64
    requires used { used < 8 }
    requires few { n ≤ 32 }
    requires fits { value < 2 ^ n }
    ensures { take (used + n) (spelled 64 result) ≡ take used (spelled 8 old) ++ spelled n value }
{
    let kept = (old as u64 >> (8 - used)) << n;
    ((kept + value as u64) << (32 - n)) << (32 - used)
}

// Writes the n bits of a number after the first `at` bits, in one store of eight bytes: at most 39
// of its 64 bits are wanted, and it clears those after them.
#[inline(always)]
fn put_word(bytes: &mut [u8], at: u32, value: u32, n: u32)
    requires few { n ≤ 32 }
    requires fits { value < 2 ^ n }
    requires room { at / 8 + 8 ≤ length bytes.old }
    ensures { take (at + n) (bits_of bytes.new) ≡ take at (bits_of bytes.old) ++ spelled n value }
{
    let k = (at / 8) as usize;
    let word = word_of(bytes[k], at % 8, value, n);
    bytes[k..k + 8].copy_from_slice(&word.to_be_bytes());
}

// Writes the n bits of a number after the first `at` bits.
#[inline(always)]
fn put_bits(bytes: &mut [u8], at: u32, value: u32, n: u32)
    requires few { n ≤ 32 }
    requires fits { value < 2 ^ n }
    requires room { at + n ≤ 8 * length bytes.old }
    requires short { length bytes.old ≤ 65535 }
    ensures { take (at + n) (bits_of bytes.new) ≡ take at (bits_of bytes.old) ++ spelled n value }
{
    if (at / 8) as usize + 8 <= bytes.len() {
        put_word(bytes, at, value, n);
    } else {
        put_parts(bytes, at, value, n);
    }
}

impl<'a> BitWriter<'a> {
    ghost use Rattle.h263_bits.specs.Written.{written, len_of, room_of, buffer_of, to_byte, Appends, Cuts};

    /// A writer at the first bit of a buffer.
    pub fn new(bytes: &'a mut [u8]) -> BitWriter<'a>
        requires { length bytes.old ≤ 65535 }
        ensures buffer { buffer_of result ≡ bytes.entry.ghost_name }
        ensures room { room_of result ≡ 8 * length bytes.old }
        ensures none { written result ≡ [] }
        ensures len { len_of result ≡ 0 }
    {
        BitWriter { bytes, len: 0 }
    }

    /// Appends the n bits of a number. What stands after them in the buffer is left open.
    pub fn put(&mut self, value: u32, n: u32)
        requires few { n ≤ 32 }
        requires fits { value < 2 ^ n }
        requires room { len_of self.old + n ≤ room_of self.old }
        ensures bits { Appends self.old self.new (spelled n value) }
        ensures len { len_of self.new ≡ len_of self.old + n }
    {
        put_bits(self.bytes, self.len, value, n);
        self.len += n;
    }

    /// Appends zero bits up to a byte.
    pub fn align(&mut self)
        ensures bits { Appends self.old self.new (spelled (to_byte (len_of self.old)) 0) }
        ensures len { len_of self.new ≡ len_of self.old + to_byte (len_of self.old) }
        ensures whole { len_of self.new % 8 ≡ 0 }
    {
        self.put(0, (8 - self.len % 8) % 8);
    }

    /// Drops the bits after the first `len`.
    pub fn cut(&mut self, len: u32)
        requires { len ≤ len_of self.old }
        ensures bits { Cuts self.old self.new len }
        ensures len { len_of self.new ≡ len }
    {
        self.len = len;
    }

    /// How many bits are written.
    pub fn len(&self) -> u32
        ensures { result ≡ len_of self.now }
    {
        self.len
    }
}
