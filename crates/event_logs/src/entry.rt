//! The entries of a log, and which of them each end meets.
ghost use Rattle.std.specs.Prelude.{◌≡◌, ◌≤◌, length, IfSome};
ghost use Rattle.event_logs.specs.Entry.{letters_of, has_letter, entry_of, entry_with, entry_size, entry_begun};

use byteorder::{BigEndian, ByteOrder};

/// Whose log it is.
#[derive(Clone, Copy, Debug, PartialEq, Eq)]
pub enum Side {
    /// Of a sender: captures, and the messages that arrived.
    Send,
    /// Of a receiver: the packets that arrived, and plays.
    Recv,
    /// Of a stream: the packets that were sent, and the messages that had arrived.
    Audit,
}

/// What one entry says, with the number of its bytes.
#[derive(Clone, Copy, Debug, PartialEq, Eq)]
pub enum Entry {
    /// `S`: the next frame is captured.
    Capture,
    /// `B`: a message arrived.
    Back { len: u32 },
    /// `K`: a packet arrived.
    Packet { len: u32 },
    /// `P`: the next picture is shown.
    Play,
}

/// How many bytes stand before those of an entry: its letter and their number.
pub const HEAD: usize = 3;

// The letters of the entries that the log of a side has.
fn letters_of(side: Side) -> &'static [u8]
    ensures { result.now ≡ letters_of side }
{
    match side {
        Side::Send => b"SB",
        Side::Recv => b"KP",
        Side::Audit => b"KB",
    }
}

// What an entry says by its letter and the number of its bytes.
fn entry_of(letter: u8, len: u16) -> Option<Entry>
    ensures is { result ≡ entry_of letter len }
    ensures within { IfSome result (λ entry. entry_size entry ≤ 65535) }
{
    let len = len as u32;
    match letter {
        b'S' if len == 0 => Some(Entry::Capture),
        b'B' => Some(Entry::Back { len }),
        b'K' => Some(Entry::Packet { len }),
        b'P' if len == 0 => Some(Entry::Play),
        _ => None,
    }
}

/// The entry of a side's log that the first three bytes begin.
pub fn begun(side: Side, head: &[u8]) -> Option<Entry>
    ensures is { result ≡ entry_begun side head.now }
    ensures within { IfSome result (λ entry. entry_size entry ≤ 65535) }
{
    if head.len() < HEAD || !letters_of(side).contains(&head[0]) {
        return None;
    }
    entry_of(head[0], BigEndian::read_u16(&head[1..]))
}

/// How many bytes an entry has after its head.
pub fn bytes_of(entry: Entry) -> u32
    ensures { result ≡ entry_size entry }
{
    match entry {
        Entry::Capture | Entry::Play => 0,
        Entry::Back { len } | Entry::Packet { len } => len,
    }
}
