//! What became of the latest eight pictures.
ghost use Rattle.std.specs.Prelude.{◌≡◌, ◌≤◌, IfSome};
ghost use Rattle.line_follower.specs.Losing.{carried_by, eighths_of, latest_with, no_latest, whole_number};

use crate::four::Four;

/// The packets of the latest eight pictures, and whether each is whole (1) or isn't (0).
#[derive(Clone, Copy)]
pub struct Latest {
    // How many there are, up to eight.
    count: u8,
    newer: Four,
    older: Four,
    newer_whole: Four,
    older_whole: Four,
}

impl Latest {
    /// None yet.
    pub fn none() -> Latest
        ensures { result ≡ no_latest }
    {
        Latest {
            count: 0,
            newer: Four::none(),
            older: Four::none(),
            newer_whole: Four::none(),
            older_whole: Four::none(),
        }
    }

    /// The same with one more picture.
    pub fn with(&self, packets: u32, is_whole: bool) -> Latest
        ensures { result ≡ latest_with packets is_whole self.now }
    {
        let count = if self.count < 8 { self.count + 1 } else { 8 };
        Latest {
            count,
            newer: self.newer.with(packets),
            older: self.older.with(self.newer.fourth),
            newer_whole: self.newer_whole.with(whole_number(is_whole)),
            older_whole: self.older_whole.with(self.newer_whole.fourth),
        }
    }

    /// The eighths of the rate that come through, where fewer than half of the packets do.
    pub fn carried(&self) -> Option<u32>
        ensures { result ≡ carried_by self.now }
    {
        if self.count != 8 {
            return None;
        }
        let whole = self.newer_whole.total() + self.older_whole.total();
        let packets = self.newer.total() + self.older.total();
        eighths_of(whole, packets)
    }
}

fn whole_number(is_whole: bool) -> u32
    ensures { result ≡ whole_number is_whole }
{
    if is_whole { 1 } else { 0 }
}

fn eighths_of(whole: u64, packets: u64) -> Option<u32>
    ensures { result ≡ eighths_of whole packets }
{
    if whole == 0 {
        return Some(2);
    }
    if whole == 1 {
        if packets < 16 {
            return Some(2);
        }
        return if packets < 24 { Some(3) } else { None };
    }
    if whole == 2 {
        return if packets < 16 { Some(3) } else { None };
    }
    if whole == 3 {
        return if packets < 12 { Some(3) } else { None };
    }
    None
}
