//! Which gaps are kept.
ghost use Rattle.std.specs.Prelude.{◌≡◌, ◌+◌, ◌-◌, ◌<◌, ◌≤◌, ◌^◌, ◌==◌, ◌++◌, not, nat_le, length, map, filter};
ghost use Rattle.arrayvec.specs.ArrayVec.{array_vec_len};
ghost use Rattle.packet_gaps.specs.Missing.{after_number, gaps_after_play, gap_of, last_gaps, counted_number, numbers_from};

use crate::gap::Gap;
use arrayvec::ArrayVec;

/// A packet's number, counted on.
pub fn number_of(newest: u64, sequence: u16) -> u64
    ensures { result ≡ counted_number newest sequence }
{
    let ahead = (sequence as u64 + 65_536 - newest % 65_536) % 65_536;
    if ahead < 32_768 {
        newest.saturating_add(ahead)
    } else {
        newest.saturating_sub(65_536 - ahead)
    }
}

// The last so many.
fn last_of(gaps: &[Gap], room: usize) -> ArrayVec<Gap, 64>
    requires { room ≤ 64 }
    ensures items { result.items ≡ last_gaps room gaps.now }
    ensures room { array_vec_len result ≤ room }
{
    let mut kept = ArrayVec::new();
    for gap in &gaps[gaps.len().saturating_sub(room)..] {
        kept.push(*gap);
    }
    kept
}

// With so many more, of this picture, from this number on.
fn push_from(kept: &mut ArrayVec<Gap, 64>, first: u64, count: u64, picture: u32)
    requires room { array_vec_len kept.old + count ≤ 64 }
    requires end { first + count < 2 ^ 64 }
    ensures { kept.new.items ≡ kept.old.items ++ map (gap_of picture) (numbers_from first count) }
{
    for more in 0..count {
        kept.push(Gap {
            number: first + more,
            picture,
            asked: 0,
            last: 0,
        });
    }
}

/// With those between the newest packet and one of this picture that is ahead of it.
pub fn filled(gaps: &[Gap], newest: u64, number: u64, picture: u32) -> ArrayVec<Gap, 64>
    requires { newest < number }
    ensures { result.items ≡ after_number newest number picture gaps.now }
{
    let count = (number - newest - 1).min(64);
    let mut kept = last_of(gaps, 64 - count as usize);
    push_from(&mut kept, number - count, count, picture);
    kept
}

/// Without the one with this number.
pub fn without(gaps: &[Gap], number: u64) -> ArrayVec<Gap, 64>
    requires { length gaps.now ≤ 64 }
    ensures { result.items ≡ filter (λ g. not (g.number == number)) gaps.now }
{
    let mut kept = ArrayVec::new();
    for gap in gaps {
        if gap.number != number {
            kept.push(*gap);
        }
    }
    kept
}

/// Without those of pictures before this one.
pub fn played(gaps: &[Gap], next: u32) -> ArrayVec<Gap, 64>
    requires { length gaps.now ≤ 64 }
    ensures { result.items ≡ gaps_after_play next gaps.now }
{
    let mut kept = ArrayVec::new();
    for gap in gaps {
        if next <= gap.picture {
            kept.push(*gap);
        }
    }
    kept
}
