//! What is asked for.
ghost use Rattle.std.specs.Prelude.{◌≡◌, ◌<◌, ◌≤◌, length, map, find};
ghost use Rattle.packet_gaps.specs.Asking.{is_asked, mask_of, may_ask, when_told};

use crate::gap::Gap;
use crate::moment::Moment;
use arrayvec::ArrayVec;

/// The first packet that may be asked for.
pub fn first_of(gaps: &[Gap], moment: &Moment, newest: u64) -> Option<Gap>
    ensures { result ≡ find (may_ask moment.now newest) gaps.now }
{
    for gap in gaps {
        if gap.may_ask(moment, newest) {
            return Some(*gap);
        }
    }
    None
}

// Whether the packet so many after this one may be asked for.
fn is_asked(gaps: &[Gap], moment: &Moment, newest: u64, first: u64, distance: u64) -> bool
    ensures { result ≡ is_asked moment.now newest gaps.now first distance }
{
    for gap in gaps {
        if gap.is_asked(moment, newest, first, distance) {
            return true;
        }
    }
    false
}

/// The mask of those of the 16 packets after this one that may be asked for.
pub fn following(gaps: &[Gap], moment: &Moment, newest: u64, first: u64) -> u16
    ensures { result ≡ mask_of (is_asked moment.now newest gaps.now first) 16 1 }
{
    let mut mask: u32 = 0;
    for step in 0..16u64 {
        mask *= 2;
        if is_asked(gaps, moment, newest, first, 16 - step) {
            mask += 1;
        }
    }
    mask as u16
}

/// What the gaps are after a field whose PID is this number.
pub fn told(gaps: &[Gap], moment: &Moment, newest: u64, first: u64) -> ArrayVec<Gap, 64>
    requires { length gaps.now ≤ 64 }
    ensures { result.items ≡ map (when_told moment.now newest first) gaps.now }
{
    let mut after = ArrayVec::new();
    for gap in gaps {
        after.push(gap.when_told(moment, newest, first));
    }
    after
}
