//! The share of packets that are lost.
ghost use Rattle.std.specs.Prelude.{◌≡◌, ◌≤◌};
ghost use Rattle.line_follower.specs.Losing.{cleared_losses, losses_counted, first_losses, is_judged, losses_after, share_of};

// They are judged each second, if it had so many packets.
const SECOND: u64 = 1_000_000_000;

const LEAST: u32 = 20;

/// What became of the packets since losses were judged last, and the share that was lost then.
#[derive(Clone, Copy)]
pub struct Losses {
    began: u64,
    packets: u32,
    lost: u32,
    /// In ten-thousandths.
    pub(crate) share: u16,
}

impl Losses {
    /// Nothing was sent yet.
    pub fn first(now: u64) -> Losses
        ensures { result ≡ first_losses now }
    {
        Losses {
            began: now,
            packets: 0,
            lost: 0,
            share: 0,
        }
    }

    /// Only what follows is judged.
    pub fn cleared(&self, now: u64) -> Losses
        ensures { result ≡ cleared_losses now self.now }
    {
        Losses {
            began: now,
            packets: 0,
            lost: 0,
            share: self.share,
        }
    }

    // With the packets of one more picture.
    fn counted(&self, packets: u32, is_whole: bool) -> Losses
        ensures { result ≡ losses_counted packets is_whole self.now }
    {
        let lost = if is_whole {
            self.lost
        } else {
            self.lost.saturating_add(1)
        };
        Losses {
            began: self.began,
            packets: self.packets.saturating_add(packets),
            lost,
            share: self.share,
        }
    }

    /// Whether they are judged with what became of one more picture.
    pub fn is_judged(&self, packets: u32, is_whole: bool, now: u64) -> bool
        ensures { result ≡ is_judged now (losses_counted packets is_whole self.now) }
    {
        let counted = self.counted(packets, is_whole);
        if now.saturating_sub(counted.began) < SECOND {
            return false;
        }
        LEAST <= counted.packets
    }

    /// The same with what became of one more picture.
    pub fn after(&self, packets: u32, is_whole: bool, now: u64) -> Losses
        ensures { result ≡ losses_after packets is_whole now self.now }
    {
        let counted = self.counted(packets, is_whole);
        if !self.is_judged(packets, is_whole, now) {
            return counted;
        }
        Losses {
            began: now,
            packets: 0,
            lost: 0,
            share: share_of(counted.lost, counted.packets),
        }
    }
}

// In ten-thousandths, up to all of them.
fn share_of(lost: u32, packets: u32) -> u16
    requires { 20 ≤ packets }
    ensures { result ≡ share_of lost packets }
{
    (10_000 * lost as u64 / packets as u64).min(10_000) as u16
}
