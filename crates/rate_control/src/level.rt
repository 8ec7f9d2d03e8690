//! The bucket level, kept as one number.
ghost use Rattle.std.specs.Prelude.{◌≡◌, ◌+◌, ◌-◌, ◌*◌, ◌<◌, ◌≤◌, ◌^◌, length};
ghost use Rattle.rate_control.specs.Level.{level_of};

/// The level after one more picture of `size` bytes.
pub fn filled(level: u64, size: u64, target: u32) -> u64
    requires { level + size < 2 ^ 64 }
    ensures { result ≡ level + size - target }
{
    (level + size).saturating_sub(target as u64)
}

/// The level after pictures of these sizes.
pub fn level_after(target: u32, sizes: &[u32]) -> u64
    requires { length sizes.now ≤ 16 }
    ensures value { result ≡ level_of target sizes.now }
    ensures bound { result ≤ 16 * 2 ^ 32 }
{
    let mut level = 0;
    for size in sizes {
        level = filled(level, *size as u64, target);
    }
    level
}
