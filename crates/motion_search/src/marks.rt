//! Marks of candidates, bit by bit.
ghost use Rattle.std.specs.Prelude.{◌≡◌, ◌≢◌, ℕ, ◌<◌};
ghost use Rattle.std.specs.Int.{bit_at};

// The first mark.
#[inline(always)]
pub(crate) fn lowest(marks: u64) -> u32
    requires { marks ≢ 0 }
    ensures bound { result < 64 }
    ensures set { bit_at marks result ≡ 1 }
    ensures below { (k : ℕ) → k < result → bit_at marks k ≡ 0 }
{
    marks.trailing_zeros()
}

// The marks but for one.
#[inline(always)]
pub(crate) fn without(marks: u64, bit: u32) -> u64
    requires bound { bit < 64 }
    requires set { bit_at marks bit ≡ 1 }
    ensures smaller { result < marks }
    ensures kept { (k : ℕ) → k < 64 → k ≢ bit → bit_at result k ≡ bit_at marks k }
{
    marks & !(1 << bit)
}
