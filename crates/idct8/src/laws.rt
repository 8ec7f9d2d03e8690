//! What a block without values gives, what INTRADC adds, and how large coefficients are. Each law
//! is the contract of a function that does nothing.
ghost use Rattle.std.specs.Prelude.{◌≡◌, ℕ, ◌+◌, ◌*◌, ◌<◌, ◌≤◌, ℤ, pos, ◌+ℤ◌, ◌*ℤ◌, List, slice_index_or, unsigned_abs};
ghost use Rattle.std.specs.Int.{int_shr};
ghost use Rattle.idct8.specs.Near.{near_at, IsBracketed};
ghost use Rattle.idct8.specs.Sums.{total};
ghost use Rattle.idct8.specs.Transform.{forward_at, inverse_at};
ghost use Rattle.idct8.specs.Vectors.{squared};

/// The inverse transform of a block whose values are all 0 is 0 everywhere.
pub fn zeros_give_zeros()
    ensures { (values : List ℤ) → ((at : ℕ) → at < 64 → slice_index_or values at (pos 0) ≡ pos 0)
        → (y x : ℕ) → inverse_at values y x ≡ pos 0 }
{}

/// But for its rounding, the square of a coefficient is at most the sum of the squares of the
/// samples. So where that sum is small each coefficient is smaller than `least`.
pub fn small_squares()
    ensures { (samples : List ℤ) (v u least : ℕ) → v < 8 → u < 8 → least ≤ 77
        → total 64 (λ k. squared (slice_index_or samples k (pos 0))) + least + 1 < least * least
        → unsigned_abs (forward_at samples v u) < least }
{}

/// INTRADC is added to each number as it is: the inverse transform of a block whose first value is
/// 8 times INTRADC is INTRADC and that of the other values, since what the first value stands for
/// is a multiple of what rounding divides by.
pub fn first_value_apart()
    ensures { (values others : List ℤ) (dc : ℤ) → slice_index_or values 0 (pos 0) ≡ pos 8 *ℤ dc
        → slice_index_or others 0 (pos 0) ≡ pos 0 → ((at : ℕ) → 1 ≤ at → at < 64
        → slice_index_or values at (pos 0) ≡ slice_index_or others at (pos 0)) → (y x : ℕ)
        → y < 8 → x < 8 → inverse_at values y x ≡ dc +ℤ inverse_at others y x }
{}

/// What two rounded passes give, in sixteenths, brackets the coefficient: with u the size of the
/// sixteenths, the coefficient's size is at least (u + 6) / 16 and at most (u + 9) / 16, each
/// without its fraction, and its sign is theirs or it is 0.
pub fn near_brackets()
    ensures { (samples : List ℤ) (v u : ℕ) → v < 8 → u < 8
        → IsBracketed (near_at samples v u) (forward_at samples v u) }
{}

/// The first coefficient is exact: neither pass rounds its sums.
pub fn first_is_exact()
    ensures { (samples : List ℤ)
        → forward_at samples 0 0 ≡ int_shr (near_at samples 0 0 +ℤ pos 8) 4 }
{}
