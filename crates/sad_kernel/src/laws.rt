//! What ties the sum of a whole to those of its parts. A law is the contract of a function that
//! does nothing.
ghost use Rattle.std.specs.Prelude.{◌≡◌, ℕ, ◌+◌, List, ◌++◌, length};
ghost use Rattle.sad_kernel.specs.Differences.{differences};

/// The differences of lists that are cut into two parts at the same place are those of the parts,
/// added.
pub fn parts_add()
    ensures { (xs ys us vs : List ℕ) → length xs ≡ length us
        → differences (xs ++ ys) (us ++ vs) ≡ differences xs us + differences ys vs }
{}
