//! Laws over the definitions alone.
ghost use Rattle.std.specs.Prelude.{◌≡◌, ℕ, ◌+◌, ◌<◌, List, length, slice_index_or, slice_set};
ghost use Rattle.h263_types.specs.Marks.{EachIsMarked, HasLowest};

/// A mark tells whether its level is 0.
pub fn marks()
    ensures { EachIsMarked }
{}

/// The place of a number's lowest mark, and the marks without it.
pub fn lowest()
    ensures { HasLowest }
{}

/// The step of a loop that fills an array by a function of the place.
pub fn one_more<T>()
    ensures { (f : ℕ → T) (xs : List T) (at : ℕ) (v d : T)
        → at < length xs → v ≡ f at → ((k : ℕ) → k < at → slice_index_or xs k d ≡ f k)
        → (k : ℕ) → k < at + 1 → slice_index_or (slice_set xs at v) k d ≡ f k }
{}
