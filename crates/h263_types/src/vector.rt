//! Motion vectors, and the least and greatest ones of a macroblock.

/// A motion vector in half samples, each component from -32 to 31; `x` is horizontal (H.263,
/// 6.1.1).
#[derive(Clone, Copy, Debug, PartialEq, Eq)]
pub struct Vector {
    pub x: i8,
    pub y: i8,
}

impl Vector {
    /// The vector to the same place.
    pub const ZERO: Vector = Vector { x: 0, y: 0 };
}

/// The least and the greatest components, in half samples, for which each referenced sample lies in
/// the picture.
#[derive(Clone, Copy, Debug)]
pub struct Reach {
    pub left: i8,
    pub right: i8,
    pub up: i8,
    pub down: i8,
}
