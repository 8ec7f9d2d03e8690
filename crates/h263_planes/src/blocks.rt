//! Where the blocks of a macroblock stand.
use crate::Plane;

/// The first sample of a block of 8 x 8 samples: its plane, column and row.
#[derive(Clone, Copy, Debug)]
pub struct Corner {
    pub plane: Plane,
    pub x: u32,
    pub y: u32,
}
