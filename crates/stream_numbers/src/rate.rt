//! How many pictures there are.

/// After so many pictures a temporal reference comes again: 256 or 1,024. So many pictures, 1 to
/// 65,536, are captured in so many seconds, 1 to 4,096.
#[derive(Clone, Copy, Debug, PartialEq, Eq)]
pub struct Rate {
    pub period: u32,
    pub rate: u32,
    pub second: u32,
}
