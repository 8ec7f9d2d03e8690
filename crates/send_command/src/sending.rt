//! What a sender alone is asked for.
use h263_types::Params;

/// What a sender alone is asked for.
#[derive(Clone, Copy)]
pub struct Sending {
    pub params: Params,
    /// The bytes per picture that the quantiser is to follow, 1 to 999,999. With none it is that of
    /// the parameters for each picture.
    pub target: Option<u32>,
    /// The bytes per picture that the pictures are to fit, 1 to 999,999, whatever the target.
    pub fit: Option<u32>,
}
