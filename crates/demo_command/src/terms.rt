//! What a call on made input is asked for.
use h263_types::Params;

/// What a call on made input is asked for: its parameters, the seed, and how many frames are made.
#[derive(Clone, Copy)]
pub struct DemoTerms {
    pub params: Params,
    pub seed: u32,
    pub frames: u32,
}
