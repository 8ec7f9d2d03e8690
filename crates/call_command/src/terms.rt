//! What a call is asked for.
use h263_types::Params;

/// What a call is asked for: its parameters, and whether its trace is the plain one of its video,
/// or is read line by line.
#[derive(Clone, Copy)]
pub struct Terms {
    pub params: Params,
    pub plain: bool,
}
