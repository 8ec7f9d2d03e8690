//! What a group's call is asked for.
use h263_types::Params;

/// The parameters of the call, and how many receivers it has, 1 to 3.
#[derive(Clone, Copy, Debug, PartialEq, Eq)]
pub struct GroupTerms {
    pub params: Params,
    pub receivers: u32,
}
