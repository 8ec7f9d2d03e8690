//! What carries a call between its ends.
ghost use Rattle.std.specs.Prelude.{◌≡◌, IfOk};
ghost use Rattle.call_command.specs.Standing.{pictures_kept};

use crate::Terms;
use h263_types::OutOfMemory;
use loss_trace::TraceReader;
use one_way::Network;
use std::alloc::Global;

/// What carries a call between its ends: the reader of its trace, the network, and room for a
/// frame. All its memory is taken at the start.
#[derive(Drop)]
pub struct Link {
    pub trace: TraceReader,
    pub network: Network,
    pub frame: Vec<u8>,
}

// The packets of this many pictures are kept: those of the last period. Over the plain trace each
// packet is delivered at once.
fn kept(terms: &Terms) -> u32
    ensures { result ≡ pictures_kept terms.now }
{
    if terms.plain {
        return 1;
    }
    terms.params.clock.period()
}

impl Link {
    ghost use Rattle.call_command.specs.Standing.{IsFreshLink};

    /// Before the first event of a call.
    pub fn start(alloc: Global, terms: &Terms) -> Result<Link, OutOfMemory>
        ensures { IfOk result (IsFreshLink terms.now) }
    {
        Ok(Link {
            trace: TraceReader::new(),
            network: Network::start(alloc, &terms.params, kept(terms))?,
            frame: vec![in alloc; 0; terms.params.format.size() as usize]?,
        })
    }
}
