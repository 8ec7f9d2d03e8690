//! What an audit keeps.
ghost use Rattle.std.specs.Prelude.{◌≡◌, ◌-◌, [], Some, IfOk};
ghost use Rattle.h263_types.specs.Params.{IsParams};

use crate::verdict::{Broken, Rule};
use h263_types::{OutOfMemory, Params};
use packet_collector::Collector;
use reference_selector::Selector;
use std::alloc::Global;

/// What an audit keeps of a stream.
#[derive(Drop)]
pub struct Kept {
    pub params: Params,
    // How many pictures were begun, and the temporal reference of the last one.
    pub pictures: u32,
    pub tr: Option<u16>,
    // What was taken of the last picture: a row of one.
    pub collector: Collector,
    // Which of the last pictures are known.
    pub selector: Selector,
    // The first rule that was broken.
    pub broken: Option<Broken>,
}

impl Kept {
    ghost use Rattle.stream_audit.specs.State.{AuditFits, StandsForLog};
    ghost use Rattle.stream_audit.specs.Verdict.{broken_at};

    /// Nothing was sent. All memory is taken here.
    pub fn start(alloc: Global, params: &Params) -> Result<Kept, OutOfMemory>
        requires { IsParams params.now }
        ensures fits { IfOk result AuditFits }
        ensures params { IfOk result (λ k. k.params ≡ params.now) }
        ensures pictures { IfOk result (λ k. k.pictures ≡ 0) }
        ensures stands { IfOk result (λ k. StandsForLog k []) }
    {
        let one = Params { lead: 0, ..*params };
        let collector = Collector::start(alloc, &one)?;
        Ok(Kept {
            params: *params,
            pictures: 0,
            tr: None,
            collector,
            selector: Selector::start(params),
            broken: None,
        })
    }

    /// The number of the last picture: 0 before the first.
    pub fn present(&self) -> u32
        ensures { result ≡ self.now.pictures - 1 }
    {
        self.pictures.saturating_sub(1)
    }

    /// Breaks a rule.
    pub fn breaks(&mut self, number: u32, rule: Rule)
        ensures { self.new ≡ record self.old { broken = Some (broken_at number rule) } }
    {
        self.broken = Some(Broken { number, rule });
    }
}
