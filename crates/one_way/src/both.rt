//! Both ends of a way.
ghost use Rattle.std.specs.Prelude.{◌≡◌, [], IfOk};
ghost use Rattle.h263_types.specs.Params.{IsParams};
ghost use Rattle.sender_end.specs.Stands as sender_end;
ghost use Rattle.receiver_end.specs.State as receiver_end;
ghost use Rattle.one_way.specs.Both.{steady};

use h263_types::{FixedPace, OutOfMemory, Params};
use receiver_end::Receiver;
use sender_end::Sender;
use std::alloc::Global;

/// Both ends of a way. They must be finished.
pub struct Both {
    pub sender: Sender<FixedPace>,
    pub receiver: Receiver,
}

impl Both {
    /// Both before the first picture.
    pub fn start(alloc: Global, params: &Params) -> Result<Both, OutOfMemory>
        requires { IsParams params.now }
        ensures sender_params { IfOk result (λ both. both.sender.params ≡ params.now) }
        ensures receiver_params { IfOk result (λ both. both.receiver.params ≡ params.now) }
        ensures quant { IfOk result (λ both. both.sender.pace.quant ≡ params.now.quant) }
        ensures sent { IfOk result (λ both. both.sender.sent ≡ 0) }
        ensures played { IfOk result (λ both. both.receiver.played ≡ 0) }
        ensures sends { IfOk result (λ both.
            sender_end.PacedStands (steady params.now) both.sender []) }
        ensures receives { IfOk result (λ both. receiver_end.Stands both.receiver []) }
    {
        let pace = FixedPace {
            quant: params.quant,
        };
        let sender = Sender::start_without_recon(alloc, params, pace)?;
        match Receiver::start(alloc, params) {
            Ok(receiver) => Ok(Both { sender, receiver }),
            Err(_) => {
                sender.finish();
                Err(OutOfMemory)
            }
        }
    }

    /// Gives back what they hold.
    pub fn finish(self) {
        let Both { sender, receiver } = self;
        sender.finish();
        receiver.finish();
    }
}
