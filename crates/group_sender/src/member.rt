//! A receiver's place in a group.
ghost use Rattle.std.specs.Prelude.{◌≡◌, ◌^◌, ◌<◌, ◌≤◌, ◌+◌, ℕ, true, false, Some, is_some};
ghost use Rattle.h263_types.specs.Clocks.{half_of};
ghost use Rattle.h263_types.specs.Params.{IsParams};
ghost use Rattle.call_model.specs.Coding.{Rules};
ghost use Rattle.call_model.specs.Sending.{known_by_feedback, made_known};
ghost use Rattle.reference_selector.specs.Messages.{message_of};
ghost use Rattle.group_sender.specs.Parties.{Party, may_go_by, nobody, party_after_saying};
ghost use Rattle.group_sender.specs.Parties.{party_joined, party_left};

use back_messages::Message;
use call_model::laws as call_model_laws;
use h263_types::Params;
use reference_selector::Selector;

/// A place of a group, whether a receiver is there or not. It is told of each picture that is
/// coded.
#[derive(Drop)]
pub struct Member {
    present: bool,
    // How many pictures were coded when the receiver joined last.
    since: u32,
    // What was said from this place, also by receivers that have left: of that only what is about
    // pictures from `since` on counts.
    selector: Selector,
}

impl Member {
    ghost use Rattle.group_sender.specs.Standing.{MemberStands};

    /// Nobody is there.
    pub fn start(params: &Params) -> Member
        requires { IsParams params.now }
        ensures { (rules : Rules) → rules.slots ≡ params.now.slots → rules.lead ≡ params.now.lead
            → rules.half ≡ half_of params.now.clock → rules.chain ≡ 131
            → MemberStands rules result 0 nobody }
    {
        Member {
            present: false,
            since: 0,
            selector: Selector::start(params),
        }
    }

    /// Whether a receiver is there.
    pub fn is_present(&self) -> bool
        ensures { result ≡ self.now.present }
    {
        self.present
    }

    /// A receiver joins, where `sent` pictures were coded.
    pub fn join(&mut self, sent: u32)
        ensures { (rules : Rules) (party : Party) → MemberStands rules self.old sent party
            → MemberStands rules self.new sent (party_joined sent) }
    {
        self.present = true;
        self.since = sent;
    }

    /// The receiver leaves.
    pub fn leave(&mut self)
        ensures { (rules : Rules) (sent : ℕ) (party : Party) → MemberStands rules self.old sent party
            → MemberStands rules self.new sent (party_left party) }
    {
        self.present = false;
    }

    /// Takes a message of the receiver that is there, as a selector does.
    pub fn note(&mut self, message: &Message, sent: u32) -> bool
        requires small { sent < 2 ^ 30 }
        requires present { self.old.present ≡ true }
        ensures answer { (rules : Rules) (party : Party) → MemberStands rules self.old sent party
            → result ≡ is_some (made_known rules sent (message_of message.now)) }
        ensures old { result ≡ false → self.new ≡ self.old }
        ensures said { (rules : Rules) (party : Party) → MemberStands rules self.old sent party
            → MemberStands rules self.new sent (party_after_saying
            (known_by_feedback rules sent (Some (message_of message.now))) party) }
    {
        self.selector.note(message, sent)
    }

    /// Picture `number` was coded.
    pub fn coded(&mut self, number: u32)
        ensures { (rules : Rules) (party : Party) → MemberStands rules self.old number party
            → MemberStands rules self.new (number + 1) party }
    {
        self.selector.coded(number, 0);
    }

    /// Whether the receiver is known to have this picture, of the last `slots` that were coded, or
    /// isn't there.
    pub fn may_go_by(&self, number: u32) -> bool
        ensures { (rules : Rules) (sent : ℕ) (party : Party) → MemberStands rules self.now sent party
            → number < sent → sent ≤ number + rules.slots → result ≡ may_go_by number party }
    {
        if !self.present {
            return true;
        }
        if number < self.since {
            return false;
        }
        self.selector.knows(number)
    }
}
