//! The places of a group.
ghost use Rattle.std.specs.Prelude.{◌≡◌, ◌^◌, ◌<◌, ◌≤◌, ◌+◌, ◌&&◌, ℕ, Bool, true, nat_le, Some, None, IfOk, IfSome, is_some, List, length, if◌then◌else◌};
ghost use Rattle.h263_types.specs.Clocks.{half_of};
ghost use Rattle.h263_types.specs.Params.{IsParams};
ghost use Rattle.call_model.specs.Coding.{Rules, window as window_of};
ghost use Rattle.call_model.specs.Numbers.{greatest};
ghost use Rattle.call_model.specs.Sending.{known_by_feedback, made_known};
ghost use Rattle.reference_selector.specs.Messages.{message_of};
ghost use Rattle.group_sender.specs.Parties.{Party, all_have, nobodies, party_after_saying, party_at};
ghost use Rattle.group_sender.specs.Parties.{party_joined, party_left, with_party_at};
ghost use Rattle.group_sender.specs.Standing.{MembersStand};

use crate::member::Member;
use back_messages::Message;
use call_model::laws as call_model_laws;
use h263_types::{OutOfMemory, Params};
use std::alloc::Global;

/// A receiver joins at place `k`, where `sent` pictures were coded.
pub fn join_at(members: &mut [Member], k: usize, sent: u32)
    requires { k < length members.old }
    ensures count { length members.new ≡ length members.old }
    ensures stands { (rules : Rules) (parties : List Party) → MembersStand rules members.old sent parties
        → MembersStand rules members.new sent (with_party_at k (party_joined sent) parties) }
{
    let member = &mut members[k];
    member.join(sent);
}

/// The receiver at place `k` leaves.
pub fn leave_at(members: &mut [Member], k: usize)
    requires { k < length members.old }
    ensures count { length members.new ≡ length members.old }
    ensures stands { (rules : Rules) (sent : ℕ) (parties : List Party)
        → MembersStand rules members.old sent parties
        → MembersStand rules members.new sent (with_party_at k (party_left (party_at parties k)) parties) }
{
    let member = &mut members[k];
    member.leave();
}

/// Each place is told that picture `number` was coded.
pub fn tell_coded(members: &mut [Member], number: u32)
    ensures count { length members.new ≡ length members.old }
    ensures stands { (rules : Rules) (parties : List Party) → MembersStand rules members.old number parties
        → MembersStand rules members.new (number + 1) parties }
{
    'places: for k in 0..members.len() {
        let member = &mut members[k];
        member.coded(number);
    }
}

/// Whether each receiver that is there is known to have this picture, of the last `slots` that were
/// coded.
pub fn all_have_it(members: &[Member], number: u32) -> bool
    ensures { (rules : Rules) (sent : ℕ) (parties : List Party)
        → MembersStand rules members.now sent parties → number < sent → sent ≤ number + rules.slots
        → result ≡ all_have parties number }
{
    'places: for k in 0..members.len() {
        let member = &members[k];
        if !member.may_go_by(number) {
            return false;
        }
    }
    true
}

/// 16 places, and nobody is there.
pub fn places(alloc: Global, params: &Params) -> Result<Vec<Member>, OutOfMemory>
    requires { IsParams params.now }
    ensures count { IfOk result (λ members. length members.items ≡ 16) }
    ensures stands { IfOk result (λ members. (rules : Rules) → rules.slots ≡ params.now.slots
        → rules.lead ≡ params.now.lead → rules.half ≡ half_of params.now.clock
        → rules.chain ≡ 131 → MembersStand rules members.items 0 nobodies) }
{
    let mut members = Vec::with_capacity(alloc, 16)?;
    'places: for k in 0..16_usize {
        members.push_reserved(Member::start(params));
    }
    Ok(members)
}

/// Takes a message of the receiver at place `k`, as a selector does. `None` where nobody is there.
pub fn note_at(members: &mut [Member], k: usize, message: &Message, sent: u32) -> Option<bool>
    requires place { k < length members.old }
    requires small { sent < 2 ^ 30 }
    ensures count { length members.new ≡ length members.old }
    ensures same { (result ≡ Some true → ⊥) → members.new ≡ members.old }
    ensures answer { (rules : Rules) (parties : List Party) → MembersStand rules members.old sent parties
        → result ≡ (if (party_at parties k).present
        then Some (is_some (made_known rules sent (message_of message.now))) else None) }
    ensures stands { (rules : Rules) (parties : List Party) → MembersStand rules members.old sent parties
        → MembersStand rules members.new sent (with_party_at k (party_after_saying
        (known_by_feedback rules sent (Some (message_of message.now))) (party_at parties k)) parties) }
{
    let member = &mut members[k];
    if !member.is_present() {
        return None;
    }
    Some(member.note(message, sent))
}

/// The newest picture of the last `window` before `sent` that each receiver that is there is known
/// to have.
pub fn newest_for_all(members: &[Member], sent: u32, window: u32) -> Option<u32>
    ensures recent { IfSome result (λ m. (m < sent) × (sent ≤ m + window)) }
    ensures value { (rules : Rules) (parties : List Party) → MembersStand rules members.now sent parties
        → window ≡ window_of rules → window_of rules ≤ rules.slots
        → result ≡ greatest (λ m. all_have parties m && nat_le sent (m + window_of rules)) sent }
{
    call_model_laws::searches();
    'back: for back in 0..window {
        if sent <= back {
            return None;
        }
        let m = sent - back - 1;
        if all_have_it(members, m) {
            return Some(m);
        }
    }
    None
}
