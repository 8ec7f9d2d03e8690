//! Who holds a group back.
ghost use Rattle.std.specs.Prelude.{◌≡◌, ◌<◌, ◌≤◌, ◌+◌, ◌&&◌, ℕ, Bool, true, false, nat_le, not, is_some, List, length};
ghost use Rattle.std.specs.List.{position};
ghost use Rattle.call_model.specs.Coding.{Rules, window as window_of};
ghost use Rattle.call_model.specs.Numbers.{greatest};
ghost use Rattle.group_sender.specs.Parties.{Party, party_has};
ghost use Rattle.group_sender.specs.Running.{is_waited_for};
ghost use Rattle.group_sender.specs.Standing.{MemberStands, MembersStand};

use crate::member::Member;
use call_model::laws as call_model_laws;

// Whether the receiver that is there is known to have one of the last `window` pictures before `sent`.
fn has_one(member: &Member, sent: u32, window: u32) -> bool
    requires { member.now.present ≡ true }
    ensures { (rules : Rules) (party : Party) → MemberStands rules member.now sent party
        → window ≡ window_of rules → window_of rules ≤ rules.slots
        → result ≡ is_some (greatest (λ m. party_has party m && nat_le sent (m + window_of rules)) sent) }
{
    call_model_laws::searches();
    'back: for back in 0..window {
        if sent <= back {
            return false;
        }
        if member.may_go_by(sent - back - 1) {
            return true;
        }
    }
    false
}

// Whether the receiver is there, and isn't known to have any of these pictures.
fn is_late(member: &Member, sent: u32, window: u32) -> bool
    ensures { (rules : Rules) (party : Party) → MemberStands rules member.now sent party
        → window ≡ window_of rules → window_of rules ≤ rules.slots
        → result ≡ is_waited_for rules sent party }
{
    if !member.is_present() {
        return false;
    }
    !has_one(member, sent, window)
}

/// The first place whose receiver isn't known to have any of the last `window` pictures before `sent`.
pub fn first_late(members: &[Member], sent: u32, window: u32) -> Option<u32>
    requires { length members.now ≡ 16 }
    ensures { (rules : Rules) (parties : List Party) → MembersStand rules members.now sent parties
        → window ≡ window_of rules → window_of rules ≤ rules.slots
        → result ≡ position (is_waited_for rules sent) parties }
{
    'places: for k in 0..16_u32 {
        let member = &members[k as usize];
        if is_late(member, sent, window) {
            return Some(k);
        }
    }
    None
}
