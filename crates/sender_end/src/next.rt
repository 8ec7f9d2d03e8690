//! The reference of the next picture.
ghost use Rattle.std.specs.Prelude.{◌≡◌, ◌+◌, ◌-◌, ◌^◌, ◌&&◌, ◌<◌, ◌≤◌, ℕ, Bool, Some, None, IfSome, nat_le, nat_lt, if◌then◌else◌};
ghost use Rattle.std.specs.Option.{option_map_or};
ghost use Rattle.reference_selector.specs.Stands.{SelectorStands};
ghost use Rattle.call_model.specs.Coding.{Rules};
ghost use Rattle.call_model.specs.CodedPictures.{reference_for};
ghost use Rattle.call_model.specs.Steering.{from_floor};
ghost use Rattle.sender_end.specs.Known.{count_below};
ghost use Rattle.sender_end.specs.Selecting.{IsSelecting, within_chain};

use call_model::laws as call_model_laws;
use reference_selector::Selector;

// The longest chain of predicted pictures, as a selector has it.
const CHAIN: u8 = 131;

/// The reference of the next picture, and its depth.
#[derive(Clone, Copy)]
pub struct Next {
    pub reference: Option<u32>,
    pub depth: u8,
}

// The reference, unless it is below the floor.
fn above(reference: Option<u32>, floor: u32) -> Option<u32>
    ensures { result ≡ from_floor floor reference }
{
    match reference {
        None => None,
        Some(m) => { if floor <= m { Some(m) } else { None } }
    }
}

/// The reference of picture `number`, the next one, by the pictures that are known, and its depth.
/// Pictures below the floor are no references.
pub fn next_from(pictures: &Selector, number: u32, floor: u32) -> Next
    requires { IsSelecting pictures.now number }
    ensures reference { (rules : Rules) (depth : ℕ → ℕ) (known : ℕ → Bool)
        → SelectorStands rules pictures.now number depth known
        → result.reference ≡ from_floor floor (reference_for rules depth known number) }
    ensures depth { (rules : Rules) (depth : ℕ → ℕ) (known : ℕ → Bool)
        → SelectorStands rules pictures.now number depth known
        → result.depth ≡ option_map_or (λ m. depth m + 1) result.reference 0 }
    ensures recent { (rules : Rules) (depth : ℕ → ℕ) (known : ℕ → Bool)
        → SelectorStands rules pictures.now number depth known
        → IfSome result.reference (λ m. (m < number) × (number ≤ m + rules.slots)) }
{
    call_model_laws::searches();
    match above(pictures.choose(number), floor) {
        None => Next {
            reference: None,
            depth: 0,
        },
        Some(m) => Next {
            reference: Some(m),
            depth: pictures.depth(m) + 1,
        },
    }
}

/// The reference that was given, of the last `slots` pictures before `number`, and the depth of that
/// picture. Without a reference, or where its chain may not grow, there is none.
pub fn next_given(pictures: &Selector, reference: Option<u32>, number: u32) -> Next
    requires selects { IsSelecting pictures.now number }
    requires recent { IfSome reference (λ m. (m < number) × (number ≤ m + pictures.now.slots)) }
    ensures reference { (rules : Rules) (depth : ℕ → ℕ) (known : ℕ → Bool)
        → SelectorStands rules pictures.now number depth known
        → result.reference ≡ within_chain rules depth reference }
    ensures depth { (rules : Rules) (depth : ℕ → ℕ) (known : ℕ → Bool)
        → SelectorStands rules pictures.now number depth known
        → result.depth ≡ option_map_or (λ m. depth m + 1) result.reference 0 }
    ensures recent { IfSome result.reference
        (λ m. (m < number) × (number ≤ m + pictures.now.slots)) }
{
    match reference {
        None => Next {
            reference: None,
            depth: 0,
        },
        Some(m) => below_limit(m, pictures.depth(m)),
    }
}

// The reference of this depth, unless its chain may not grow.
fn below_limit(m: u32, depth: u8) -> Next
    ensures reference { result.reference ≡ (if nat_lt depth 131 then Some m else None) }
    ensures depth { result.depth ≡ option_map_or (λ k. depth + 1) result.reference 0 }
{
    if depth >= CHAIN {
        return Next {
            reference: None,
            depth: 0,
        };
    }
    Next {
        reference: Some(m),
        depth: depth + 1,
    }
}

// Whether a picture that is among the last `slots` that were coded is known, and not below the
// floor.
fn counts(pictures: &Selector, number: u32, floor: u32) -> bool
    ensures { (rules : Rules) (sent : ℕ) (depth : ℕ → ℕ) (known : ℕ → Bool)
        → number < sent → sent ≤ number + rules.slots
        → SelectorStands rules pictures.now sent depth known
        → result ≡ (nat_le floor number && known number) }
{
    if number < floor {
        return false;
    }
    pictures.knows(number)
}

// A count, with one more if that counts.
fn counted(count: u32, more: bool) -> u32
    requires { count < 2 ^ 32 - 1 }
    ensures { result ≡ (if more then count + 1 else count) }
{
    if more { count + 1 } else { count }
}

/// How many pictures from `first` on are known, where `sent` were coded, without those below the
/// floor.
pub fn known_from(pictures: &Selector, first: u32, floor: u32, sent: u32) -> u32
    requires { first ≤ sent }
    ensures { (rules : Rules) (depth : ℕ → ℕ) (known : ℕ → Bool)
        → SelectorStands rules pictures.now sent depth known → sent ≤ first + rules.slots
        → result ≡ count_below sent (λ m. nat_le first m && (nat_le floor m && known m)) }
{
    let mut count = 0;
    'numbers: for number in first..sent {
        count = counted(count, counts(pictures, number, floor));
    }
    count
}
