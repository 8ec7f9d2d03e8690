//! Which pictures the other end is known to have, and which of them a picture may refer to (H.263,
//! Annex N).
//!
//! A [`Selector`] is told what was coded and what the other end says, and chooses the reference of
//! the next picture.
//!
//! ```rust
//! // at a depth of 131 the chain of predicted pictures is as long as it may be
//! for (depth, reference) in [(130, Some(0)), (131, None)] {
//!     selector.coded(0, depth);
//!     assert_eq!(rt; selector.note(&Message::Ack { tr: 0, marks: None }, 1), true);
//!     assert_eq!(rt; selector.choose(1), reference);
//! }
//! ```
#![tactic(auto)]

ghost use Rattle.std.specs.Prelude.{◌≡◌, ◌≤◌, ◌<◌, ◌+◌, ◌++◌, ◌^◌, ℕ, Bool, false, ◌||◌, nat_eq, nat_lt, is_some, Some, IfSome, List, [], ◌∷◌, filter};
ghost use Rattle.std.specs.Option.{option_map, option_map_or};
ghost use Rattle.h263_types.specs.Clocks.{half_of};
ghost use Rattle.h263_types.specs.Params.{IsParams};
ghost use Rattle.back_messages.specs.Text.{IsMessage};
ghost use Rattle.call_model.specs.Coding.{Rules};
ghost use Rattle.call_model.specs.Numbers.{flagged_after};
ghost use Rattle.call_model.specs.CodedPictures.{is_among, reference_for};
ghost use Rattle.call_model.specs.Sending.{nearest_below, made_known, called_complete, known_by_feedback, number_of, message_flags};
ghost use Rattle.reference_selector.specs.Messages.{message_of, flags_in, is_flagged, is_named};

use back_messages::Message;
use call_model::laws as call_model_laws;
use h263_types::{Clock, Params};

// The longest chain of predicted pictures: within 132 coded pictures each macroblock is coded intra
// (H.263, 4.4).
const CHAIN: u8 = 131;

/// The pictures coded last, each at its number modulo `slots`: their depths, and which of them are
/// known to be complete at the other end.
#[derive(Drop)]
pub struct Selector {
    slots: u32,
    lead: u32,
    clock: Clock,
    depths: [u8; 64],
    known: [bool; 64],
    ghost room: { lead + 2 ≤ slots },
    ghost few: { slots ≤ 64 },
}

/// The nearest number below `n` with this temporal reference, if there is one.
pub fn nearest_below(n: u32, reference: u16, clock: Clock) -> Option<u32>
    requires { n < 2 ^ 31 }
    ensures below { IfSome result (λ m. m < n) }
    ensures value { (rules : Rules)
        → rules.half ≡ half_of clock → result ≡ nearest_below rules n reference }
{
    let period = clock.period();
    let first = n + (u32::from(reference) + (period - n % period)) % period;
    if first < period {
        None
    } else {
        Some(first - period)
    }
}

// The temporal reference of the picture that a message is about.
fn reference_in(message: &Message) -> u16
    ensures { result ≡ number_of (message_of message.now) }
{
    match *message {
        Message::Ack { tr, marks: _ } => tr,
        Message::Nack {
            tr,
            rtr: _,
            marks: _,
        } => tr,
    }
}

// The picture that a message is about, unless the message is old.
fn number_about(message: &Message, sent: u32, clock: Clock) -> Option<u32>
    requires { sent < 2 ^ 30 }
    ensures below { IfSome result (λ t. t < sent) }
    ensures value { (rules : Rules) → rules.half ≡ half_of clock
        → option_map (λ t. called_complete rules sent t (message_of message.now) ++ filter
        (λ q. nat_lt q sent) (flagged_after t (message_flags (message_of message.now)))) result
        ≡ made_known rules sent (message_of message.now) }
{
    let t = nearest_below(sent, reference_in(message), clock)?;
    if t + clock.half() <= sent {
        return None;
    }
    Some(t)
}

// The number that a message about t calls complete, if it calls one so that was sent.
fn number_called(message: &Message, t: u32, sent: u32, clock: Clock) -> Option<u32>
    requires below { t < sent }
    requires small { sent < 2 ^ 30 }
    ensures below { IfSome result (λ q. q < sent) }
    ensures value { (rules : Rules) → rules.half ≡ half_of clock → option_map_or
        (λ q. q ∷ []) result [] ≡ called_complete rules sent t (message_of message.now) }
{
    match *message {
        Message::Ack { tr: _, marks: _ } => Some(t),
        Message::Nack { tr, rtr, marks: _ } => {
            if tr == rtr {
                return None;
            }
            let q = nearest_below(t + clock.half(), rtr, clock)?;
            if q < sent { Some(q) } else { None }
        }
    }
}

// Whether flag j of the marks is set.
fn has_flag(marks: u16, j: u32) -> bool
    requires { j < 14 }
    ensures { result ≡ is_flagged marks (j + 1) }
{
    (marks >> j) % 2 == 1
}

impl Selector {
    ghost use Rattle.reference_selector.specs.Stands.{SelectorStands};

    /// No picture was coded.
    pub fn start(params: &Params) -> Selector
        requires { IsParams params.now }
        ensures { (rules : Rules) (depth : ℕ → ℕ) (known : ℕ → Bool)
            → rules.slots ≡ params.now.slots → rules.lead ≡ params.now.lead → rules.half
            ≡ half_of params.now.clock → rules.chain ≡ 131 → SelectorStands rules result 0 depth known }
    {
        Selector {
            slots: params.slots,
            lead: params.lead,
            clock: params.clock,
            depths: [0; 64],
            known: [false; 64],
        }
    }

    /// The next picture was coded, and has this depth: 0 if it refers to none, else one more than
    /// its reference.
    pub fn coded(&mut self, number: u32, depth: u8)
        ensures { (rules : Rules) (depths : ℕ → ℕ) (known : ℕ → Bool) → depths number ≡ depth
            → known number ≡ false → SelectorStands rules self.old number depths known
            → SelectorStands rules self.new (number + 1) depths known }
    {
        call_model_laws::one_in_a_period();
        let at = (number % self.slots) as usize;
        self.depths[at] = depth;
        self.known[at] = false;
    }

    // A number below `sent` is known.
    fn mark(&mut self, number: u32, sent: u32)
        requires below { number < sent }
        requires small { sent < 2 ^ 31 }
        ensures clock { self.new.clock ≡ self.old.clock }
        ensures known { (rules : Rules) (depth : ℕ → ℕ) (known : ℕ → Bool) → SelectorStands rules self.old
            sent depth known → SelectorStands rules self.new sent depth (λ m. nat_eq number m || known m) }
    {
        call_model_laws::one_in_a_period();
        if sent <= number + self.slots {
            let at = (number % self.slots) as usize;
            self.known[at] = true;
        }
    }

    // The number that a message about t calls complete is known, if it was sent.
    fn mark_called(&mut self, message: &Message, t: u32, sent: u32)
        requires below { t < sent }
        requires small { sent < 2 ^ 30 }
        ensures clock { self.new.clock ≡ self.old.clock }
        ensures known { (rules : Rules) (depth : ℕ → ℕ) (known : ℕ → Bool)
            → SelectorStands rules self.old sent depth known → SelectorStands rules self.new sent depth (λ m.
            is_among (called_complete rules sent t (message_of message.now)) m || known m) }
    {
        if let Some(q) = number_called(message, t, sent, self.clock) {
            self.mark(q, sent);
        }
    }

    // Number t + j + 1 is known where it was sent and its flag is set.
    fn mark_next(&mut self, t: u32, j: u32, marks: u16, sent: u32)
        requires below { t < sent }
        requires small { sent < 2 ^ 30 }
        requires j { j < 14 }
        ensures clock { self.new.clock ≡ self.old.clock }
        ensures known { (rules : Rules) (depth : ℕ → ℕ) (known : ℕ → Bool) → SelectorStands rules self.old
            sent depth (λ m. is_named t sent (is_flagged marks) j m || known m) → SelectorStands rules
            self.new sent depth (λ m. is_named t sent (is_flagged marks) (j + 1) m || known m) }
    {
        let number = t + 1 + j;
        if number >= sent {
            return;
        }
        if !has_flag(marks, j) {
            return;
        }
        self.mark(number, sent);
    }

    // Those of the 14 numbers after t are known whose flags are set and that were sent.
    fn mark_flagged(&mut self, t: u32, marks: u16, sent: u32)
        requires below { t < sent }
        requires small { sent < 2 ^ 30 }
        ensures clock { self.new.clock ≡ self.old.clock }
        ensures known { (rules : Rules) (depth : ℕ → ℕ) (known : ℕ → Bool) →
            SelectorStands rules self.old sent depth known → SelectorStands rules self.new sent depth (λ m. is_among
            (filter (λ q. nat_lt q sent) (flagged_after t (flags_in (Some marks)))) m || known m) }
    {
        for j in 0..14 {
            self.mark_next(t, j, marks, sent);
        }
    }

    /// Takes a message, whose numbers are those of the clock, where `sent` pictures were coded.
    /// False where it is old: then nothing changes.
    pub fn note(&mut self, message: &Message, sent: u32) -> bool
        requires { sent < 2 ^ 30 }
        ensures answer { (rules : Rules) → rules.half ≡ half_of self.old.clock
            → result ≡ is_some (made_known rules sent (message_of message.now)) }
        ensures known { (rules : Rules) (depth : ℕ → ℕ) (known : ℕ → Bool)
            → SelectorStands rules self.old sent depth known → SelectorStands rules self.new sent depth (λ m.
            is_among (known_by_feedback rules sent (Some (message_of message.now))) m || known m) }
        ensures old { result ≡ false → self.new ≡ self.old }
    {
        let Some(t) = number_about(message, sent, self.clock) else {
            return false;
        };
        self.mark_called(message, t, sent);
        if let Some(marks) = message.marks() {
            self.mark_flagged(t, marks, sent);
        }
        true
    }

    /// The reference of the next picture: the newest known one in the window of `slots - lead - 1`
    /// numbers, unless there is none or its chain may not grow.
    pub fn choose(&self, number: u32) -> Option<u32>
        ensures { (rules : Rules) (depth : ℕ → ℕ) (known : ℕ → Bool) → SelectorStands
            rules self.now number depth known → result ≡ reference_for rules depth known number }
    {
        let window = self.slots - self.lead - 1;
        for back in 0..window {
            if number <= back {
                return None;
            }
            let m = number - back - 1;
            let at = (m % self.slots) as usize;
            if self.known[at] {
                return if self.depths[at] < CHAIN {
                    Some(m)
                } else {
                    None
                };
            }
        }
        None
    }

    /// Whether a picture that is among the last `slots` that were coded is known.
    pub fn knows(&self, number: u32) -> bool
        ensures { (rules : Rules) (sent : ℕ) (depth : ℕ → ℕ) (known : ℕ → Bool)
            → number < sent → sent ≤ number + rules.slots
            → SelectorStands rules self.now sent depth known → result ≡ known number }
    {
        self.known[(number % self.slots) as usize]
    }

    /// The depth of a picture that is among the last `slots` that were coded.
    pub fn depth(&self, number: u32) -> u8
        ensures { (rules : Rules) (sent : ℕ) (depth : ℕ → ℕ) (known : ℕ → Bool)
            → number < sent → sent ≤ number + rules.slots
            → SelectorStands rules self.now sent depth known → result ≡ depth number }
    {
        self.depths[(number % self.slots) as usize]
    }
}
