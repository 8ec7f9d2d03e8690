//! The messages that wait for a picture header.
use back_messages::Message;

/// A message with the number of the picture that it is about.
#[derive(Clone, Copy, Debug)]
pub struct Carried {
    pub about: u32,
    pub message: Message,
}

/// The last four messages, at most, that were said since the load before.
#[derive(Clone, Copy)]
pub struct Carrier {
    waiting: [Option<Carried>; 4],
}

impl Carrier {
    ghost use Rattle.std.specs.Prelude.{◌≡◌, List, [], ◌∷◌, ◌++◌};
    ghost use Rattle.duplex_call.specs.declared.queue.Carried.{Carried};
    ghost use Rattle.duplex_call.specs.Waiting.{last_in_places, Waits};

    /// No message was said.
    pub fn new() -> Carrier
        ensures { Waits result [] }
    {
        Carrier {
            waiting: [None, None, None, None],
        }
    }

    /// One more message. Of more than four the oldest gives way.
    pub fn say(&mut self, said: Carried)
        ensures { (before : List Carried) → Waits self.old before
            → Waits self.new (before ++ said ∷ []) }
    {
        let [first, second, third, fourth] = self.waiting;
        self.waiting = if first.is_none() {
            [Some(said), None, None, None]
        } else if second.is_none() {
            [first, Some(said), None, None]
        } else if third.is_none() {
            [first, second, Some(said), None]
        } else if fourth.is_none() {
            [first, second, third, Some(said)]
        } else {
            [second, third, fourth, Some(said)]
        };
    }

    /// The messages for the next picture header, the oldest first.
    pub fn load(&mut self) -> [Option<Carried>; 4]
        ensures places { (before : List Carried) → Waits self.old before
            → result ≡ last_in_places before }
        ensures none { Waits self.new [] }
    {
        let waiting = self.waiting;
        self.waiting = [None, None, None, None];
        waiting
    }
}
