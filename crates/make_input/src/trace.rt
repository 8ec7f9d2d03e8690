//! The trace of `demo`: which packets and messages are lost, or late, drawn from a seed.
ghost use Rattle.std.specs.Prelude.{◌≡◌, ◌<◌, ◌+◌, ◌^◌, ◌++◌};
ghost use Rattle.make_input.specs.Trace.{deliveries, one_or_none};

use loss_trace::Event;

/// Gives the lines of the trace of a seed, over this many frames.
#[derive(Clone, Copy)]
pub struct TraceMaker {
    // What the draws stand at.
    state: u64,
    // The next frame, and how many there are from it on.
    number: u32,
    frames: u32,
    // What is left of the present frame, in this order.
    first: Option<Event>,
    second: Option<Event>,
    play: Option<Event>,
    back: Option<Event>,
    // The play after the last frame.
    last: Option<Event>,
    ghost few: { number + frames < 2 ^ 32 },
}

// The two deliveries at most of a picture's packets, by a draw of 16.
fn deliveries(number: u32, drawn: u64) -> (Option<Event>, Option<Event>)
    ensures { one_or_none result.0 ++ one_or_none result.1 ≡ deliveries number drawn }
{
    let all = Event::All { number };
    let first = Event::Packet { number, place: 0 };
    let second = Event::Packet { number, place: 1 };
    match drawn {
        0 => (None, None),
        1 => (Some(all), Some(all)),
        2 => (Some(second), Some(first)),
        3 => (Some(first), None),
        _ => (Some(all), None),
    }
}

impl TraceMaker {
    ghost use Rattle.std.specs.Prelude.{◌≡◌, ◌<◌, MatchOption, None, [], ◌∷◌, ◌++◌};
    ghost use Rattle.loss_trace.specs.declared.event.Event.TheVariants.{Send};
    ghost use Rattle.make_input.specs.Trace.{after_plays, draw, made_trace, next_state};
    ghost use Rattle.make_input.specs.Trace.{one_or_none, plays};
    ghost use Rattle.make_input.specs.Left.{lines_left};

    /// The maker before the first line.
    pub fn new(seed: u32, frames: u32) -> TraceMaker
        ensures { lines_left result ≡ made_trace seed frames }
    {
        TraceMaker {
            state: seed as u64,
            number: 0,
            frames,
            first: None,
            second: None,
            play: None,
            back: None,
            last: if frames > 0 { Some(Event::Play) } else { None },
        }
    }

    /// The next line, None after the last.
    pub fn next(&mut self) -> Option<Event>
        ensures { MatchOption result
            ((lines_left self.old ≡ []) × (lines_left self.new ≡ []))
            (λ event. lines_left self.old ≡ event ∷ lines_left self.new) }
    {
        if let Some(event) = self.first.take() {
            return Some(event);
        }
        if let Some(event) = self.second.take() {
            return Some(event);
        }
        if let Some(event) = self.play.take() {
            return Some(event);
        }
        if let Some(event) = self.back.take() {
            return Some(event);
        }
        if self.frames > 0 {
            self.begin_frame();
            return Some(Event::Send);
        }
        self.last.take()
    }

    // Draws one of `k` numbers.
    fn draw(&mut self, k: u64) -> u64
        requires { 0 < k }
        ensures drawn { result ≡ draw (next_state self.old.state) k }
        ensures state { self.new ≡ record self.old { state = next_state self.old.state } }
    {
        self.state = self
            .state
            .wrapping_mul(6_364_136_223_846_793_005)
            .wrapping_add(1_442_695_040_888_963_407);
        (self.state >> 33) % k
    }

    // Begins the next frame, of which the capture is given at once.
    fn begin_frame(&mut self)
        requires some { 0 < self.old.frames }
        requires first { self.old.first ≡ None }
        requires second { self.old.second ≡ None }
        requires play { self.old.play ≡ None }
        requires back { self.old.back ≡ None }
        ensures { lines_left self.old ≡ Send ∷ lines_left self.new }
    {
        let number = self.number;
        let (first, second) = deliveries(number, self.draw(16));
        self.first = first;
        self.second = second;
        self.begin_play(number);
        self.number = number + 1;
        self.frames -= 1;
    }

    // The play of the picture before, if there is one, and perhaps its message.
    #[tactic(auto, using(crate::proofs::Lines::some_plays, crate::proofs::Lines::state_after_play))]
    fn begin_play(&mut self, number: u32)
        requires play { self.old.play ≡ None }
        requires back { self.old.back ≡ None }
        ensures state { self.new.state ≡ after_plays number self.old.state }
        ensures plays { one_or_none self.new.play ++ one_or_none self.new.back
            ≡ plays number self.old.state }
        ensures rest { (self.new.number ≡ self.old.number)
            × (self.new.frames ≡ self.old.frames)
            × (self.new.first ≡ self.old.first) × (self.new.second ≡ self.old.second)
            × (self.new.last ≡ self.old.last) }
    {
        if number == 0 {
            return;
        }
        self.play = Some(Event::Play);
        if self.draw(8) > 0 {
            self.back = Some(Event::Back {
                message: number - 1,
            });
        }
    }
}
