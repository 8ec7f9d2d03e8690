//! What ties the lines that are read to the texts that are spelled. Each law is the contract of a
//! function that does nothing.
ghost use Rattle.std.specs.Prelude.{◌≡◌, ◌<◌, ◌+◌, ◌++◌, ◌∷◌, ℕ, List, length, Some, None};
ghost use Rattle.loss_trace.specs.declared.event.Event.{Event};
ghost use Rattle.loss_trace.specs.declared.fault.TraceFault.TheVariants.{BadLine, TooMany};
ghost use Rattle.loss_trace.specs.Line.{IsLine};
ghost use Rattle.loss_trace.specs.Lines.{IsText};
ghost use Rattle.loss_trace.specs.Reading.{event_in};
ghost use Rattle.loss_trace.specs.Trace.{Say, IsTrace, IsBad, trace_events, trace_fault};

/// A line is read as an event exactly where it spells the event's parts.
pub fn exact_lines()
    ensures read { (line : List ℕ) (event : Event)
        → event_in line ≡ Some event → IsLine event line }
    ensures spelled { (line : List ℕ) (event : Event)
        → IsLine event line → event_in line ≡ Some event }
{}

/// Each text has lines, and has them in one way.
pub fn one_text()
    ensures some { (text : List ℕ) → (lines : List (List ℕ)) × IsText text lines }
    ensures one { (text : List ℕ) (lines others : List (List ℕ))
        → IsText text lines → IsText text others → lines ≡ others }
{}

/// A text made of lines that say events is read as these, without a fault.
pub fn a_trace_is_read()
    ensures fault { (text : List ℕ) (events : List Event)
        → IsTrace text events → trace_fault text ≡ None }
    ensures events { (text : List ℕ) (events : List Event)
        → IsTrace text events → trace_events text ≡ events }
{}

/// A text that is read without a fault is made of lines that say the events.
pub fn read_is_a_trace()
    ensures { (text : List ℕ) → trace_fault text ≡ None → IsTrace text (trace_events text) }
{}

/// The first line that says nothing is refused, and line 16,777,217 whatever it says; the events
/// before it are read.
pub fn first_fault()
    ensures bad { (text : List ℕ) (events : List Event)
        (before after : List (List ℕ)) (line : List ℕ) → IsText text (before ++ line ∷ after)
        → Say events before → length before < 16777216 → IsBad line
        → (trace_fault text ≡ Some (BadLine (length before + 1))) × (trace_events text ≡ events) }
    ensures many { (text : List ℕ) (events : List Event) (before after : List (List ℕ))
        (line : List ℕ) → IsText text (before ++ line ∷ after) → Say events before → length before
        ≡ 16777216 → (trace_fault text ≡ Some (TooMany 16777217)) × (trace_events text ≡ events) }
{}
