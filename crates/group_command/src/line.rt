//! Lines of a group's trace.
ghost use Rattle.std.specs.Prelude.{◌≡◌, MatchResult, None, Some, if◌then◌else◌};
ghost use Rattle.loss_trace.specs.Reading.{event_in};
ghost use Rattle.group_command.specs.Lines.{group_line, of_one};

use loss_trace::{BadLine, Event, line};

/// An event of one receiver.
#[derive(Clone, Copy, Debug, PartialEq, Eq)]
pub enum OwnEvent {
    /// `D n.i`: this packet of the picture reaches it.
    Packet { number: u32, place: u32 },
    /// `D n.*`: all packets of the picture do.
    All { number: u32 },
    /// `B k`: this message of its comes back.
    Back { message: u32 },
    /// `P`: it plays the next picture.
    Play,
}

/// An event of a group's call.
#[derive(Clone, Copy, Debug, PartialEq, Eq)]
pub enum GroupLine {
    /// An empty line: nothing happens.
    Quiet,
    /// `S`: the next frame is coded and sent, to all.
    ForAll,
    /// An event of the receiver at this place, from 0 on.
    Of { place: u32, event: OwnEvent },
}

// The event of the receiver at this place, where the rest of its line says one that a receiver has.
fn of_one(place: u32, rest: &[u8]) -> Result<GroupLine, BadLine>
    ensures { MatchResult result (λ said. of_one place (event_in rest.now) ≡ Some said)
        (λ _. of_one place (event_in rest.now) ≡ None) }
{
    let event = match line(rest)? {
        Event::Nothing | Event::Send => return Err(BadLine),
        Event::Packet { number, place } => OwnEvent::Packet { number, place },
        Event::All { number } => OwnEvent::All { number },
        Event::Back { message } => OwnEvent::Back { message },
        Event::Play => OwnEvent::Play,
    };
    Ok(GroupLine::Of { place, event })
}

// The same, where there is such a receiver.
fn of_one_if(there: bool, place: u32, rest: &[u8]) -> Result<GroupLine, BadLine>
    ensures { MatchResult result
        (λ said. (if there then of_one place (event_in rest.now) else None) ≡ Some said)
        (λ _. (if there then of_one place (event_in rest.now) else None) ≡ None) }
{
    if there {
        of_one(place, rest)
    } else {
        Err(BadLine)
    }
}

/// The event that a line says, without its newline, where there are 1 to 3 receivers.
pub fn group_line(count: u32, bytes: &[u8]) -> Result<GroupLine, BadLine>
    ensures { MatchResult result (λ said. group_line count bytes.now ≡ Some said)
        (λ _. group_line count bytes.now ≡ None) }
{
    if bytes == b"".as_slice() {
        return Ok(GroupLine::Quiet);
    }
    if bytes == b"S".as_slice() {
        return Ok(GroupLine::ForAll);
    }
    if let Some(rest) = bytes.strip_prefix(b"1 ".as_slice()) {
        return of_one(0, rest);
    }
    if let Some(rest) = bytes.strip_prefix(b"2 ".as_slice()) {
        return of_one_if(2 <= count, 1, rest);
    }
    if let Some(rest) = bytes.strip_prefix(b"3 ".as_slice()) {
        return of_one_if(3 <= count, 2, rest);
    }
    Err(BadLine)
}
