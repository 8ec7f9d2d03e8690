//! What one line of a trace says.
ghost use Rattle.std.specs.Prelude.{◌≡◌, ◌<◌, ◌==◌, length, position, IfSome, MatchResult, Some, None};
ghost use Rattle.loss_trace.specs.Reading.{trace_number, event_with_place, packet_event, short_in, event_in};

/// One event of a call, or nothing. Pictures, the packets of each and the messages are numbered
/// from 0.
#[derive(Clone, Copy, Debug, PartialEq, Eq)]
pub enum Event {
    /// An empty line: nothing happens.
    Nothing,
    /// `S`: the next frame is coded and sent.
    Send,
    /// `D n.i`: the packet at this place of this picture arrives.
    Packet { number: u32, place: u32 },
    /// `D n.*`: all packets of this picture arrive in their order.
    All { number: u32 },
    /// `B k`: this message arrives at the sender.
    Back { message: u32 },
    /// `P`: the next picture is shown.
    Play,
}

/// The line says no event.
#[derive(Clone, Copy, Debug, PartialEq, Eq)]
pub struct BadLine;

// The most digits of a number.
const MOST_DIGITS: usize = 7;

// The number that 1 to 7 decimal digits write.
fn digits(bytes: &[u8]) -> Result<u32, BadLine>
    ensures { MatchResult result (λ n. trace_number bytes.now ≡ Some n) (λ _.
        trace_number bytes.now ≡ None) }
{
    if bytes.is_empty() || bytes.len() > MOST_DIGITS {
        return Err(BadLine);
    }
    let mut value = 0;
    for digit in bytes {
        if !digit.is_ascii_digit() {
            return Err(BadLine);
        }
        value = value * 10 + (*digit - b'0') as u32;
    }
    Ok(value)
}

// The place of the first full stop.
fn stop_in(bytes: &[u8]) -> Option<usize>
    ensures place { result ≡ position (λ b. b == 46) bytes.now }
    ensures within { IfSome result (λ stop. stop < length bytes.now) }
{
    bytes.iter().position(|b| *b == b'.')
}

// The event of a packet of this picture, or of all of them.
fn placed(number: u32, place: &[u8]) -> Result<Event, BadLine>
    ensures { MatchResult result (λ event. event_with_place place.now number ≡ Some event) (λ _.
        event_with_place place.now number ≡ None) }
{
    if place == b"*".as_slice() {
        return Ok(Event::All { number });
    }
    match digits(place) {
        Ok(place) => Ok(Event::Packet { number, place }),
        Err(bad) => Err(bad),
    }
}

// The event of a picture's number and a packet's place.
fn packet(bytes: &[u8]) -> Result<Event, BadLine>
    ensures { MatchResult result (λ event. packet_event bytes.now ≡ Some event) (λ _.
        packet_event bytes.now ≡ None) }
{
    let Some(stop) = stop_in(bytes) else {
        return Err(BadLine);
    };
    match digits(&bytes[..stop]) {
        Ok(number) => placed(number, &bytes[stop + 1..]),
        Err(bad) => Err(bad),
    }
}

// The event of a line without a number.
fn short(bytes: &[u8]) -> Result<Event, BadLine>
    ensures { MatchResult result (λ event. short_in bytes.now ≡ Some event) (λ _.
        short_in bytes.now ≡ None) }
{
    match bytes {
        b"" => Ok(Event::Nothing),
        b"S" => Ok(Event::Send),
        b"P" => Ok(Event::Play),
        _ => Err(BadLine),
    }
}

/// The event that a line says, without its newline.
pub fn line(bytes: &[u8]) -> Result<Event, BadLine>
    ensures { MatchResult result (λ event. event_in bytes.now ≡ Some event) (λ _.
        event_in bytes.now ≡ None) }
{
    if let Some(rest) = bytes.strip_prefix(b"D ".as_slice()) {
        return packet(rest);
    }
    if let Some(rest) = bytes.strip_prefix(b"B ".as_slice()) {
        return match digits(rest) {
            Ok(message) => Ok(Event::Back { message }),
            Err(bad) => Err(bad),
        };
    }
    short(bytes)
}
