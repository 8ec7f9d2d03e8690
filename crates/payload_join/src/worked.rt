//! Calls that are worked through, computed. What goes out is what an independent program gives.
#![tactic(auto, unfolding(crate::specs::Computing::whole_runs))]

ghost use Rattle.payload_join.specs.Worked.{RunsSo, follow_on, two_slices, header_of_63_bytes};
ghost use Rattle.payload_join.specs.Worked.{header_of_64_bytes, window_ends, closed_by_the_next};
ghost use Rattle.payload_join.specs.Worked.{extra_headers, sources_and_extension, copies};
ghost use Rattle.payload_join.specs.Worked.{cut_packet, start_code_across_packets, two_pictures};
ghost use Rattle.payload_join.specs.Worked.{out_of_order, slices_after_a_picture, no_end};

/// A picture in two packets, the second of which comes first.
pub fn follow_on()
    ensures { RunsSo follow_on }
{}

/// Two slices in one packet: the second goes out with a copy of the picture header.
pub fn two_slices()
    ensures { RunsSo two_slices }
{}

/// A picture header of 63 bytes is copied.
pub fn header_of_63_bytes()
    ensures { RunsSo header_of_63_bytes }
{}

/// A picture header of 64 bytes is not: the unit goes out as one packet.
pub fn header_of_64_bytes()
    ensures { RunsSo header_of_64_bytes }
{}

/// Both ends of the window, round 65,535 and below the first packet's number.
pub fn window_ends()
    ensures { RunsSo window_ends }
{}

/// A unit without a marker is closed by the beginning of the next one, which went out before.
pub fn closed_by_the_next()
    ensures { RunsSo closed_by_the_next }
{}

/// An extra header is copied for each part; without one PEBIT counts nothing. Then V's byte, the
/// payload header and the extra header are cut.
pub fn extra_headers()
    ensures { RunsSo extra_headers }
{}

/// Sources and an extension in the first packet, V's byte and an extra header in others; after the
/// marker two packets that belong to no unit.
pub fn sources_and_extension()
    ensures { RunsSo sources_and_extension }
{}

/// Copies with other bytes are answered Again. Of the second picture the last packet is missing.
pub fn copies()
    ensures { RunsSo copies }
{}

/// A cut packet comes before the whole one of its number, and is the one that counts.
pub fn cut_packet()
    ensures { RunsSo cut_packet }
{}

/// The zeros of a start code end one packet, and its last byte begins the next. After a refused
/// packet two belong to no unit.
pub fn start_code_across_packets()
    ensures { RunsSo start_code_across_packets }
{}

/// Two pictures, each in a packet of its own.
pub fn two_pictures()
    ensures { RunsSo two_pictures }
{}

/// Sixteen packets of four pictures in another order. Two pictures are never whole.
pub fn out_of_order()
    ensures { RunsSo out_of_order }
{}

/// Slices with an extra header, in a unit of their own, close the picture before them.
pub fn slices_after_a_picture()
    ensures { RunsSo slices_after_a_picture }
{}

/// Nearly the same packets, of which the last but one comes without the one that ends its unit.
pub fn no_end()
    ensures { RunsSo no_end }
{}
