//! The files of rows of the ends of a call, each by itself and joined by hand.
use crate::{
    audit_rows, call_rings_rows, duplex_call_rows, duplex_ends_rows, ends_rows, make_input_rows,
    rate_control_rows, reference_selector_rows, sender_end_rows,
};
use std::alloc::Global;
use test_fixtures::answer::{Answer, Asked};
use test_fixtures::rows::Answers;

/// A layer, and its file of rows.
#[derive(Clone, Copy)]
pub enum Ends {
    RateControl,
    ReferenceSelector,
    MakeInput,
    CallRings,
    DuplexCall,
    ReceiverEnd,
    SenderEnd,
    JoinedEnds,
    DuplexEnds,
    Audit,
}

/// All of them.
pub const ENDS: [Ends; 10] = [
    Ends::RateControl,
    Ends::ReferenceSelector,
    Ends::MakeInput,
    Ends::CallRings,
    Ends::DuplexCall,
    Ends::ReceiverEnd,
    Ends::SenderEnd,
    Ends::JoinedEnds,
    Ends::DuplexEnds,
    Ends::Audit,
];

impl Answers for Ends {
    fn file(&self) -> &'static str {
        match self {
            Ends::RateControl => "rate_control.rows",
            Ends::ReferenceSelector => "reference_selector.rows",
            Ends::MakeInput => "make_input.rows",
            Ends::CallRings => "call_rings.rows",
            Ends::DuplexCall => "duplex_call.rows",
            Ends::ReceiverEnd => "receiver_end.rows",
            Ends::SenderEnd => "sender_end.rows",
            Ends::JoinedEnds => "joined_ends.rows",
            Ends::DuplexEnds => "duplex_ends.rows",
            Ends::Audit => "audit.rows",
        }
    }

    fn answer(&self, alloc: Global, call: &str, asked: &mut Asked<'_>, answer: &mut Answer) {
        match self {
            Ends::RateControl => rate_control_rows::answer(call, asked, answer),
            Ends::ReferenceSelector => reference_selector_rows::answer(call, asked, answer),
            Ends::MakeInput => make_input_rows::answer(alloc, call, asked, answer),
            Ends::CallRings => call_rings_rows::answer(alloc, call, answer),
            Ends::DuplexCall => duplex_call_rows::answer(alloc, call, asked, answer),
            Ends::ReceiverEnd => ends_rows::answer(alloc, call, asked, answer),
            Ends::SenderEnd => sender_end_rows::answer(alloc, call, asked, answer),
            Ends::JoinedEnds => ends_rows::answer(alloc, call, asked, answer),
            Ends::DuplexEnds => duplex_ends_rows::answer(alloc, call, asked, answer),
            Ends::Audit => audit_rows::answer(alloc, call, asked, answer),
        }
    }
}
