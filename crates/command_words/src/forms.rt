//! The forms of the commands: a first word, the names of the positional words in their order, and
//! the options.
ghost use Rattle.std.specs.Prelude.{◌≡◌, ◌≤◌, length, option_map};
ghost use Rattle.command_words.specs.Asked.{row_named};
ghost use Rattle.command_words.specs.Clap.{texts};
ghost use Rattle.command_words.specs.View.{form_row};

#[derive(Clone, Copy)]
pub(crate) enum Form {
    Call,
    Send,
    Recv,
    Demo,
    Rate,
    Audit,
    Duplex,
    Group,
}

static CALL_PLACES: [&str; 2] = ["in", "out"];

static CALL_OPTIONS: [&str; 9] = [
    "quant", "keep", "radius", "limit", "slots", "lead", "messages", "clock", "trace",
];

static SEND_PLACES: [&str; 3] = ["in", "log", "wire"];

static SEND_OPTIONS: [&str; 9] = [
    "quant", "keep", "radius", "limit", "slots", "lead", "clock", "target", "fit",
];

static RECV_PLACES: [&str; 3] = ["log", "out", "wire"];

static RECV_OPTIONS: [&str; 5] = ["format", "slots", "lead", "messages", "clock"];

static DEMO_PLACES: [&str; 2] = ["seed", "frames"];

static DEMO_OPTIONS: [&str; 9] = [
    "format", "quant", "keep", "radius", "limit", "slots", "lead", "messages", "clock",
];

static RATE_PLACES: [&str; 1] = ["log"];

static RATE_OPTIONS: [&str; 2] = ["target", "bucket"];

static AUDIT_PLACES: [&str; 1] = ["log"];

static AUDIT_OPTIONS: [&str; 4] = ["format", "slots", "lead", "clock"];

static DUPLEX_PLACES: [&str; 4] = ["in1", "in2", "out1", "out2"];

static GROUP_OPTIONS: [&str; 11] = [
    "quant", "keep", "radius", "limit", "slots", "lead", "messages", "clock", "trace", "out2",
    "out3",
];

static RECV_SWITCHES: [&str; 1] = ["join"];

static NO_SWITCHES: [&str; 0] = [];

impl Form {
    // The form of the command with this first word.
    pub(crate) fn named(first: &str) -> Option<Form>
        ensures { option_map form_row result ≡ row_named first.now }
    {
        match first {
            "call" => Some(Form::Call),
            "send" => Some(Form::Send),
            "recv" => Some(Form::Recv),
            "demo" => Some(Form::Demo),
            "rate" => Some(Form::Rate),
            "audit" => Some(Form::Audit),
            "duplex" => Some(Form::Duplex),
            "group" => Some(Form::Group),
            _ => None,
        }
    }

    pub(crate) fn places(self) -> &'static [&'static str]
        ensures value { texts result.now ≡ (form_row self).places }
        ensures few { length result.now ≤ 16 }
    {
        match self {
            Form::Call | Form::Group => CALL_PLACES.as_slice(),
            Form::Send => SEND_PLACES.as_slice(),
            Form::Recv => RECV_PLACES.as_slice(),
            Form::Demo => DEMO_PLACES.as_slice(),
            Form::Rate => RATE_PLACES.as_slice(),
            Form::Audit => AUDIT_PLACES.as_slice(),
            Form::Duplex => DUPLEX_PLACES.as_slice(),
        }
    }

    pub(crate) fn options(self) -> &'static [&'static str]
        ensures { texts result.now ≡ (form_row self).options.valued }
    {
        match self {
            Form::Call | Form::Duplex => CALL_OPTIONS.as_slice(),
            Form::Send => SEND_OPTIONS.as_slice(),
            Form::Recv => RECV_OPTIONS.as_slice(),
            Form::Demo => DEMO_OPTIONS.as_slice(),
            Form::Rate => RATE_OPTIONS.as_slice(),
            Form::Audit => AUDIT_OPTIONS.as_slice(),
            Form::Group => GROUP_OPTIONS.as_slice(),
        }
    }

    pub(crate) fn switches(self) -> &'static [&'static str]
        ensures { texts result.now ≡ (form_row self).options.switches }
    {
        match self {
            Form::Recv => RECV_SWITCHES.as_slice(),
            Form::Call | Form::Send => NO_SWITCHES.as_slice(),
            Form::Demo | Form::Rate | Form::Audit => NO_SWITCHES.as_slice(),
            Form::Duplex | Form::Group => NO_SWITCHES.as_slice(),
        }
    }
}
