//! What a turn answers, as the second party's.
ghost use Rattle.std.specs.Prelude.{◌≡◌};
ghost use Rattle.duplex_command.specs.Exchange.{second_result, second_status};

use call_report::Status;

/// The status of the first party as that of the second: a refused video is the second one.
pub fn second_status(status: Status) -> Status
    ensures { result ≡ second_status status }
{
    match status {
        Status::VideoRefused { fault } => Status::Video2Refused { fault },
        same => same,
    }
}

/// The answer to a turn of the first party as that to one of the second.
pub fn second_result(answer: Result<bool, Status>) -> Result<bool, Status>
    ensures { result ≡ second_result answer }
{
    match answer {
        Ok(goes) => Ok(goes),
        Err(status) => Err(second_status(status)),
    }
}
