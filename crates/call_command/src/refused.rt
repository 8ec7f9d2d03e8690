//! How the refusal of an event is told.
ghost use Rattle.std.specs.Prelude.{◌≡◌, OnOk, IfErr};
ghost use Rattle.call_command.specs.Refused.{IsNotRefused, IsRefusedWith, fault_on_line};

use call_report::Status;
use loss_trace::TraceFault;
use one_way::EventRefusal;

// The refusal of an event, with the line that says it.
fn fault_on_line(line: u32, refusal: EventRefusal) -> TraceFault
    ensures { result ≡ fault_on_line line refusal }
{
    match refusal {
        EventRefusal::NotSent => TraceFault::NotSent { line },
        EventRefusal::NotSaid => TraceFault::NotSaid { line },
        EventRefusal::Far { given, other } => TraceFault::Far { line, given, other },
        EventRefusal::PlayBeforeSend => TraceFault::PlayBeforeSend { line },
        EventRefusal::NoFrame => TraceFault::NoFrame { line },
    }
}

/// Goes on where the event that a line says is not refused; otherwise the run ends with the
/// refusal.
pub fn allow(line: u32, checked: Result<(), EventRefusal>) -> Result<(), Status>
    ensures ok { OnOk result (IsNotRefused checked) }
    ensures err { IfErr result (IsRefusedWith line checked) }
{
    match checked {
        Ok(()) => Ok(()),
        Err(refusal) => Err(Status::TraceRefused {
            fault: fault_on_line(line, refusal),
        }),
    }
}
