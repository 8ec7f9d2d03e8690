//! What an end of C has counted since its start or its reset.
ghost use Rattle.std.specs.Prelude.{◌≡◌, ◌≢◌};
ghost use Rattle.h263rps_c.specs.Refusals.{status_of};
ghost use Rattle.h263rps_c.specs.Slots.{for_kind, for_receiver, for_sender, never};
ghost use Rattle.h263rps_c.specs.Stays.{Stays};

use crate::counting::Statistics;
use crate::ends::EndKind;
use crate::handles::Slot;
use crate::refusals::{EndRefusal, OK};

// What an end of this kind has counted.
fn counted_by(slot: &mut Slot, kind: EndKind, statistics: &mut Statistics) -> u32
    ensures result { result ≡ status_of (for_kind kind slot.old.handle.inside) }
    ensures same { Stays slot.old slot.new }
    ensures untold { result ≢ 0 → statistics.new ≡ statistics.old }
    ensures told { result ≡ 0 → statistics.new ≡ slot.old.counted }
{
    if !slot.is_started() {
        return EndRefusal::NotStarted.number();
    }
    if !slot.handle.end_mut().is_of(kind) {
        return EndRefusal::OtherEnd.number();
    }
    *statistics = slot.counted;
    OK
}

/// What a receiver has counted.
#[unsafe(no_mangle)]
pub extern "C" fn h263rps_raw_receiver_statistics(
    slot: &mut Slot,
    statistics: &mut Statistics,
) -> u32
    ensures result { result ≡ status_of (for_receiver never slot.old.handle.inside) }
    ensures same { Stays slot.old slot.new }
    ensures untold { result ≢ 0 → statistics.new ≡ statistics.old }
    ensures told { result ≡ 0 → statistics.new ≡ slot.old.counted }
{
    counted_by(slot, EndKind::Receiver, statistics)
}

/// What a sender has counted.
#[unsafe(no_mangle)]
pub extern "C" fn h263rps_raw_sender_statistics(slot: &mut Slot, statistics: &mut Statistics) -> u32
    ensures result { result ≡ status_of (for_sender never slot.old.handle.inside) }
    ensures same { Stays slot.old slot.new }
    ensures untold { result ≢ 0 → statistics.new ≡ statistics.old }
    ensures told { result ≡ 0 → statistics.new ≡ slot.old.counted }
{
    counted_by(slot, EndKind::Sender, statistics)
}
