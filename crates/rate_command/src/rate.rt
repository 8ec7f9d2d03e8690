//! The meter of a log.
use crate::parts::{put_text, tell, tell_last};
use call_report::Status;
use desk_program::laws as desk_program_laws;
use event_logs::Side;
use h263_outside::{Desk, laws as outside_laws};
use log_command::{LogCommand, LogMachine};
use rate_control::{Meter, totals_text};
use std::alloc::Global;

/// What the log is measured against.
#[derive(Clone, Copy)]
pub struct Bucket {
    /// How many bytes run out of the bucket in a picture's time, 1 to 999,999.
    pub target: u32,
    /// How many bytes it holds, 999,999 at most.
    pub bucket: u32,
}

/// The machine of the command.
pub type Rate = LogMachine<Metering>;

/// The meter, and how many plays there were.
pub struct Metering {
    meter: Meter,
    plays: u32,
}

impl LogCommand for Metering {
    ghost use Rattle.desk_program.specs.Texts.{no_texts};
    ghost use Rattle.rate_command.specs.Rate.{RateState, nothing_measured, rate_rules};
    ghost use Rattle.rate_command.specs.Rate.{RateStands, RateOpens, RateReady};

    type Setup = Bucket;

    ghost State = { RateState };

    ghost first = { nothing_measured };

    ghost head = { λ _. no_texts };

    ghost rules = { rate_rules };

    ghost stands = { RateStands };

    ghost played = { λ c. c.plays };

    ghost opens = { RateOpens };

    ghost ready = { RateReady };

    fn start<D: Desk>(_alloc: Global, setup: &Bucket, _desk: &mut D) -> Result<Metering, Status> {
        desk_program_laws::turn_laws();
        Ok(Metering {
            meter: Meter::new(setup.target, setup.bucket),
            plays: 0,
        })
    }

    fn side() -> Side {
        Side::Recv
    }

    // The line of the picture that ends before the packet, if one does.
    fn packet<D: Desk>(&mut self, desk: &mut D, bytes: &[u8]) -> Result<(), Status> {
        let metered = self.meter.packet(bytes);
        tell(desk, metered)
    }

    fn plays(&self) -> u32 {
        self.plays
    }

    fn other<D: Desk>(&mut self, _desk: &mut D, _bytes: &[u8]) -> Result<(), Status> {
        desk_program_laws::turn_laws();
        self.plays += 1;
        Ok(())
    }

    // The line of the last picture, if there is one, and that of the whole log.
    fn close<D: Desk>(&self, desk: &mut D) -> Result<(), Status> {
        outside_laws::calls();
        desk_program_laws::turn_laws();
        let totals = self.meter.close();
        tell_last(desk, totals.last)?;
        put_text(desk, &totals_text(&totals))
    }

    fn finish(self) {
        let Metering { meter: _, plays: _ } = self;
    }
}
