//! The audit of a log.
use call_report::Status;
use desk_program::{laws as desk_program_laws, put};
use event_logs::Side;
use h263_outside::{Desk, Role};
use h263_types::Params;
use log_command::{LogCommand, LogMachine};
use std::alloc::Global;
use stream_audit::verdict_text;

/// The machine of the command.
pub type Audit = LogMachine<Auditing>;

/// The audit.
pub struct Auditing {
    audit: stream_audit::Audit,
}

impl LogCommand for Auditing {
    ghost use Rattle.desk_program.specs.Texts.{no_texts};
    ghost use Rattle.audit_command.specs.Audit.{AuditState, nothing_sent, audit_rules};
    ghost use Rattle.audit_command.specs.Audit.{AuditStands, AuditOpens, AuditReady};

    type Setup = Params;

    ghost State = { AuditState };

    ghost first = { nothing_sent };

    ghost head = { λ _. no_texts };

    ghost rules = { audit_rules };

    ghost stands = { AuditStands };

    ghost played = { λ _. 0 };

    ghost opens = { AuditOpens };

    ghost ready = { AuditReady };

    fn side() -> Side {
        Side::Audit
    }

    fn start<D: Desk>(alloc: Global, setup: &Params, _desk: &mut D) -> Result<Auditing, Status> {
        desk_program_laws::turn_laws();
        Ok(Auditing {
            audit: stream_audit::Audit::start(alloc, setup)?,
        })
    }

    fn packet<D: Desk>(&mut self, _desk: &mut D, bytes: &[u8]) -> Result<(), Status> {
        desk_program_laws::turn_laws();
        self.audit.packet(bytes);
        Ok(())
    }

    // There are none.
    fn plays(&self) -> u32 {
        0
    }

    // A message that had arrived.
    fn other<D: Desk>(&mut self, _desk: &mut D, bytes: &[u8]) -> Result<(), Status> {
        desk_program_laws::turn_laws();
        self.audit.feedback(bytes);
        Ok(())
    }

    // The line of the verdict.
    fn close<D: Desk>(&self, desk: &mut D) -> Result<(), Status> {
        let verdict = self.audit.verdict();
        put(desk, Role::Report, verdict_text(&verdict).text())
    }

    fn finish(self) {
        let Auditing { audit: _ } = self;
    }
}
