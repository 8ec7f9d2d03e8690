//! The machine of a command over a log: each turn reads an entry, and hands it to the command.
ghost use Rattle.std.specs.Prelude.{◌≡◌};
ghost use Rattle.event_logs.specs.Entry.{entry_size};

use crate::LogCommand;
use call_report::Status;
use desk_program::{Begins, Turns, laws as desk_program_laws};
use event_logs::{Entry, LogFault, LogReader, laws as event_logs_laws};
use h263_outside::{Desk, laws as outside_laws};
use std::alloc::Global;

// The most bytes of an entry of the log.
const MAX_BYTES: usize = 65_535;

// The most plays of a log.
const MAX_PLAYS: u32 = 1_048_576;

// How many bytes an entry has.
fn len_of(entry: Entry) -> usize
    ensures { result ≡ entry_size entry }
{
    match entry {
        Entry::Packet { len } | Entry::Back { len } => len as usize,
        Entry::Play | Entry::Capture => 0,
    }
}

/// A command, the reader of its log, and room for an entry's bytes.
pub struct LogMachine<C> {
    command: C,
    reader: LogReader,
    buffer: Vec<u8>,
}

impl<C: LogCommand> Turns for LogMachine<C> {
    ghost use Rattle.std.specs.Prelude.{◌-◌, true, Some};
    ghost use Rattle.h263_outside.specs.declared.desk.Role.TheVariants.{Events};
    ghost use Rattle.log_command.specs.Log.{LogReady, LogStands, LogState, log_step};

    ghost State = { LogState C.State };

    ghost step = { log_step C.rules };

    ghost reads = { λ _. true };

    ghost stands = { LogStands C.stands };

    ghost more = { λ m. 16777216 - m.reader.entries };

    ghost ready = { LogReady C.rules.side C.ready };

    ghost reading = { λ _. Some Events };

    fn turn<D: Desk>(&mut self, desk: &mut D) -> Result<bool, Status> {
        desk_program_laws::turn_laws();
        event_logs_laws::cut_after();
        outside_laws::calls();
        let Some((at, entry)) = self.reader.next(desk, &mut self.buffer)? else {
            self.command.close(desk)?;
            return Ok(false);
        };
        let len = len_of(entry).min(self.buffer.len());
        let bytes = &self.buffer[..len];
        match entry {
            Entry::Packet { .. } => {
                self.command.packet(desk, bytes)?;
                Ok(true)
            }
            _ => {
                if self.command.plays() >= MAX_PLAYS {
                    let fault = LogFault::TooMany { at };
                    return Err(Status::LogRefused { fault });
                }
                self.command.other(desk, bytes)?;
                Ok(true)
            }
        }
    }
}

impl<C: LogCommand> Begins for LogMachine<C> {
    ghost use Rattle.std.specs.Prelude.{Some};
    ghost use Rattle.h263_outside.specs.declared.desk.Role.TheVariants.{Events};
    ghost use Rattle.log_command.specs.Log.{LogOpens, log_run};

    type Setup = C::Setup;

    type Machine = LogMachine<C>;

    ghost run = { λ setup. log_run C.rules (C.first setup) (C.head setup) };

    ghost opens = { λ setup. LogOpens (C.opens setup) };

    ghost source = { λ _. Some Events };

    fn start<D: Desk>(
        alloc: Global,
        setup: &C::Setup,
        desk: &mut D,
    ) -> Result<LogMachine<C>, Status> {
        desk_program_laws::turn_laws();
        desk_program_laws::run_laws::<LogMachine<C>>();
        let buffer = vec![in alloc; 0; MAX_BYTES]?;
        Ok(LogMachine {
            command: C::start(alloc, setup, desk)?,
            reader: LogReader::new(C::side()),
            buffer,
        })
    }

    fn finish(machine: LogMachine<C>) {
        let LogMachine {
            command,
            reader: _,
            buffer: _,
        } = machine;
        command.finish();
    }
}
