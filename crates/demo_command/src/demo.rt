//! The machine of a call on made input.
use crate::{DemoTerms, laws};
use call_command::tell_counts;
use call_report::Status;
use desk_program::{Begins, Turns, laws as desk_program_laws};
use h263_outside::Desk;
use make_input::TraceMaker;
use one_way::{Both, Network, laws as one_way_laws};
use std::alloc::Global;

/// The machine of a call on made input: what it was asked for, the lines of its trace that are
/// left, both ends, the network between them, and room for a frame. It must be finished.
pub struct Demo {
    pub(crate) terms: DemoTerms,
    pub(crate) lines: TraceMaker,
    pub(crate) both: Both,
    pub(crate) network: Network,
    pub(crate) frame: Vec<u8>,
}

impl Turns for Demo {
    ghost use Rattle.std.specs.Prelude.{None, length, true};
    ghost use Rattle.make_input.specs.Left.{lines_left};
    ghost use Rattle.demo_command.specs.Demo.{DemoState, demo_step};
    ghost use Rattle.demo_command.specs.Machine.{DemoReady, DemoStands};

    ghost State = { DemoState };

    ghost step = { demo_step };

    ghost reads = { λ _. true };

    ghost stands = { DemoStands };

    ghost more = { λ m. length (lines_left m.lines) };

    ghost ready = { DemoReady };

    ghost reading = { λ _. None };

    fn turn<D: Desk>(&mut self, desk: &mut D) -> Result<bool, Status> {
        desk_program_laws::turn_laws();
        one_way_laws::way_laws();
        one_way_laws::ends_agree();
        laws::made_laws();
        let Some(event) = self.lines.next() else {
            tell_counts(desk, &self.network, &self.both.sender, &self.both.receiver)?;
            return Ok(false);
        };
        self.take_line(event);
        Ok(true)
    }
}

impl Begins for Demo {
    ghost use Rattle.std.specs.Prelude.{None};
    ghost use Rattle.desk_program.specs.Run.{run_from};
    ghost use Rattle.demo_command.specs.Demo.{demo_begin, demo_step, made_turns};
    ghost use Rattle.demo_command.specs.Machine.{DemoOpens};

    type Setup = DemoTerms;

    type Machine = Demo;

    ghost run = { λ setup inputs. run_from (demo_begin setup inputs) demo_step (made_turns setup)
        inputs };

    ghost opens = { DemoOpens };

    ghost source = { λ _. None };

    fn start<D: Desk>(alloc: Global, setup: &DemoTerms, _: &mut D) -> Result<Demo, Status> {
        desk_program_laws::turn_laws();
        desk_program_laws::run_laws::<Demo>();
        one_way_laws::way_laws();
        let params = setup.params;
        let network = Network::start(alloc, &params, params.clock.period())?;
        let frame = vec![in alloc; 0; params.format.size() as usize]?;
        let both = Both::start(alloc, &params)?;
        Ok(Demo {
            terms: *setup,
            lines: TraceMaker::new(setup.seed, setup.frames),
            both,
            network,
            frame,
        })
    }

    fn finish(machine: Demo) {
        let Demo {
            terms: _,
            lines: _,
            both,
            network: _,
            frame: _,
        } = machine;
        both.finish();
    }
}
