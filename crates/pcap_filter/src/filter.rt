//! Validates programs and runs them.

ghost use Rattle.pcap_filter.specs.Programs.{IsProgram, IsRefused, IsTaken};
ghost use Rattle.std.specs.Prelude.{◌≡◌, MatchResult, List};

use crate::errors::{FilterError, Rule};
use crate::machine::{Move, Registers, act};
use crate::program::{CELLS, Instruction, Step};
use std::alloc::Global;
use std::marker::Model;

/// The most instructions that a program may have.
const LONGEST: usize = 4096;

/// A validated program that can be run over any number of packets.
#[derive(Drop)]
pub struct Filter {
    steps: Vec<Step>,
}

impl Model for Filter {
    ghost use Rattle.std.specs.Prelude.{List};
    ghost use Rattle.pcap_filter.specs.Programs.{IsProgram};
    ghost use Rattle.pcap_filter.specs.declared.program.Step.{Step};

    ghost Value = { List Step };

    ghost view = { λ f. f.steps.items };

    ghost invariant = { λ f. IsProgram f.steps.items };
}

impl Filter {
    ghost use Rattle.pcap_filter.specs.Effects.{start};
    ghost use Rattle.pcap_filter.specs.Results.{result_of};
    ghost use Rattle.pcap_filter.specs.Runs.{Runs};

    /// Validates a program.
    ///
    /// `Broken` names the first instruction that breaks a rule, and the first rule that it breaks: `UnknownCode`, then a rule of its
    /// number, then a rule of where it leads. A program without instructions is `Broken` at 0 with `Empty`, and one with more than 4096
    /// is `Broken` at 4096 with `TooLong`. `OutOfMemory` if there is no memory for the program.
    pub fn new(alloc: Global, program: &[Instruction]) -> Result<Filter, FilterError>
        ensures { MatchResult result (λ filter. IsTaken program.now filter) (λ error. IsRefused program.now error) }
    {
        if program.is_empty() {
            return Err(FilterError::Broken {
                place: 0,
                rule: Rule::Empty,
            });
        }
        if program.len() > LONGEST {
            return Err(FilterError::Broken {
                place: LONGEST,
                rule: Rule::TooLong,
            });
        }
        let mut steps = Vec::with_capacity(alloc, program.len())?;
        for instruction in program {
            let place = steps.len();
            match instruction.step(program.len() - place - 1) {
                Ok(step) => steps.push(step)?,
                Err(rule) => return Err(FilterError::Broken { place, rule }),
            }
        }
        Ok(Filter { steps })
    }

    /// Returns how many bytes of a packet the program accepts, or 0 if it rejects the packet. This is the value that the program
    /// returns for these bytes and this original length. The program rejects the packet if it loads bytes that the packet does not
    /// have. It also does if it divides by the index register, or computes a remainder by it, while that register is 0.
    pub fn accepts(&self, packet: &[u8], length: u32) -> u32
        ensures run { Runs packet.now length self.now start result }
        ensures value { result ≡ result_of self.now packet.now length }
    {
        let steps = self.steps.as_slice();
        let mut registers = Registers {
            accumulator: 0,
            index: 0,
        };
        let mut cells = [0; CELLS];
        let mut place = 0;
        loop {
            match act(&steps[place], packet, length, &mut registers, &mut cells) {
                Move::On(over) => place += 1 + over,
                Move::End(value) => return value,
            }
        }
    }
}
