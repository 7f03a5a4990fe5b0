//! Instructions as programs have them, and steps as filters keep them.

ghost use Rattle.std.specs.Prelude.{MatchResult};
ghost use Rattle.pcap_filter.specs.Programs.{Breaks, Means};

use crate::errors::Rule;
use crate::operation::{Kind, Operation};

/// The number of cells of the memory.
pub(crate) const CELLS: usize = 16;

/// The number of bits of a register. A constant shift must be below it.
const BITS: u32 = 32;

/// An instruction of a program: `struct bpf_insn` of libpcap, or a line of what `tcpdump -ddd` prints.
#[derive(Clone, Copy, Debug, PartialEq, Eq)]
pub struct Instruction {
    /// The code, which names the operation.
    pub code: u16,
    /// The number of instructions that a test skips if it holds.
    pub jt: u8,
    /// The number of instructions that a test skips if it does not hold.
    pub jf: u8,
    /// The number of the operation.
    pub k: u32,
}

/// An instruction whose operation is known.
#[derive(Clone, Copy, Debug)]
pub struct Step {
    /// The operation of the step.
    pub operation: Operation,
    /// The number of instructions that a test skips if it holds.
    pub jt: u8,
    /// The number of instructions that a test skips if it does not hold.
    pub jf: u8,
    /// The number of the operation.
    pub k: u32,
}

impl Instruction {
    // Returns the step that the instruction means if `behind` instructions follow it, or the rule that it breaks there.
    pub(crate) fn step(self, behind: usize) -> Result<Step, Rule>
        ensures { MatchResult result (λ step. Means self behind step) (λ rule. Breaks self behind rule) }
    {
        let Instruction { code, jt, jf, k } = self;
        let Some(operation) = Operation::from_code(code) else {
            return Err(Rule::UnknownCode);
        };
        let step = Step {
            operation,
            jt,
            jf,
            k,
        };
        match step.flaw(behind) {
            None => Ok(step),
            Some(rule) => Err(rule),
        }
    }
}

impl Step {
    ghost use Rattle.std.specs.Prelude.{MatchOption};
    ghost use Rattle.pcap_filter.specs.Programs.{IsFine, IsFlawed};

    // Returns the first rule that the step breaks if `behind` instructions follow it.
    fn flaw(self, behind: usize) -> Option<Rule>
        ensures { MatchOption result (IsFine self behind) (λ rule. IsFlawed self behind rule) }
    {
        let Step { jt, jf, k, .. } = self;
        match self.operation.kind() {
            Kind::Cell if k as usize >= CELLS => Some(Rule::CellOutOfRange),
            Kind::Divisor if k == 0 => Some(Rule::DivisionByZero),
            Kind::Shift if k >= BITS => Some(Rule::ShiftOutOfRange),
            Kind::Jump if k as usize >= behind => Some(Rule::JumpOutOfRange),
            Kind::Branch if jt as usize >= behind || jf as usize >= behind => Some(
                Rule::JumpOutOfRange,
            ),
            Kind::Jump | Kind::Branch | Kind::Return => None,
            _ if behind == 0 => Some(Rule::ReturnMissing),
            _ => None,
        }
    }
}
