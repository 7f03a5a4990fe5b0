//! The errors that refuse a program.

ghost use Rattle.std.specs.Prelude.{◌≡◌, alloc_error};
ghost use Rattle.pcap_filter.specs.declared.errors.FilterError.TheVariants as errors;
ghost use Rattle.pcap_filter.specs.declared.errors.TextError.TheVariants as text_errors;

use std::alloc::{AllocError, AllocFailed};
use std::fmt;
use thiserror::Error;

/// A rule that a program must keep.
#[derive(Clone, Copy, Debug, PartialEq, Eq)]
pub enum Rule {
    /// A program has at least one instruction.
    Empty,
    /// A program has at most 4096 instructions.
    TooLong,
    /// The code of an instruction is the code of an operation.
    UnknownCode,
    /// A memory cell is one of the 16 cells.
    CellOutOfRange,
    /// A constant divisor is not 0.
    DivisionByZero,
    /// A constant shift is below 32.
    ShiftOutOfRange,
    /// A jump leads to an instruction of the program.
    JumpOutOfRange,
    /// The last instruction returns.
    ReturnMissing,
}

/// The error that refuses a program.
#[derive(Debug, Drop, Error)]
pub enum FilterError {
    /// An instruction breaks a rule, and no instruction before it does.
    Broken {
        /// The place of the instruction. The first one has place 0.
        place: usize,
        /// The rule that the instruction breaks.
        rule: Rule,
    },
    /// Memory ran out.
    OutOfMemory(AllocError),
}

impl fmt::Display for Rule {
    fn fmt<W: fmt::Write>(&self, f: &mut fmt::Formatter<W>) -> fmt::Result {
        f.write_str(match self {
            Rule::Empty => "a program has an instruction",
            Rule::TooLong => "a program has at most 4096 instructions",
            Rule::UnknownCode => "the code is that of no instruction",
            Rule::CellOutOfRange => "the memory has 16 cells",
            Rule::DivisionByZero => "a constant divisor is not 0",
            Rule::ShiftOutOfRange => "a constant shift is below 32",
            Rule::JumpOutOfRange => "a jump leads to an instruction of the program",
            Rule::ReturnMissing => "the last instruction returns",
        })
    }
}

impl fmt::Display for FilterError {
    fn fmt<W: fmt::Write>(&self, f: &mut fmt::Formatter<W>) -> fmt::Result {
        match self {
            FilterError::Broken { place, rule } => write!(f, "instruction {place}: {rule}"),
            FilterError::OutOfMemory(_) => f.write_str("Out of memory"),
        }
    }
}

impl From<AllocError> for FilterError {
    ghost from_gives = { λ e r. r ≡ errors.OutOfMemory e };

    fn from(error: AllocError) -> FilterError {
        FilterError::OutOfMemory(error)
    }
}

impl<T: Drop> From<AllocFailed<T>> for FilterError {
    ghost from_gives = { λ _ r. r ≡ errors.OutOfMemory alloc_error };

    fn from(_error: AllocFailed<T>) -> FilterError {
        FilterError::OutOfMemory(AllocError)
    }
}

/// A rule that the text of a program must keep.
#[derive(Clone, Copy, Debug, PartialEq, Eq)]
pub enum TextRule {
    /// The first line is a number.
    NoCount,
    /// Each further line is four numbers, separated by single spaces.
    NoInstruction,
    /// The first line is the number of the lines that follow.
    OtherCount,
}

/// The error that refuses the text of a program.
#[derive(Debug, Drop, Error)]
pub enum TextError {
    /// A line breaks a rule.
    Broken {
        /// The number of the line. The first line has number 1.
        line: usize,
        /// The rule that the line breaks.
        rule: TextRule,
    },
    /// Memory ran out.
    OutOfMemory(AllocError),
}

impl fmt::Display for TextRule {
    fn fmt<W: fmt::Write>(&self, f: &mut fmt::Formatter<W>) -> fmt::Result {
        f.write_str(match self {
            TextRule::NoCount => "the first line is the number of instructions",
            TextRule::NoInstruction => "an instruction is four numbers, its code, jt, jf and k",
            TextRule::OtherCount => "the first line is the number of instructions that follow",
        })
    }
}

impl fmt::Display for TextError {
    fn fmt<W: fmt::Write>(&self, f: &mut fmt::Formatter<W>) -> fmt::Result {
        match self {
            TextError::Broken { line, rule } => write!(f, "line {line}: {rule}"),
            TextError::OutOfMemory(_) => f.write_str("Out of memory"),
        }
    }
}

impl From<AllocError> for TextError {
    ghost from_gives = { λ e r. r ≡ text_errors.OutOfMemory e };

    fn from(error: AllocError) -> TextError {
        TextError::OutOfMemory(error)
    }
}

impl<T: Drop> From<AllocFailed<T>> for TextError {
    ghost from_gives = { λ _ r. r ≡ text_errors.OutOfMemory alloc_error };

    fn from(_error: AllocFailed<T>) -> TextError {
        TextError::OutOfMemory(AllocError)
    }
}
