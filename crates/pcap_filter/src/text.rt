//! Reads programs from text.

ghost use Rattle.std.specs.Prelude.{◌≡◌, ◌<◌, ◌==◌, ℕ, [], MatchOption, MatchResult};
ghost use Rattle.std.specs.List.{before_first, after_first};
ghost use Rattle.pcap_filter.specs.Texts.{AreLines, IsOtherLine, IsRefusedText, IsText, Reads, ReadsLine, ReadsWords};

use crate::errors::{TextError, TextRule};
use crate::program::Instruction;
use std::alloc::Global;

/// Reads a program as `tcpdump -ddd` prints it. The first line is the number of instructions. Each instruction has a further line with
/// its code, its `jt`, its `jf` and its `k`, in decimal, separated by single spaces.
///
/// Lines are numbered from 1. `Broken` names the first line that does not have this form. It names line 1 with `OtherCount` if another
/// number of lines follows. `OutOfMemory` if there is no memory for the instructions.
pub fn parse(alloc: Global, text: &str) -> Result<Vec<Instruction>, TextError>
    ensures { MatchResult result (λ program. IsText text.now program.items) (λ error. IsRefusedText text.now error) }
{
    let (first, rest) = cut(text, '\n');
    let Some(count) = number(first) else {
        return Err(broken(1, TextRule::NoCount));
    };
    let program = instructions(alloc, rest)?;
    if program.len() as u64 != u64::from(count) {
        return Err(broken(1, TextRule::OtherCount));
    }
    Ok(program)
}

fn broken(line: usize, rule: TextRule) -> TextError
    ensures { result ≡ TextError.Broken line rule }
{
    TextError::Broken { line, rule }
}

// Reads a word as a decimal number of at most 32 bits.
fn number(word: &str) -> Option<u32>
    ensures { MatchOption result ((n : ℕ) → ¬ (Reads 32 word.now n)) (λ n. Reads 32 word.now n) }
{
    word.parse::<u32>().ok()
}

// Reads a word as a decimal number of at most 16 bits.
fn short(word: &str) -> Option<u16>
    ensures { MatchOption result ((n : ℕ) → ¬ (Reads 16 word.now n)) (λ n. Reads 16 word.now n) }
{
    word.parse::<u16>().ok()
}

// Reads a word as a decimal number of at most 8 bits.
fn byte(word: &str) -> Option<u8>
    ensures { MatchOption result ((n : ℕ) → ¬ (Reads 8 word.now n)) (λ n. Reads 8 word.now n) }
{
    word.parse::<u8>().ok()
}

// Reads the instructions from the lines behind the first one.
fn instructions(alloc: Global, text: &str) -> Result<Vec<Instruction>, TextError>
    ensures { MatchResult result (λ program. AreLines text.now program.items []) (λ error. IsOtherLine text.now error) }
{
    let mut program = Vec::new(alloc);
    let mut rest = text;
    while !rest.is_empty() {
        let (line, behind) = cut(rest, '\n');
        match instruction(line) {
            Some(instruction) => program.push(instruction)?,
            None => {
                return Err(broken(program.len().saturating_add(2), TextRule::NoInstruction));
            }
        }
        rest = behind;
    }
    Ok(program)
}

// Returns the text before the first of these characters, and the text behind it.
fn cut(text: &str, end: char) -> (&str, &str)
    requires { end < 128 }
    ensures before { result.0.now ≡ before_first (λ b. b == end) text.now }
    ensures behind { result.1.now ≡ after_first (λ b. b == end) text.now }
{
    match text.split_once(end) {
        Some(parts) => parts,
        None => (text, ""),
    }
}

// Reads the instruction of a line.
fn instruction(line: &str) -> Option<Instruction>
    ensures { ReadsLine result line.now }
{
    let (code, rest) = cut(line, ' ');
    let (jt, rest) = cut(rest, ' ');
    let (jf, k) = cut(rest, ' ');
    instruction_of(code, jt, jf, k)
}

// Reads an instruction from four words.
fn instruction_of(code: &str, jt: &str, jf: &str, k: &str) -> Option<Instruction>
    ensures { ReadsWords result code.now jt.now jf.now k.now }
{
    let code = short(code)?;
    let jt = byte(jt)?;
    let jf = byte(jf)?;
    let k = number(k)?;
    Some(Instruction { code, jt, jf, k })
}
