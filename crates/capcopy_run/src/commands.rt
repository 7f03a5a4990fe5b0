//! The words that the program knows, and the actions that they select.

ghost use Rattle.std.specs.Prelude.{◌≡◌, IfSome};
ghost use Rattle.std.specs.Io.KnownBytes.{Keeps};
ghost use Rattle.pcap_classic.specs.declared.run.copy.Under.{Under};
ghost use Rattle.pcap_program.specs.declared.exit.Exit.TheVariants as exits;
ghost use Rattle.capcopy_run.specs.BlockLines.{block_lines};
ghost use Rattle.capcopy_run.specs.Commands.{AsksFor};
ghost use Rattle.capcopy_run.specs.Copying.{CopiesUntil};
ghost use Rattle.pcap_program.specs.Exits.{IsMemoryExit, exit_of};
ghost use Rattle.capcopy_run.specs.Exits.{IsOfKnownWord};
ghost use Rattle.capcopy_run.specs.Listing.{ListsUntil};
ghost use Rattle.capcopy_run.specs.PacketLines.{packet_lines};
ghost use Rattle.capcopy_run.specs.Words.{texts_of, AskForList, AskForBlocks, AskForCopy, AskForNothing};

use crate::blocks::blocks;
use crate::copy::copy;
use crate::list::list_lines;
use pcap_file::run::Under;
use pcap_file::{Endianness, TsResolution};
use pcap_program::Exit;
use std::alloc::Global;
use std::io::{BufRead, Write};

// The action that the words select.
pub(crate) enum Command {
    List,
    Copy(Under),
    Blocks,
}

fn asked_for(words: &[&str]) -> Option<Command>
    ensures { AsksFor (texts_of words.now) result }
{
    let under = match words {
        ["list"] => return Some(Command::List),
        ["blocks"] => return Some(Command::Blocks),
        ["copy"] => Under::Same,
        ["copy", "big", "micro"] => Under::Order(Endianness::Big, TsResolution::MicroSecond),
        ["copy", "big", "nano"] => Under::Order(Endianness::Big, TsResolution::NanoSecond),
        ["copy", "little", "micro"] => Under::Order(Endianness::Little, TsResolution::MicroSecond),
        ["copy", "little", "nano"] => Under::Order(Endianness::Little, TsResolution::NanoSecond),
        _ => return None,
    };
    Some(Command::Copy(under))
}

/// Runs the program with these words, and writes at most `most` lines or packets.
///
/// `list` writes a line for each packet of the capture in the input: `index sec.nsec incl/orig`. The index counts from 1, sec and
/// nsec are the time in seconds and nanoseconds, and incl and orig are the stored and the original length in bytes.
/// `copy` writes the capture again, and `copy big|little micro|nano` writes it with that byte order and timestamp resolution.
/// `blocks` writes `section big|little major.minor` for the first section header of a PcapNg capture, which doesn't count towards
/// `most`. It then writes a line for each later block: `index kind length ok|refused`. The length is that of the whole block in
/// bytes, and the last word says whether the body could be read. Lines and packets before an error are written.
/// For other words the result is `Usage`, and nothing is read or written.
///
/// The input must be buffered (`BufRead`), since packets and blocks are lent from its buffer. `list` and `blocks` flush the output
/// each time before they read more of the input. With `copy` the caller must flush.
pub fn run<R: BufRead, W: Write>(
    alloc: Global,
    words: &[&str],
    input: &mut R,
    output: &mut W,
    most: u64,
) -> Exit
    ensures listed { AskForList (texts_of words.now) → IfSome (R.remaining input.old) (λ s.
        ListsUntil packet_lines most s (R.remaining input.new) (W.contents output.old) (W.contents output.new) result) }
    ensures list_takes_no_memory { AskForList (texts_of words.now) → IsMemoryExit result → ⊥ }
    ensures blocks_listed { AskForBlocks (texts_of words.now) → IfSome (R.remaining input.old) (λ s.
        ListsUntil block_lines most s (R.remaining input.new) (W.contents output.old) (W.contents output.new) result) }
    ensures copied { (under : Under) → AskForCopy under (texts_of words.now) →
        CopiesUntil under (R.remaining input.old) (R.remaining input.new) (W.contents output.old) (W.contents output.new) most result }
    ensures known { (AskForNothing (texts_of words.now) → ⊥) → IsOfKnownWord result }
    ensures usage { AskForNothing (texts_of words.now) → result ≡ exits.Usage }
    ensures unread { AskForNothing (texts_of words.now) → Keeps (R.remaining input.old) (R.remaining input.new) }
    ensures unwritten { AskForNothing (texts_of words.now) → Keeps (W.contents output.old) (W.contents output.new) }
{
    match asked_for(words) {
        None => Exit::Usage,
        Some(Command::List) => exit_at(list_lines(alloc, input, output, most)),
        Some(Command::Copy(under)) => exit_at(copy(alloc, input, output, under, most)),
        Some(Command::Blocks) => exit_at(blocks(alloc, input, output, most)),
    }
}

fn exit_at(done: Result<(), Exit>) -> Exit
    ensures { result ≡ exit_of done }
{
    match done {
        Ok(()) => Exit::Done,
        Err(exit) => exit,
    }
}
