//! The word `copy`: writes the capture again, unchanged or with another header.

ghost use Rattle.std.specs.Prelude.{IfErr};
ghost use Rattle.capcopy_run.specs.Copying.{CopiesUntil};
ghost use Rattle.pcap_program.specs.Exits.{exit_of};
ghost use Rattle.capcopy_run.specs.Exits.{IsOfKnownWord};

use pcap_file::run::{Copied, Under, copy_buffered};
use pcap_program::Exit;
use std::alloc::Global;
use std::io::{BufRead, Write};

/// Writes the capture in the input again, up to `most` packets.
///
/// Returns an error for a malformed or truncated rest after it has written the packets before it.
pub(crate) fn copy<R: BufRead, W: Write>(
    alloc: Global,
    input: &mut R,
    output: &mut W,
    under: Under,
    most: u64,
) -> Result<(), Exit>
    ensures known { IfErr result IsOfKnownWord }
    ensures copied { CopiesUntil under (R.remaining input.old) (R.remaining input.new) (W.contents output.old) (W.contents output.new) most (exit_of result) }
{
    let Copied { packets, fault, .. } = copy_buffered(alloc, input, output, under, most);
    match fault {
        Some(error) => Err(Exit::from(error)),
        None if packets == most => Err(Exit::Most),
        None => Ok(()),
    }
}
