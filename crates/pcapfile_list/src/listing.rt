//! Listing the packets of captures of either format.

ghost use Rattle.std.specs.Prelude.{◌≡◌, IfSome};
ghost use Rattle.pcap_program.specs.Exits.{exit_of};
ghost use Rattle.pcapfile_run.specs.declared.format.Format.TheVariants as formats;
ghost use Rattle.pcapfile_run.specs.Formats.{format_at};
ghost use Rattle.pcapfile_list.specs.FileLines.{ListsAs, written};

use crate::formed_packets::list_packets;
use crate::packets::list_stored;
use capcopy_run::list_lines;
use pcap_program::Exit;
use pcapfile_lines::Form;
use pcapfile_run::{Format, format_of};
use std::alloc::Global;
use std::io::{BufRead, Write};

fn exit_at(done: Result<(), Exit>) -> Exit
    ensures { result ≡ exit_of done }
{
    match done {
        Ok(()) => Exit::Done,
        Err(exit) => exit,
    }
}

// Writes the lines of a classic capture, in this form if there is one.
fn list_classic<R: BufRead, W: Write>(
    alloc: Global,
    form: Option<Form>,
    input: &mut R,
    output: &mut W,
    most: u64,
) -> Exit
    ensures { IfSome (R.remaining input.old) (λ s. ListsAs form formats.Pcap most s (R.remaining input.new)
        (written (W.contents output.old) (W.contents output.new)) result) }
{
    match form {
        None => exit_at(list_lines(alloc, input, output, most)),
        Some(form) => exit_at(list_packets(alloc, form, input, output, most)),
    }
}

// Writes the lines of a capture of this format, in this form if there is one.
fn list_as<R: BufRead, W: Write>(
    alloc: Global,
    form: Option<Form>,
    format: Format,
    input: &mut R,
    output: &mut W,
    most: u64,
) -> Exit
    ensures { IfSome (R.remaining input.old) (λ s. ListsAs form format most s (R.remaining input.new)
        (written (W.contents output.old) (W.contents output.new)) result) }
{
    match format {
        Format::Pcap => list_classic(alloc, form, input, output, most),
        Format::PcapNg => exit_at(list_stored(alloc, form, input, output, most)),
    }
}

/// Writes a line for each packet of the capture in the input, of either format, from at most `most` packets or blocks.
///
/// With a form, the lines are those of `pcapfile_lines`, and a fraction of a second or more is carried. Without a form, the lines of a
/// classic capture are those of the word `list` of `capcopy_run`: `index sec.nsec stored/original`. Those of a PcapNg capture also
/// have the number of the packet's interface: `index sec.nsec stored/original interface`. The time is that of the interface's clock.
/// It is a hyphen if the packet has none, such as a simple packet, if its interface isn't described, or if the seconds since 1970 are
/// negative or need more than 64 bits. A packet with a malformed body has the line `index refused`.
///
/// Returns an error for a malformed or truncated rest after the lines of the packets before it. Flushes the output each time before it
/// reads more of the input.
pub fn list<R: BufRead, W: Write>(
    alloc: Global,
    form: Option<Form>,
    input: &mut R,
    output: &mut W,
    most: u64,
) -> Exit
    ensures { IfSome (R.remaining input.old) (λ s. ListsAs form (format_at s) most s (R.remaining input.new)
        (written (W.contents output.old) (W.contents output.new)) result) }
{
    match format_of(input) {
        Err(error) => Exit::from(error),
        Ok(format) => list_as(alloc, form, format, input, output, most),
    }
}
