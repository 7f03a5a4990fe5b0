//! The format of a capture.

ghost use Rattle.std.specs.Prelude.{◌≡◌, IfOk, IfSome};
ghost use Rattle.std.specs.Io.KnownBytes.{Keeps};
ghost use Rattle.pcapfile_run.specs.Formats.{format_at};
ghost use Rattle.pcapfile_run.specs.Lines.{format_name, items_name};

use std::io;
use std::io::BufRead;

/// The first byte of a PcapNg capture, in either byte order. No classic capture begins with it.
const FIRST_OF_BLOCKS: u8 = 10;

/// The format of a capture.
#[derive(Clone, Copy, Debug, PartialEq, Eq)]
pub enum Format {
    /// A classic capture.
    Pcap,
    /// A PcapNg capture.
    PcapNg,
}

impl Format {
    /// Returns the name of the format.
    pub(crate) fn name(self) -> &'static str
        ensures { result.now ≡ format_name self }
    {
        match self {
            Format::Pcap => "pcap",
            Format::PcapNg => "pcapng",
        }
    }

    /// Returns the name of its items.
    pub(crate) fn items(self) -> &'static str
        ensures { result.now ≡ items_name self }
    {
        match self {
            Format::Pcap => "packets",
            Format::PcapNg => "blocks",
        }
    }
}

/// Returns the format of the capture in the input, by its first byte, which stays in the input. An empty input counts as a classic
/// capture, and reading it then fails. Returns the errors of the input.
pub fn format_of<R: BufRead>(input: &mut R) -> io::Result<Format>
    ensures keeps { Keeps (R.remaining input.old) (R.remaining input.new) }
    ensures tells { IfOk result (λ format. IfSome (R.remaining input.old) (λ s. format ≡ format_at s)) }
{
    if input.fill_buf()?.first() == Some(&FIRST_OF_BLOCKS) {
        return Ok(Format::PcapNg);
    }
    Ok(Format::Pcap)
}
