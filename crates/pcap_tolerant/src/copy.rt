//! Lenient copies of captures from a reader to a writer.

ghost use Rattle.std.specs.Prelude.{◌≤◌};
ghost use Rattle.pcap_items.specs.Copying.{NothingCopied};
ghost use Rattle.pcap_tolerant.specs.Copies.{BeginsAsIs, CopyRunAsIs};

use crate::as_is::next_packet_as_is;
use crate::stated::PacketsAsIs;
use pcap_classic::pcap::PcapParser;
use pcap_classic::run::{Copied, end_copy};
use pcap_core::ResultParsing;
use pcap_items::stream::{
    AsTheyCame, Held, Holding, Tally, copy_buffers, copy_items, fill_array, fill_item, put,
};
use std::alloc::Global;
use std::io::{BufRead, Read, Write};

impl Holding for PacketsAsIs<'_> {
    ghost use Rattle.std.specs.Prelude.{⊤};
    ghost use Rattle.pcap_classic.specs.Parser.{header_of};
    ghost use Rattle.pcap_tolerant.specs.AsIs.{AsIs};
    ghost use Rattle.pcap_tolerant.specs.Run.{as_is_under};

    type Place = ();

    ghost State = { Unit {0} };

    ghost Value = { AsIs };

    ghost format = { λ packets. as_is_under packets.limit (header_of packets.parser.now) };

    ghost state = { λ place. tt };

    ghost leaves = { λ packet. ⊤ };

    #[inline(always)]
    fn hold_next<R: Read>(
        &self,
        _alloc: Global,
        _place: &mut (),
        reader: &mut R,
        has_failed: &mut bool,
        held: &mut Held,
    ) -> ResultParsing<bool> {
        let head = fill_item(self, reader, has_failed, held)?;
        Ok(head.is_some())
    }

    #[inline(always)]
    fn pass<'a>(&self, _place: &(), bytes: &'a [u8]) -> Option<&'a [u8]> {
        match next_packet_as_is(self.parser, bytes, self.limit) {
            Ok((after, _packet)) => Some(after),
            Err(_error) => None,
        }
    }
}

/// Copies a capture from a reader to a writer byte by byte: its header and then at most `most` packets, whatever rules they
/// break. It writes each packet before it reads the next one. Without a fault, it has taken exactly the copied bytes from the
/// reader.
///
/// If the header is refused, the fault is that of `PcapHeader::from_reader` and nothing is written. If the rest is refused, the
/// fault is that of `ReaderAsIs` under this limit. The header and all packets before it are then written, and the call has
/// taken no more than was missing. A failed write is also an `IoError`: a beginning of the header or packet that comes next is
/// then written, and that item was taken. The fault is `OutOfMemory` if there is no memory to hold a packet.
pub fn copy_pcap_as_is<R: Read, W: Write>(
    alloc: Global,
    reader: &mut R,
    writer: &mut W,
    limit: u32,
    most: u64,
) -> Copied
    ensures most { result.packets ≤ most }
    ensures run { CopyRunAsIs limit (R.remaining reader.old) (R.remaining reader.new) (W.contents writer.old) (W.contents writer.new) most result }
{
    let tally = &mut Tally::none();
    let held = &mut Held::new(alloc);
    let result = match copy_header(reader, writer, tally) {
        Ok(parser) => {
            let parser = &parser;
            let items = PacketsAsIs { parser, limit };
            let packets = AsTheyCame { items };
            copy_items(alloc, &packets, &mut (), reader, writer, most, tally, held)
        }
        Err(e) => Err(e),
    };
    end_copy(tally, result.err())
}

/// Copies a capture as `copy_pcap_as_is` does, from a reader that shows its buffer, and writes packets that are whole in the
/// buffer without a copy. A packet that ends outside the buffer is held, as `copy_pcap_as_is` holds every packet. A reader that
/// shows no bytes is at its end. Bytes in its buffer that no packet took stay there.
///
/// Its faults are those of `copy_pcap_as_is`.
pub fn copy_pcap_as_is_buffered<R: BufRead, W: Write>(
    alloc: Global,
    reader: &mut R,
    writer: &mut W,
    limit: u32,
    most: u64,
) -> Copied
    ensures most { result.packets ≤ most }
    ensures run { CopyRunAsIs limit (R.remaining reader.old) (R.remaining reader.new) (W.contents writer.old) (W.contents writer.new) most result }
{
    let tally = &mut Tally::none();
    let held = &mut Held::new(alloc);
    let result = match copy_header(reader, writer, tally) {
        Ok(parser) => {
            let parser = &parser;
            let items = PacketsAsIs { parser, limit };
            let packets = AsTheyCame { items };
            copy_buffers(alloc, &packets, &mut (), reader, writer, most, tally, held)
        }
        Err(e) => Err(e),
    };
    end_copy(tally, result.err())
}

// Copies the header, and returns the parser of the packets behind it.
fn copy_header<R: Read, W: Write>(
    reader: &mut R,
    writer: &mut W,
    tally: &mut Tally,
) -> ResultParsing<PcapParser>
    requires { NothingCopied tally.old }
    ensures { BeginsAsIs (R.remaining reader.old) (R.remaining reader.new) (W.contents writer.old) (W.contents writer.new) tally.new result }
{
    let mut bytes = [0; 24];
    fill_array(reader, &mut tally.read_failed, &mut bytes)?;
    let (_, parser) = PcapParser::new(&bytes)?;
    put(writer, &mut tally.write_failed, &bytes)?;
    Ok(parser)
}
