//! Parses one part of a capture.

ghost use Rattle.pcap_classic.specs.Writing.{IsWritable};
ghost use Rattle.pcap_core.specs.Bytes.{IsBorrowed};
ghost use Rattle.pcap_items.specs.Items.{GrowsIn};
ghost use Rattle.pcap_ng.specs.Blocks.{MayGrow, block_format};
ghost use Rattle.pcap_ng.specs.Parser.{state_of};
ghost use Rattle.pcap_parts.specs.PartRuns.{IsNgPartRun, IsPartRun, RefusesPart};
ghost use Rattle.std.specs.Prelude.{All, IfErr, IfOk, OnErr};

use pcap_classic::pcap::{PcapHeader, PcapParser};
use pcap_classic::run::PcapRun;
use pcap_core::ResultParsing;
use pcap_items::Rest;
use pcap_items::run::parse_items;
use pcap_ng::pcapng::PcapNgParser;
use pcap_ng::run::NgRun;
use std::alloc::{AllocError, Global};

/// Parses one part of a classic capture: the bytes from its cut to the next cut or to the end. The result has the packets of this part,
/// the number of bytes that they take, and the rest behind them. In every part but the last, nothing follows the packets.
///
/// `InvalidField` if the header's magic number is none of the four. `OutOfMemory` if the list of packets cannot grow.
pub fn parse_part<'a>(
    alloc: Global,
    header: PcapHeader,
    part: &'a [u8],
) -> ResultParsing<PcapRun<'a>>
    ensures runs { IfOk result (λ run. IsPartRun header part.now run) }
    ensures borrowed { IfOk result (λ run. All (λ packet. IsBorrowed packet.data_) run.packets.items) }
    ensures valid { IfOk result (λ _. IsWritable header) }
    ensures refused { IfErr result (RefusesPart header part.now) }
{
    let mut parser = PcapParser::with_header(header)?;
    let run = parse_items(alloc, &mut parser, part)?;
    Ok(PcapRun {
        header,
        packets: run.items,
        used: run.used,
        rest: Rest::from(run.ended),
    })
}

/// Parses one part of a PcapNg capture: the bytes from its cut to the next cut or to the end. The caller supplies the parser that
/// `resume` makes for that cut. The result has the blocks of this part, the parser behind them, the number of bytes that they take, and
/// the rest behind them. In every part but the last, nothing follows the blocks.
///
/// Returns an error if the list of blocks cannot grow, or if there is no memory for a section or an interface.
pub fn parse_ng_part<'a>(
    alloc: Global,
    parser: PcapNgParser,
    part: &'a [u8],
) -> Result<NgRun<'a>, AllocError>
    ensures runs { IfOk result (λ run. IsNgPartRun (state_of parser) part.now run) }
    ensures borrowed { IfOk result (λ run. All (λ block. IsBorrowed block.body) run.blocks.items) }
    ensures memory { OnErr result (GrowsIn block_format MayGrow (state_of parser) part.now) }
{
    let mut parser = parser;
    let run = parse_items(alloc, &mut parser, part)?;
    Ok(NgRun {
        blocks: run.items,
        parser,
        used: run.used,
        rest: Rest::from(run.ended),
    })
}
