//! Functions that read a whole PcapNg capture from a slice or a stream.

mod exact;
mod find;
mod items;
mod pieces;

ghost use Rattle.std.specs.Prelude.{◌≡◌, false, All, IfOk, IfErr, IfNone, IfSome};
ghost use Rattle.pcap_ng.specs.Reader.{is_done};
ghost use Rattle.pcap_ng.specs.Reads.{TakesNg, ReadsNg};
ghost use Rattle.pcap_core.specs.Answer.{Refuses, lacks, faulty};
ghost use Rattle.pcap_core.specs.Bytes.{IsBorrowed, IsOwned};
ghost use Rattle.pcap_ng.specs.Opening.{OpeningSays, RefusesOpening};
ghost use Rattle.pcap_ng.specs.Blocks.{MayGrow};
ghost use Rattle.pcap_ng.specs.Run.{IsRun};
ghost use Rattle.pcap_ng.specs.State.{opening};

pub use crate::pcapng::buffered::copy_pcapng_buffered;
pub use crate::pcapng::copying::{NgCopied, copy_pcapng};
use crate::pcapng::{Block, PcapNgParser, PcapNgReader};
pub use exact::exact_pcapng;
use pcap_core::{PcapError, ResultParsing};
use pcap_items::Rest;
use pcap_items::run::{parse_items, read_items};
pub use pieces::pieces_pcapng;
use std::alloc::Global;
use std::io::Read;

/// The result of a run over a slice: the blocks after the first, the parser after them, their length and the rest.
#[derive(Drop)]
pub struct NgRun<'a> {
    /// The blocks after the first section header, in order.
    pub blocks: Vec<Block<'a>>,
    /// The parser after these blocks, with the section in force and its interfaces.
    pub parser: PcapNgParser,
    /// How many bytes the first section header and these blocks take.
    pub used: usize,
    /// The rest of the slice, after these blocks: nothing, a truncated block or a malformed one.
    pub rest: Rest,
}

/// Parses a whole slice and returns all blocks of its longest front, and what follows them.
///
/// Returns the errors of `PcapNgParser::new` for the first block. If a later block is malformed or truncated, the blocks end
/// before it, and `rest` reports why. Returns `OutOfMemory` wherever something can't grow.
pub fn parse_pcapng<'a>(alloc: Global, bytes: &'a [u8]) -> ResultParsing<NgRun<'a>>
    ensures front { IfOk result (λ run. IsRun run bytes.now) }
    ensures borrowed { IfOk result (λ run. All (λ block. IsBorrowed block.body) run.blocks.items) }
    ensures refused { IfErr result
        (Refuses (MayGrow opening bytes.now) (λ n. OpeningSays bytes.now (lacks n)) (λ fault. OpeningSays bytes.now (faulty fault))) }
{
    let (after_first, mut parser) = PcapNgParser::new(alloc, bytes)?;
    let run = parse_items(alloc, &mut parser, after_first)?;
    Ok(NgRun {
        blocks: run.items,
        parser,
        used: bytes.len() - after_first.len() + run.used,
        rest: Rest::from(run.ended),
    })
}

/// The result of a run over a stream: the blocks after the first, the reader after them, and why they end.
#[derive(Drop)]
pub struct NgRead<R> {
    /// The blocks after the first section header, in order.
    pub blocks: Vec<Block<'static>>,
    /// The reader after these blocks, with the section in force and its interfaces. Its `failed` reports whether a read failed.
    pub reader: PcapNgReader<R>,
    /// The error that ended the blocks. None if the stream ended after a block, or `most` blocks were read.
    pub fault: Option<PcapError>,
}

/// Reads the first block of a capture from a stream, and at most `most` blocks after it, up to an error or the end of the stream.
///
/// Returns the errors of `PcapNgReader::new` for the first block. A later error ends the blocks and is in `fault`. After `most`
/// blocks the function doesn't read the stream again.
pub fn read_pcapng<R: Read + Drop>(alloc: Global, reader: R, most: u64) -> ResultParsing<NgRead<R>>
    ensures taken { IfOk result (λ read. TakesNg R.remaining (R.remaining reader) most read) }
    ensures front { IfOk result (λ read. IfSome (R.remaining reader) (λ bytes. ReadsNg bytes most read)) }
    ensures owned { IfOk result (λ read. All (λ block. IsOwned block.body) read.blocks.items) }
    ensures goes_on { IfOk result (λ read. IfNone read.fault (is_done read.reader ≡ false)) }
    ensures refused { IfErr result (RefusesOpening (R.remaining reader)) }
{
    let mut reader = PcapNgReader::new(alloc, reader)?;
    let (blocks, fault) = read_items(alloc, &mut reader, most);
    Ok(NgRead {
        blocks,
        reader,
        fault,
    })
}
