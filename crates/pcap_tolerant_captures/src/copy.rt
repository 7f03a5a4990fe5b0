//! Lenient copies of PcapNg captures from a reader to a writer.

ghost use Rattle.std.specs.Prelude.{◌≡◌, ◌↔◌, IsTrue};
ghost use Rattle.pcap_tolerant_captures.specs.Copies.{CopiesAsIs, copied_of};
ghost use Rattle.pcap_tolerant_captures.specs.State.{leaves_all, role_of};

use crate::parser::PcapNgParserAsIs;
use crate::reader::hold;
use pcap_blocks::BlockType;
use pcap_core::{PcapError, ResultParsing};
use pcap_items::stream::{AsTheyCame, Held, Holding, Tally, copy_buffers, copy_items};
use pcap_ng::pcapng::Block;
use std::alloc::Global;
use std::io::{BufRead, Read, Write};

/// The result of a lenient copy of blocks.
#[derive(Debug, Drop)]
pub struct NgCopiedAsIs {
    /// The number of whole blocks that were written, including the first section header.
    pub blocks: u64,
    /// The reason why the copy ended before the end of the stream and before `most` blocks were copied.
    pub fault: Option<PcapError>,
    /// Whether a read failed.
    pub read_failed: bool,
    /// Whether a write failed.
    pub write_failed: bool,
}

// The blocks behind those that a parser has read, or all blocks from the first section header if there is no parser yet.
#[derive(Drop)]
struct Blocks;

// Returns whether the section and interfaces in force stay the same after a block of this type.
fn leaves_in_force(type_: BlockType) -> bool
    ensures { IsTrue result ↔ (role_of type_ ≡ leaves_all) }
{
    match type_ {
        BlockType::SectionHeader | BlockType::InterfaceDescription => false,
        _ => true,
    }
}

impl Holding for Blocks {
    ghost use Rattle.pcap_tolerant_captures.specs.Blocks.{Item, as_is_format};
    ghost use Rattle.pcap_tolerant_captures.specs.Copies.{LeavesInForce};
    ghost use Rattle.pcap_tolerant_captures.specs.HeldAsIs.{state_in};
    ghost use Rattle.pcap_tolerant_captures.specs.State.{State as BlockState};

    type Place = Option<PcapNgParserAsIs>;

    ghost State = { BlockState };

    ghost Value = { Item };

    ghost format = { λ blocks. as_is_format };

    ghost state = { state_in };

    ghost leaves = { LeavesInForce };

    fn hold_next<R: Read>(
        &self,
        alloc: Global,
        place: &mut Option<PcapNgParserAsIs>,
        reader: &mut R,
        has_failed: &mut bool,
        held: &mut Held,
    ) -> ResultParsing<bool> {
        let block = hold(alloc, place, reader, has_failed, held)?;
        Ok(block.is_some())
    }

    fn pass<'a>(&self, place: &Option<PcapNgParserAsIs>, bytes: &'a [u8]) -> Option<&'a [u8]> {
        let Some(parser) = place else {
            return None;
        };
        match Block::from_slice(parser.order(), bytes) {
            Ok((after, block)) => {
                if leaves_in_force(block.type_) {
                    Some(after)
                } else {
                    None
                }
            }
            Err(_error) => None,
        }
    }
}

/// Copies a PcapNg capture from a reader to a writer byte by byte, whatever flaws the bodies of its blocks have. It copies at
/// most `most` blocks, including the first section header, and writes each block before it reads the next one. Without a fault,
/// it has taken exactly the copied bytes from the reader. The copy of an empty stream has no fault.
///
/// If a block is refused, the fault is that of `PcapNgReaderAsIs`. All blocks before it are then written, and the call has
/// taken no more of it than was missing. A failed write is also an `IoError`: a beginning of the block that comes next is then
/// written, and that block was taken. The fault is `OutOfMemory` if there is no memory to hold a block, or to keep its section
/// or interface.
pub fn copy_pcapng_as_is<R: Read, W: Write>(
    alloc: Global,
    reader: &mut R,
    writer: &mut W,
    most: u64,
) -> NgCopiedAsIs
    ensures { CopiesAsIs (R.remaining reader.old) (R.remaining reader.new) (W.contents writer.old) (W.contents writer.new) most result }
{
    let tally = &mut Tally::none();
    let held = &mut Held::new(alloc);
    let blocks = AsTheyCame { items: Blocks };
    let result = copy_items(alloc, &blocks, &mut None, reader, writer, most, tally, held);
    copied(tally, result.err())
}

/// Copies a PcapNg capture as `copy_pcapng_as_is` does, from a reader that shows its buffer, and writes blocks that are whole
/// in the buffer without a copy. Section headers and interface descriptions are held, as `copy_pcapng_as_is` holds every block,
/// and so is a block that ends outside the buffer. A reader that shows no bytes is at its end. Bytes in its buffer that no
/// block took stay there.
///
/// Its faults are those of `copy_pcapng_as_is`.
pub fn copy_pcapng_as_is_buffered<R: BufRead, W: Write>(
    alloc: Global,
    reader: &mut R,
    writer: &mut W,
    most: u64,
) -> NgCopiedAsIs
    ensures { CopiesAsIs (R.remaining reader.old) (R.remaining reader.new) (W.contents writer.old) (W.contents writer.new) most result }
{
    let tally = &mut Tally::none();
    let held = &mut Held::new(alloc);
    let blocks = AsTheyCame { items: Blocks };
    let result = copy_buffers(alloc, &blocks, &mut None, reader, writer, most, tally, held);
    copied(tally, result.err())
}

// Returns the result of a copy that has this tally and ended with this fault, or with none.
fn copied(tally: &Tally, fault: Option<PcapError>) -> NgCopiedAsIs
    ensures { result ≡ copied_of tally.now fault }
{
    NgCopiedAsIs {
        blocks: tally.items,
        fault,
        read_failed: tally.read_failed,
        write_failed: tally.write_failed,
    }
}
