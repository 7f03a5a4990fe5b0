//! Converts PcapNg captures to classic captures, from a reader to a writer.

ghost use Rattle.std.specs.Prelude.{◌≡◌, ◌≤◌, ◌<◌, ◌+◌, ◌^◌, false, true, map, IsTrue};
ghost use Rattle.pcap_blocks.specs.InterfaceDescription.{interface_of};
ghost use Rattle.pcap_classic.specs.Magic.{is_magic};
ghost use Rattle.pcap_ng.specs.Frames.{framed_of};
ghost use Rattle.pcap_ng.specs.Lent.{framed_around};
ghost use Rattle.pcap_file.specs.Placed.{is_packet};
ghost use Rattle.pcap_file.specs.Placing.{CountsBecame, IsNew, PlacesBlock, PlacesRun, PutsPlaced, StepsPlacing, outcome_of, sink_of, source_of};
ghost use Rattle.pcap_ng.specs.Reader.{body_of, interfaces_in_force};

use crate::run::unplaced::{PlacedPacket, Unplaced, holds_packet, place};
use pcap_blocks::InterfaceDescriptionBlock;
use pcap_classic::pcap::{Packet, PcapWriter};
use pcap_core::rules::Rule;
use pcap_core::{CowBytes, PcapError, ResultParsing};
use pcap_ng::pcapng::{Block, BlockHeader, PcapNgReader};
use std::alloc::Global;
use std::io::{Read, Write};

/// The choice of what a conversion does with a packet that has no place in a classic capture (see `Unplaced`).
#[derive(Clone, Copy, Debug, PartialEq, Eq)]
pub enum IfUnplaced {
    /// The conversion ends with an error.
    Refuse,
    /// The conversion leaves the packet out and counts it.
    LeaveOut,
}

/// The counts of a conversion from PcapNg, and the error that ended it, if any.
#[derive(Debug, Drop)]
pub struct NgConverted {
    /// The number of blocks that were taken, including those that hold no packet.
    pub blocks: u64,
    /// The number of packets that were written.
    pub packets: u64,
    /// The number of packets that were left out.
    pub left_out: u64,
    /// The error that ended the conversion before the end of the capture and before the limit of blocks.
    pub fault: Option<PcapError>,
}

impl NgConverted {
    // Counts one block that became this.
    fn count(&mut self, became: Became)
        requires countable { self.old.blocks + 1 < 2 ^ 64 }
        requires packets { self.old.packets ≤ self.old.blocks }
        requires left_out { self.old.left_out ≤ self.old.blocks }
        ensures { CountsBecame became self.old self.new }
    {
        self.blocks += 1;
        match became {
            Became::Packet => self.packets += 1,
            Became::LeftOut => self.left_out += 1,
            Became::NoPacket => (),
        }
    }
}

// The outcome of one block: a packet, a packet that was left out, or no packet.
#[derive(Clone, Copy)]
enum Became {
    Packet,
    LeftOut,
    NoPacket,
}

/// Converts at most `most` blocks of a PcapNg capture, from the reader's position, to packets of a classic capture. It appends them
/// to what the writer has written. Each enhanced packet and each obsolete packet block becomes one packet, with the time that its
/// interface's clock shows, its original length and its bytes. A block that holds no packet becomes nothing. The writer's header
/// determines the byte order, the timestamp resolution and the link type of all packets. Each packet is written before the next
/// block is read. Without a fault, exactly these blocks were taken from the reader. A reader that has refused something before has
/// no more blocks.
///
/// If a packet has no place in a classic capture, as a simple packet without a time, `unplaced` decides. The packet is left out and
/// counted, or it is refused before a byte of it is written, by `InvalidField` with the message of an `Unplaced`.
///
/// If the rest is refused, the fault is what `PcapNgReader` returns there, and no more bytes were taken than were missing. If the body
/// of a packet's block is refused, the fault is what `parsed` of `Block` returns: the block was taken, and nothing of it was written.
/// `WriterFailed` if an earlier write failed, and `InvalidField` if the magic number of the writer's header is none of the four:
/// nothing is read or written then. `IoError` also if a write failed: a beginning of the next packet was written then, and its block
/// was taken.
pub fn convert_to_pcap<R: Read + Drop, W: Write>(
    alloc: Global,
    reader: &mut PcapNgReader<R>,
    writer: &mut PcapWriter<W>,
    unplaced: IfUnplaced,
    most: u64,
) -> NgConverted
    ensures header { writer.new.header ≡ writer.old.header }
    ensures most { result.blocks ≤ most }
    ensures run { PlacesRun writer.old.header unplaced (source_of R.remaining reader.old)
        (source_of R.remaining reader.new) (sink_of W.contents writer.old) (sink_of W.contents writer.new) most result }
{
    let mut converted = NgConverted {
        blocks: 0,
        packets: 0,
        left_out: 0,
        fault: None,
    };
    converted.fault = convert_blocks(alloc, reader, writer, unplaced, most, &mut converted).err();
    converted
}

// Converts blocks and counts them.
fn convert_blocks<R: Read + Drop, W: Write>(
    alloc: Global,
    reader: &mut PcapNgReader<R>,
    writer: &mut PcapWriter<W>,
    unplaced: IfUnplaced,
    most: u64,
    converted: &mut NgConverted,
) -> ResultParsing<()>
    requires { IsNew converted.old }
    ensures header { writer.new.header ≡ writer.old.header }
    ensures most { converted.new.blocks ≤ most }
    ensures run { PlacesRun writer.old.header unplaced (source_of R.remaining reader.old)
        (source_of R.remaining reader.new) (sink_of W.contents writer.old) (sink_of W.contents writer.new) most (outcome_of converted.new result) }
{
    if writer.failed() {
        return Err(PcapError::WriterFailed);
    }
    if !writer.header.has_valid_magic() {
        return Err(PcapError::from(Rule::CaptureMagic));
    }
    while converted.blocks < most {
        if !convert_next(alloc, reader, writer, unplaced, converted)? {
            return Ok(());
        }
    }
    Ok(())
}

// Converts the next block, and returns whether there was one.
fn convert_next<R: Read + Drop, W: Write>(
    alloc: Global,
    reader: &mut PcapNgReader<R>,
    writer: &mut PcapWriter<W>,
    unplaced: IfUnplaced,
    converted: &mut NgConverted,
) -> ResultParsing<bool>
    requires valid { IsTrue (is_magic writer.old.header.magic_number) }
    requires no_write_failed { (sink_of W.contents writer.old).failed ≡ false }
    requires countable { converted.old.blocks + 1 < 2 ^ 64 }
    requires packets { converted.old.packets ≤ converted.old.blocks }
    requires left_out { converted.old.left_out ≤ converted.old.blocks }
    ensures header { writer.new.header ≡ writer.old.header }
    ensures steps { StepsPlacing writer.old.header unplaced (source_of R.remaining reader.old)
        (source_of R.remaining reader.new) (sink_of W.contents writer.old) (sink_of W.contents writer.new) converted.old converted.new result }
{
    let header = match reader.next_header() {
        None => return Ok(false),
        Some(Err(e)) => return Err(e),
        Some(Ok(header)) => header,
    };
    let became = convert_block(alloc, reader, header, writer, unplaced)?;
    converted.count(became);
    Ok(true)
}

// Writes what the block with this header becomes. The reader lends the body of the block.
fn convert_block<R: Read + Drop, W: Write>(
    alloc: Global,
    reader: &PcapNgReader<R>,
    header: BlockHeader,
    writer: &mut PcapWriter<W>,
    unplaced: IfUnplaced,
) -> ResultParsing<Became>
    requires valid { IsTrue (is_magic writer.old.header.magic_number) }
    requires no_write_failed { (sink_of W.contents writer.old).failed ≡ false }
    ensures header { writer.new.header ≡ writer.old.header }
    ensures placed { PlacesBlock writer.old.header unplaced (interfaces_in_force reader.now)
        (framed_around header (body_of reader.now)) (sink_of W.contents writer.old) (sink_of W.contents writer.new) result }
{
    if !holds_packet(header.type_) {
        return Ok(Became::NoPacket);
    }
    convert_packet(
        alloc,
        reader.interfaces(),
        &reader.block(header),
        writer,
        unplaced,
    )
}

// Writes the packet of a block that holds one.
fn convert_packet<W: Write>(
    alloc: Global,
    interfaces: &[InterfaceDescriptionBlock<'static>],
    block: &Block,
    writer: &mut PcapWriter<W>,
    unplaced: IfUnplaced,
) -> ResultParsing<Became>
    requires of_packet { is_packet (framed_of block.now).type_ ≡ true }
    requires valid { IsTrue (is_magic writer.old.header.magic_number) }
    requires no_write_failed { (sink_of W.contents writer.old).failed ≡ false }
    ensures header { writer.new.header ≡ writer.old.header }
    ensures placed { PlacesBlock writer.old.header unplaced (map interface_of interfaces.now)
        (framed_of block.now) (sink_of W.contents writer.old) (sink_of W.contents writer.new) result }
{
    let parsed = block.parsed(alloc)?;
    let placed = place(&parsed, interfaces, writer.header.datalink);
    put_placed(placed, writer, unplaced)
}

// Writes a packet that has a place. A packet without a place is refused or left out.
fn put_placed<W: Write>(
    placed: Result<PlacedPacket<'_>, Unplaced>,
    writer: &mut PcapWriter<W>,
    unplaced: IfUnplaced,
) -> ResultParsing<Became>
    requires valid { IsTrue (is_magic writer.old.header.magic_number) }
    requires no_write_failed { (sink_of W.contents writer.old).failed ≡ false }
    ensures header { writer.new.header ≡ writer.old.header }
    ensures put { PutsPlaced writer.old.header unplaced placed.entry (sink_of W.contents writer.old) (sink_of W.contents writer.new) result }
{
    match placed {
        Ok(PlacedPacket { header, bytes }) => {
            let data_ = CowBytes::Borrowed(bytes);
            writer.write_packet(&Packet { header, data_ })?;
            Ok(Became::Packet)
        }
        Err(reason) => match unplaced {
            IfUnplaced::Refuse => Err(PcapError::InvalidField(reason.message())),
            IfUnplaced::LeaveOut => Ok(Became::LeftOut),
        },
    }
}
