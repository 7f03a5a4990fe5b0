//! Calls on bodies of blocks: each type by its own calls, with each of its options, and two types by `ParsedBlock`.

use crate::bytes::{INTERFACE, NAMES, PACKET, SECTION, STATISTICS};
use crate::tell;
use byteorder::BigEndian;
use pcap_blocks::{
    BlockType, EnhancedPacketBlock, InterfaceDescriptionBlock, InterfaceStatisticsBlock,
    NameResolutionBlock, PacketBlock, ParsedBlock, SectionHeaderBlock, SimplePacketBlock,
    SystemdJournalExportBlock, UnknownBlock,
};
use pcap_classic::ResultParsing;
use std::alloc::Global;
use std::io;

pub(crate) fn make_calls(rt: &HostRuntime) -> io::Result<()> {
    let alloc = rt.alloc();
    tell(rt, "section", section(alloc))?;
    tell(rt, "interface", interface(alloc))?;
    tell(rt, "packet", packet(alloc))?;
    tell(rt, "enhanced packet", enhanced_packet(alloc))?;
    tell(rt, "simple packet", simple_packet(alloc))?;
    tell(rt, "names", names(alloc))?;
    tell(rt, "statistics", statistics(alloc))?;
    tell(rt, "journal entry", journal_entry(alloc))?;
    let block = UnknownBlock::new(BlockType::Unknown(77), 32, &PACKET).into_owned(alloc);
    tell(rt, "unknown block", block)?;
    let body = body(alloc, BlockType::SectionHeader, &SECTION);
    tell(rt, "parsed section", body)?;
    let body = self::body(alloc, BlockType::NameResolution, &NAMES);
    tell(rt, "parsed names", body)
}

fn section(alloc: Global) -> ResultParsing<SectionHeaderBlock<'static>> {
    let (_rest, section) = SectionHeaderBlock::from_slice(alloc, &SECTION)?;
    for option in section.options {
        let _option = option.into_owned(alloc)?;
    }
    let (_rest, section) = SectionHeaderBlock::from_slice(alloc, &SECTION)?;
    section.into_owned(alloc)
}

fn interface(alloc: Global) -> ResultParsing<InterfaceDescriptionBlock<'static>> {
    let (_rest, interface) = InterfaceDescriptionBlock::from_slice::<BigEndian>(alloc, &INTERFACE)?;
    for option in interface.options {
        let _option = option.into_owned(alloc)?;
    }
    let (_rest, interface) = InterfaceDescriptionBlock::from_slice::<BigEndian>(alloc, &INTERFACE)?;
    interface.into_owned(alloc)
}

fn packet(alloc: Global) -> ResultParsing<PacketBlock<'static>> {
    let (_rest, packet) = PacketBlock::from_slice::<BigEndian>(alloc, &PACKET)?;
    for option in packet.options {
        let _option = option.into_owned(alloc)?;
    }
    let (_rest, packet) = PacketBlock::from_slice::<BigEndian>(alloc, &PACKET)?;
    packet.into_owned(alloc)
}

fn enhanced_packet(alloc: Global) -> ResultParsing<EnhancedPacketBlock<'static>> {
    let (_rest, packet) = EnhancedPacketBlock::from_slice::<BigEndian>(alloc, &PACKET)?;
    for option in packet.options {
        let _option = option.into_owned(alloc)?;
    }
    let (_rest, packet) = EnhancedPacketBlock::from_slice::<BigEndian>(alloc, &PACKET)?;
    packet.into_owned(alloc)
}

fn simple_packet(alloc: Global) -> ResultParsing<SimplePacketBlock<'static>> {
    let (_rest, packet) = SimplePacketBlock::from_slice::<BigEndian>(&PACKET)?;
    packet.into_owned(alloc)
}

fn names(alloc: Global) -> ResultParsing<NameResolutionBlock<'static>> {
    let (_rest, names) = NameResolutionBlock::from_slice::<BigEndian>(alloc, &NAMES)?;
    for option in names.options {
        let _option = option.into_owned(alloc)?;
    }
    let (_rest, names) = NameResolutionBlock::from_slice::<BigEndian>(alloc, &NAMES)?;
    names.into_owned(alloc)
}

fn statistics(alloc: Global) -> ResultParsing<InterfaceStatisticsBlock<'static>> {
    let (_rest, statistics) = InterfaceStatisticsBlock::from_slice::<BigEndian>(
        alloc,
        &STATISTICS,
    )?;
    for option in statistics.options {
        let _option = option.into_owned(alloc)?;
    }
    let (_rest, statistics) = InterfaceStatisticsBlock::from_slice::<BigEndian>(
        alloc,
        &STATISTICS,
    )?;
    statistics.into_owned(alloc)
}

fn journal_entry(alloc: Global) -> ResultParsing<SystemdJournalExportBlock<'static>> {
    let (_rest, entry) = SystemdJournalExportBlock::from_slice::<BigEndian>(&PACKET)?;
    entry.into_owned(alloc)
}

fn body(alloc: Global, type_: BlockType, bytes: &[u8]) -> ResultParsing<ParsedBlock<'static>> {
    let (_rest, block) = ParsedBlock::from_slice::<BigEndian>(alloc, type_, bytes)?;
    block.into_owned(alloc)
}
