//! The packets of a PcapNg capture that is merged.

ghost use Rattle.std.specs.Prelude.{◌≡◌, ◌≤◌, ℕ, List, length, drop, false, true, map, IfOk, IfSome};
ghost use Rattle.std.specs.Option.{option_map};
ghost use Rattle.pcap_blocks.specs.EnhancedPacket.{enhanced_of};
ghost use Rattle.pcap_blocks.specs.InterfaceDescription.{Interface, interface_of};
ghost use Rattle.pcap_ng.specs.Frames.{framed_of};
ghost use Rattle.pcap_blocks.specs.ParsedBlock as bodies;
ghost use Rattle.pcap_file.specs.Placed.{is_packet};
ghost use Rattle.pcap_file.specs.Placing.{source_of};
ghost use Rattle.pcap_ng.specs.Reader.{body_of, is_done, lent_item};
ghost use Rattle.pcapfile_run.specs.BlockPackets.{in_block};
ghost use Rattle.pcapfile_merge.specs.Keeping as keeping;
ghost use Rattle.pcapfile_merge.specs.Keeping.{gives, progress_with};
ghost use Rattle.pcapfile_merge.specs.Passing.{PassesTo, TellsBody, TellsPending, TellsStored, TellsTaken};
ghost use Rattle.pcapfile_merge.specs.Passing.{bytes_before, in_said};
ghost use Rattle.pcapfile_merge.specs.BufferedBlocks as buffered;
ghost use Rattle.pcapfile_merge.specs.Holding.{BlockThere, HoldsFewBlocks, IsReadyBlocks, IsWhole, TakesBlocks};
ghost use Rattle.pcapfile_merge.specs.TakingBlocks.{IsTimeBy, enhanced_in};

use crate::buffered_blocks::BufferedBlocks;
use crate::kept::{Kept, is_carried, is_interface};
use crate::left_out::options_of;
use crate::made::Made;
use crate::numbers::{number_of, numbers_behind};
use crate::packet::{MOST, Pending};
use crate::reader::Taken;
use crate::renewed::renewed;
use pcap_file::pcapng::enhanced::EnhancedNumbers;
use pcap_file::pcapng::{
    Block, BlockHeader, EnhancedPacketBlock, InterfaceDescriptionBlock, ParsedBlock, Timestamp,
};
use pcap_file::run::Unplaced;
use pcap_file::{PcapError, PcapNgReader, ResultParsing};
use pcapfile_run::{BlockPacket, holds_packet, interface_at, packet_in_body};
use std::alloc::Global;
use std::io::Read;

/// The bytes of a body before those of its packet, if the block has a time.
const TIMED: usize = 20;

/// The bytes of a body before those of its packet, if the block has no time.
const SIMPLE: usize = 4;

// Takes the next packet of a PcapNg capture whose interfaces have these numbers in the output, or reports why it can't.
pub(crate) fn take_blocks<R: Read + Drop>(
    alloc: Global,
    blocks: &mut BufferedBlocks<R>,
    numbers: &[u64],
) -> Taken
    requires { buffered.is_done blocks.old ≡ false }
    ensures takes { TakesBlocks R.remaining numbers.now blocks.old blocks.new result }
    ensures few { HoldsFewBlocks blocks.new result.next }
    ensures ready { IsReadyBlocks blocks.new result.next }
    ensures whole { IsWhole result }
{
    match take_shown(alloc, blocks, numbers) {
        Ok(next) => Taken { next, fault: None },
        Err(error) => Taken {
            next: None,
            fault: Some(error),
        },
    }
}

// Takes the next packet of a PcapNg capture: from the buffer if it is whole there, or else by holding its block.
fn take_shown<R: Read + Drop>(
    alloc: Global,
    blocks: &mut BufferedBlocks<R>,
    numbers: &[u64],
) -> ResultParsing<Option<Pending>>
    requires { buffered.is_done blocks.old ≡ false }
    ensures takes { TellsTaken numbers.now (buffered.progress_of R.remaining blocks.old) (buffered.progress_of R.remaining blocks.new)
        (buffered.body_of blocks.new) result }
    ensures few { IfOk result (λ next. IfSome next (λ pending. pending.len ≤ 4294967260)) }
{
    match take_there(blocks, numbers) {
        Some(pending) => Ok(Some(pending)),
        None => take_block(
            alloc,
            &mut blocks.reader,
            &mut blocks.made,
            &mut blocks.kept,
            numbers,
        ),
    }
}

// Takes the next packet of a PcapNg capture if it is whole in the buffer and can be merged. Otherwise it returns None and lends nothing.
#[inline(always)]
pub(crate) fn take_there<R: Read + Drop>(
    blocks: &mut BufferedBlocks<R>,
    numbers: &[u64],
) -> Option<Pending>
    requires { buffered.is_done blocks.old ≡ false }
    ensures few { IfSome result (λ pending. pending.len ≤ 4294967260) }
    ensures all { IfSome result (λ pending. pending.left_out ≡ 0) }
    ensures ready { buffered.is_done blocks.new ≡ false }
    ensures unmade { blocks.new.made.is_lent ≡ false }
    ensures there { BlockThere R.remaining numbers.now blocks.old blocks.new result }
{
    blocks.let_go();
    let (packet, used) = blocks.packet_there()?;
    let numbers = numbers_behind(numbers, blocks.kept.before);
    let Ok(pending) = pending_of(blocks.interfaces(), numbers, said_there(packet)) else {
        return None;
    };
    blocks.shown = Some(used);
    Some(pending)
}

// Takes the next packet of a PcapNg capture, and holds its block.
#[cold]
#[inline(never)]
fn take_block<R: Read + Drop>(
    alloc: Global,
    reader: &mut PcapNgReader<R>,
    made: &mut Made,
    kept: &mut Kept,
    numbers: &[u64],
) -> ResultParsing<Option<Pending>>
    requires ready { is_done reader.old ≡ false }
    requires unmade { made.old.is_lent ≡ false }
    ensures takes { TellsTaken numbers.now (progress_with kept.old (source_of R.remaining reader.old)) (progress_with kept.new (source_of R.remaining reader.new))
        (buffered.lent_by made.new (body_of reader.new)) result }
    ensures few { IfOk result (λ next. IfSome next (λ pending. pending.len ≤ 4294967260)) }
{
    let Some(header) = pass_to_giver(reader, kept)? else {
        return Ok(None);
    };
    let block = reader.block(header);
    let numbers = numbers_behind(numbers, kept.before);
    Ok(Some(pending_in_giver(alloc, reader.interfaces(), &block, numbers, made)?))
}

// Skips blocks up to one that gives something next, and counts them.
fn pass_to_giver<R: Read + Drop>(
    reader: &mut PcapNgReader<R>,
    kept: &mut Kept,
) -> ResultParsing<Option<BlockHeader>>
    requires { is_done reader.old ≡ false }
    ensures { PassesTo (progress_with kept.old (source_of R.remaining reader.old)) (progress_with kept.new (source_of R.remaining reader.new))
        (lent_item reader.new) result }
{
    for turn in 0..u64::MAX {
        let header = match reader.next_header() {
            None => return Ok(None),
            Some(Err(error)) => return Err(error),
            Some(Ok(header)) => header,
        };
        let block = reader.block(header);
        let options = options_of(reader.section());
        if pass_one(options, reader.interfaces(), &block, kept) {
            return Ok(Some(header));
        }
    }
    Ok(None)
}

// Counts a block of a section that has these interfaces with it and this many options in its header. Returns whether it gives something
// next.
fn pass_one(
    options: usize,
    interfaces: &[InterfaceDescriptionBlock<'static>],
    block: &Block,
    kept: &mut Kept,
) -> bool
    ensures counts { kept.new ≡ keeping.kept_with options (map interface_of interfaces.now) (framed_of block.now) kept.old }
    ensures gives { result ≡ gives (map interface_of interfaces.now) (framed_of block.now) }
{
    kept.pass(options, interfaces, block);
    gives_next(interfaces, block)
}

// Returns whether a block gives something next: it holds a packet, describes an interface, or is kept.
fn gives_next(interfaces: &[InterfaceDescriptionBlock<'static>], block: &Block) -> bool
    ensures { result ≡ gives (map interface_of interfaces.now) (framed_of block.now) }
{
    holds_packet(block.type_) || is_interface(block.type_) || is_carried(interfaces, block)
}

// Returns the facts about what a block gives: its packet, an interface, or itself. The interfaces of its section have these numbers.
fn pending_in_giver(
    alloc: Global,
    interfaces: &[InterfaceDescriptionBlock<'static>],
    block: &Block,
    numbers: &[u64],
    made: &mut Made,
) -> ResultParsing<Pending>
    requires gives { gives (map interface_of interfaces.now) (framed_of block.now) ≡ true }
    requires unmade { made.old.is_lent ≡ false }
    ensures tells { TellsPending numbers.now (map interface_of interfaces.now) (framed_of block.now) made.new result }
    ensures few { IfOk result (λ pending. pending.len ≤ 4294967260) }
{
    if holds_packet(block.type_) {
        return pending_in_block(alloc, interfaces, block, numbers, made);
    }
    if is_interface(block.type_) {
        return pending_in_interface(alloc, block, made);
    }
    made.keep(numbers, block)
}

// Returns the facts about an interface, whose block is made for the output.
fn pending_in_interface(alloc: Global, block: &Block, made: &mut Made) -> ResultParsing<Pending>
    requires { keeping.is_interface (framed_of block.now).type_ ≡ true }
    ensures tells { (numbers : List ℕ) (interfaces : List Interface) → TellsPending numbers interfaces (framed_of block.now) made.new result }
    ensures few { IfOk result (λ pending. pending.len ≤ 4294967260) }
{
    let parsed = block.parsed(alloc)?;
    made.describe(&parsed)
}

// Returns the facts about the packet in a block. If it is an enhanced packet or an obsolete one, its block is made for the output.
fn pending_in_block(
    alloc: Global,
    interfaces: &[InterfaceDescriptionBlock<'static>],
    block: &Block,
    numbers: &[u64],
    made: &mut Made,
) -> ResultParsing<Pending>
    requires packet { is_packet (framed_of block.now).type_ ≡ true }
    requires unmade { made.old.is_lent ≡ false }
    ensures tells { TellsPending numbers.now (map interface_of interfaces.now) (framed_of block.now) made.new result }
    ensures few { IfOk result (λ pending. pending.len ≤ 4294967260) }
{
    let parsed = block.parsed(alloc)?;
    let (body, left_out) = renewed(alloc, parsed)?;
    let pending = pending_in_body(interfaces, numbers, &body, left_out)?;
    match enhanced_of_body(body) {
        None => Ok(pending),
        Some(packet) => made.put(alloc, block.endianness(), packet, pending),
    }
}

// Returns the facts about the packet in a parsed body, of whose block this many options are left out.
fn pending_in_body(
    interfaces: &[InterfaceDescriptionBlock<'static>],
    numbers: &[u64],
    parsed: &ParsedBlock<'_>,
    left_out: u64,
) -> ResultParsing<Pending>
    ensures tells { TellsBody numbers.now (map interface_of interfaces.now) (bodies.body_of parsed.now) left_out result }
    ensures few { IfOk result (λ pending. pending.len ≤ 4294967260) }
{
    match packet_in_body(interfaces, parsed) {
        Some(packet) => pending_of_packet(interfaces, numbers, packet, left_out),
        None => Err(PcapError::InvalidField("Block: no packet")),
    }
}

// Returns the enhanced packet that a body is, or None if it is another block.
fn enhanced_of_body(parsed: ParsedBlock<'_>) -> Option<EnhancedPacketBlock<'_>>
    ensures { option_map enhanced_of result ≡ enhanced_in (bodies.body_of parsed.entry) }
{
    match parsed {
        ParsedBlock::EnhancedPacket(packet) => Some(packet),
        _ => None,
    }
}

/// What a block says about the packet that it holds.
#[derive(Clone, Copy)]
struct Said {
    /// The number of its interface in its section.
    interface: u32,
    /// Its time in units of that interface's clock, if it has one.
    units: Option<u64>,
    /// Its length on the wire, in bytes.
    original_len: u32,
    /// The number of its stored bytes.
    len: usize,
    /// How many options of its block are left out.
    left_out: u64,
}

// Returns what an enhanced packet in the buffer says.
#[inline(always)]
fn said_there(packet: EnhancedNumbers) -> Said
    ensures { result ≡ record { interface = packet.interface; units = Some packet.units; original_len = packet.original; len = packet.stored; left_out = 0 } }
{
    Said {
        interface: packet.interface,
        units: Some(packet.units),
        original_len: packet.original,
        len: packet.stored,
        left_out: 0,
    }
}

// Returns the facts about a packet that a block with this many options that are left out holds.
fn pending_of_packet(
    interfaces: &[InterfaceDescriptionBlock<'static>],
    numbers: &[u64],
    packet: BlockPacket,
    left_out: u64,
) -> ResultParsing<Pending>
    ensures tells { TellsStored numbers.now (map interface_of interfaces.now) (in_block packet.entry) left_out result }
    ensures few { IfOk result (λ pending. pending.len ≤ 4294967260) }
{
    let said = Said {
        interface: packet.interface,
        units: packet.units,
        original_len: packet.original_len,
        len: packet.bytes.len(),
        left_out,
    };
    pending_of(interfaces, numbers, said)
}

// Returns the facts about a packet from what its block says.
#[inline(always)]
fn pending_of(
    interfaces: &[InterfaceDescriptionBlock<'static>],
    numbers: &[u64],
    said: Said,
) -> ResultParsing<Pending>
    ensures tells { (bytes : List ℕ) → said.len ≡ length bytes → TellsStored numbers.now (map interface_of interfaces.now) (in_said said bytes) said.left_out result }
    ensures few { IfOk result (λ pending. pending.len ≤ 4294967260) }
    ensures count { IfOk result (λ pending. pending.left_out ≡ said.left_out) }
{
    let Some(interface) = interface_at(interfaces, said.interface) else {
        return Err(PcapError::InvalidField(Unplaced::InterfaceMissing.message()));
    };
    let Some(number) = number_of(numbers, said.interface) else {
        return Err(PcapError::InvalidField("Block: too many interfaces"));
    };
    if said.len > MOST {
        return Err(PcapError::InvalidField("Block: a packet that is too long"));
    }
    let (time, units) = time_by(interface, said.units);
    Ok(Pending {
        number,
        time,
        units,
        original_len: said.original_len,
        start: start_behind(said.units),
        len: said.len,
        is_made: false,
        is_interface: false,
        left_out: said.left_out,
    })
}

// Returns the time of a packet of this interface, and its units of the interface's clock: 0 if it has no time.
#[inline(always)]
fn time_by(
    interface: &InterfaceDescriptionBlock<'static>,
    units: Option<u64>,
) -> (Option<Timestamp>, u64)
    ensures { IsTimeBy (interface_of interface.now) units result.0 result.1 }
{
    match units {
        Some(units) => (Some(interface.timestamp(units)), units),
        None => (None, 0),
    }
}

// Returns how many bytes of the body of a block come before those of its packet.
#[inline(always)]
fn start_behind(units: Option<u64>) -> usize
    ensures { result ≡ bytes_before units }
{
    match units {
        Some(_) => TIMED,
        None => SIMPLE,
    }
}
