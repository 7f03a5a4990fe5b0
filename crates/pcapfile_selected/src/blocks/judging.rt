//! The tests of packets in blocks.

ghost use Rattle.std.specs.Prelude.{◌≡◌, ◌↔◌, IfErr, IfOk, IsTrue, map, option_map};
ghost use Rattle.pcap_core.specs.Errors.{IsMemory};
ghost use Rattle.pcap_blocks.specs.InterfaceDescription.{interface_of};
ghost use Rattle.pcap_blocks.specs.ParsedBlock.{body_of};
ghost use Rattle.pcap_ng.specs.Frames.{framed_of};
ghost use Rattle.pcapfile_run.specs.BlockPackets.{IsClockTime, IsTimeIn, in_block, packet_in};
ghost use Rattle.pcapfile_selected.specs.Judging.{IsBlockTime, IsHeldTime, IsRead, IsWithin, Judges, JudgesHeld, JudgesPacket, passes, takes_interface};

use pcap_file::pcapng::{Block, InterfaceDescriptionBlock, ParsedBlock, Timestamp};
use pcap_file::{PcapError, ResultParsing};
use pcapfile_cut::Selection;
use pcapfile_run::{BlockPacket, interface_at, packet_in_body};
use std::alloc::Global;

/// Times from one to another.
#[derive(Clone, Copy)]
pub(crate) struct Times {
    /// The earliest time.
    pub(crate) from: Option<Timestamp>,
    /// The end of the times: packets are before it.
    pub(crate) until: Option<Timestamp>,
}

/// The tests of packets in blocks.
#[derive(Clone, Copy)]
pub(crate) struct BlockTests<'a> {
    /// The tests of numbers, lengths and bytes. Its times are for classic captures.
    pub(crate) selection: Selection<'a>,
    /// The number of the packets' interface in their section.
    pub(crate) interface: Option<u32>,
    /// The packets' times, if a test depends on them.
    pub(crate) times: Option<Times>,
}

/// Whether a packet is selected, or why no test applies to it.
#[derive(Clone, Copy)]
pub(crate) enum Verdict {
    /// It passes all tests.
    Selected,
    /// It fails a test.
    Rejected,
    /// The body of its block is malformed.
    Malformed,
    /// It has no time, and a test depends on that.
    WithoutTime,
}

impl Times {
    // Returns whether this time is one of these.
    fn hold(self, time: Timestamp) -> bool
        ensures { IsTrue result ↔ IsWithin self time }
    {
        if let Some(from) = self.from {
            if time < from {
                return false;
            }
        }
        match self.until {
            None => true,
            Some(until) => time < until,
        }
    }
}

impl BlockTests<'_> {
    // Returns whether packets of the interface with this number are selected.
    fn takes_interface(&self, number: u32) -> bool
        ensures { result ≡ takes_interface self.now number }
    {
        match self.interface {
            None => true,
            Some(wanted) => wanted == number,
        }
    }

    // Returns whether the packet passes the tests of its interface, its length on the wire and its bytes.
    fn passes(&self, packet: BlockPacket<'_>) -> bool
        ensures { result ≡ passes self.now (in_block packet.entry) }
    {
        self.takes_interface(packet.interface)
            && self.selection.lengths.holds(u64::from(packet.original_len))
            && self.selection.accepts(packet.bytes, packet.original_len)
    }

    // Returns the verdict on a packet, given the interfaces of its section.
    fn judge_packet(
        &self,
        interfaces: &[InterfaceDescriptionBlock<'static>],
        packet: BlockPacket<'_>,
    ) -> Verdict
        ensures { JudgesPacket self.now (map interface_of interfaces.now) (in_block packet.entry) result }
    {
        if !self.passes(packet) {
            return Verdict::Rejected;
        }
        let Some(times) = self.times else {
            return Verdict::Selected;
        };
        match time_of(interfaces, packet) {
            None => Verdict::WithoutTime,
            Some(time) if times.hold(time) => Verdict::Selected,
            Some(_) => Verdict::Rejected,
        }
    }

    // Returns the verdict on the packet in a body.
    fn judge_body(
        &self,
        interfaces: &[InterfaceDescriptionBlock<'static>],
        parsed: &ParsedBlock<'_>,
    ) -> Verdict
        ensures { JudgesHeld self.now (map interface_of interfaces.now) (packet_in (map interface_of interfaces.now) (body_of parsed.now)) result }
    {
        match packet_in_body(interfaces, parsed) {
            None => Verdict::Malformed,
            Some(packet) => self.judge_packet(interfaces, packet),
        }
    }

    /// Returns the verdict on the packet in a block, given the interfaces of its section.
    ///
    /// `OutOfMemory` if there is no memory for the options of the block.
    pub(crate) fn judge(
        &self,
        alloc: Global,
        interfaces: &[InterfaceDescriptionBlock<'static>],
        block: &Block<'_>,
    ) -> ResultParsing<Verdict>
        ensures judges { IfOk result (λ verdict. Judges self.now (map interface_of interfaces.now) (framed_of block.now) verdict) }
        ensures memory { IfErr result IsMemory }
    {
        match parsed_in(alloc, block)? {
            None => Ok(Verdict::Malformed),
            Some(parsed) => Ok(self.judge_body(interfaces, &parsed)),
        }
    }
}

/// Returns the parsed body of a block. Returns None if it is malformed.
///
/// `OutOfMemory` if there is no memory for the options of the block.
pub(super) fn parsed_in<'a>(
    alloc: Global,
    block: &'a Block<'_>,
) -> ResultParsing<Option<ParsedBlock<'a>>>
    ensures read { IfOk result (λ parsed. IsRead (framed_of block.now) parsed) }
    ensures memory { IfErr result IsMemory }
{
    match block.parsed(alloc) {
        Ok(parsed) => Ok(Some(parsed)),
        Err(PcapError::OutOfMemory(error)) => Err(PcapError::OutOfMemory(error)),
        Err(_) => Ok(None),
    }
}

// Returns the time that is `units` units of an interface's clock, if the interface is described.
fn time_by(interface: Option<&InterfaceDescriptionBlock<'static>>, units: u64) -> Option<Timestamp>
    ensures { IsClockTime (option_map (λ i. interface_of i.now) interface.entry) units result }
{
    match interface {
        None => None,
        Some(interface) => Some(interface.timestamp(units)),
    }
}

// Returns the time of a packet in a block, if it has one, given the interfaces of its section.
fn time_of(
    interfaces: &[InterfaceDescriptionBlock<'static>],
    packet: BlockPacket<'_>,
) -> Option<Timestamp>
    ensures { IsTimeIn (map interface_of interfaces.now) packet.entry.interface packet.entry.units result }
{
    match packet.units {
        None => None,
        Some(units) => time_by(interface_at(interfaces, packet.interface), units),
    }
}

// Returns the time of the packet in a body, if it has one, given the interfaces of its section.
fn body_time(
    interfaces: &[InterfaceDescriptionBlock<'static>],
    parsed: &ParsedBlock<'_>,
) -> Option<Timestamp>
    ensures { IsHeldTime (map interface_of interfaces.now) (packet_in (map interface_of interfaces.now) (body_of parsed.now)) result }
{
    match packet_in_body(interfaces, parsed) {
        None => None,
        Some(packet) => time_of(interfaces, packet),
    }
}

/// Returns the time of the packet in a block, if it has one, given the interfaces of its section.
///
/// `OutOfMemory` if there is no memory for the options of the block.
pub(super) fn block_time(
    alloc: Global,
    interfaces: &[InterfaceDescriptionBlock<'static>],
    block: &Block<'_>,
) -> ResultParsing<Option<Timestamp>>
    ensures time { IfOk result (λ time. IsBlockTime (map interface_of interfaces.now) (framed_of block.now) time) }
    ensures memory { IfErr result IsMemory }
{
    match parsed_in(alloc, block)? {
        None => Ok(None),
        Some(parsed) => Ok(body_time(interfaces, &parsed)),
    }
}
