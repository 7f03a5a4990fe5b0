//! Which of the packets in blocks are written.

ghost use Rattle.std.specs.Prelude.{◌≡◌, IfErr, IfOk, map};
ghost use Rattle.pcap_core.specs.Errors.{IsMemory};
ghost use Rattle.pcap_blocks.specs.InterfaceDescription.{interface_of};
ghost use Rattle.pcap_blocks.specs.ParsedBlock.{body_of};
ghost use Rattle.pcap_ng.specs.Frames.{framed_of};
ghost use Rattle.pcapfile_run.specs.BlockPackets.{packet_in};
ghost use Rattle.pcapfile_selected.specs.Deciding.{Compares, ComparesHeld, CountsDecision, Decides, LeavesOut, is_written, reads_packets};

use super::judging::{BlockTests, Verdict, parsed_in};
use pcap_file::ResultParsing;
use pcap_file::pcapng::{Block, InterfaceDescriptionBlock, ParsedBlock};
use pcapfile_cut::{Outcome, Recent, Selection};
use pcapfile_run::packet_in_body;
use std::alloc::Global;

/// What is done with a packet.
#[derive(Clone, Copy)]
pub(crate) enum Decision {
    /// It is written.
    Written,
    /// It is written, and not compared with others, since the body of its block is malformed.
    Uncompared,
    /// It is left out, since it fails a test.
    Rejected,
    /// It is left out, since the body of its block is malformed and a test reads it.
    Malformed,
    /// It is left out, since it has no time and a test depends on that.
    WithoutTime,
    /// It is left out as a duplicate.
    Duplicate,
}

impl Decision {
    /// Returns whether the packet is written.
    pub(crate) fn is_written(self) -> bool
        ensures { result ≡ is_written self }
    {
        match self {
            Decision::Written | Decision::Uncompared => true,
            Decision::Rejected
            | Decision::Malformed
            | Decision::WithoutTime
            | Decision::Duplicate => false,
        }
    }

    /// Counts a packet that is left out as a duplicate.
    pub(crate) fn count(self, outcome: &mut Outcome)
        ensures { CountsDecision self outcome.old outcome.new }
    {
        if let Decision::Duplicate = self {
            outcome.duplicates = outcome.duplicates.saturating_add(1);
        }
    }
}

/// The tests of packets in blocks, and the selected packets with which the next one is compared.
#[derive(Drop)]
pub(crate) struct Sieve<'a> {
    pub(crate) tests: BlockTests<'a>,
    pub(crate) recent: Recent,
}

impl BlockTests<'_> {
    // Returns whether a test depends on more than a packet's number.
    fn reads_packets(&self) -> bool
        ensures { result ≡ reads_packets self.now }
    {
        let Selection {
            filter,
            lengths,
            ..
        } = self.selection;
        self.times.is_some()
            || filter.is_some()
            || self.interface.is_some()
            || 0 < lengths.first
            || lengths.last < u64::MAX
    }

    // Returns why the packet in a block is left out, if a test leaves it out.
    fn left_out(
        &self,
        alloc: Global,
        interfaces: &[InterfaceDescriptionBlock<'static>],
        block: &Block<'_>,
    ) -> ResultParsing<Option<Decision>>
        ensures leaves { IfOk result (λ reason. LeavesOut self.now (map interface_of interfaces.now) (framed_of block.now) reason) }
        ensures memory { IfErr result IsMemory }
    {
        if !self.reads_packets() {
            return Ok(None);
        }
        Ok(match self.judge(alloc, interfaces, block)? {
            Verdict::Selected => None,
            Verdict::Rejected => Some(Decision::Rejected),
            Verdict::Malformed => Some(Decision::Malformed),
            Verdict::WithoutTime => Some(Decision::WithoutTime),
        })
    }
}

impl Sieve<'_> {
    /// Returns what is done with the packet of this number in a block, given the interfaces of its section. If it passes the tests, it is
    /// recent from now on.
    ///
    /// `OutOfMemory` if there is no memory for the options of the block.
    pub(crate) fn decide(
        &mut self,
        alloc: Global,
        interfaces: &[InterfaceDescriptionBlock<'static>],
        number: u64,
        block: &Block<'_>,
    ) -> ResultParsing<Decision>
        ensures tests { self.new.tests ≡ self.old.tests }
        ensures decides { IfOk result (λ decision. Decides self.old.tests self.old.recent self.new.recent (map interface_of interfaces.now) number
            (framed_of block.now) decision) }
        ensures memory { IfErr result IsMemory }
    {
        if !self.tests.selection.has_number(number) {
            return Ok(Decision::Rejected);
        }
        match self.tests.left_out(alloc, interfaces, block)? {
            Some(reason) => Ok(reason),
            None => compare(
                alloc,
                self.tests.selection.dedup,
                &mut self.recent,
                interfaces,
                block,
            ),
        }
    }
}

// Compares the packet in a block with the recent packets, if duplicates are left out. It is recent from now on.
fn compare(
    alloc: Global,
    dedup: u32,
    recent: &mut Recent,
    interfaces: &[InterfaceDescriptionBlock<'static>],
    block: &Block<'_>,
) -> ResultParsing<Decision>
    ensures compares { IfOk result (λ decision. Compares dedup recent.old recent.new (map interface_of interfaces.now) (framed_of block.now) decision) }
    ensures memory { IfErr result IsMemory }
{
    if dedup == 0 {
        return Ok(Decision::Written);
    }
    match parsed_in(alloc, block)? {
        None => Ok(Decision::Uncompared),
        Some(parsed) => Ok(compare_body(recent, interfaces, &parsed)),
    }
}

// Compares the packet in a body with the recent packets.
fn compare_body(
    recent: &mut Recent,
    interfaces: &[InterfaceDescriptionBlock<'static>],
    parsed: &ParsedBlock<'_>,
) -> Decision
    ensures { ComparesHeld recent.old recent.new (packet_in (map interface_of interfaces.now) (body_of parsed.now)) result }
{
    let Some(packet) = packet_in_body(interfaces, parsed) else {
        return Decision::Uncompared;
    };
    if recent.repeats(packet.original_len, packet.bytes) {
        Decision::Duplicate
    } else {
        Decision::Written
    }
}
