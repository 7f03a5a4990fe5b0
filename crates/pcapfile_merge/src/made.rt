//! Blocks that are made for the output: packets with options, interfaces, and blocks without a packet that are kept.

ghost use Rattle.std.specs.Prelude.{◌≡◌, ◌≤◌, false, length, true, IfOk};
ghost use Rattle.pcap_blocks.specs.EnhancedPacket.{enhanced_of};
ghost use Rattle.pcap_blocks.specs.ParsedBlock.{body_of};
ghost use Rattle.pcap_ng.specs.Frames.{framed_of};
ghost use Rattle.pcapfile_merge.specs.Making.{DescribesText, KeepsText, MakesText, NumbersBody, PutsNumbered, PutsText, PutsWhole, WritesText};

use crate::kept::{first_number, is_statistics, put_kept, put_statistics};
use crate::numbers::number_of;
use crate::packet::{MOST, Pending};
use crate::reordered::renumbered;
use pcap_file::pcapng::{Block, EnhancedPacketBlock, ParsedBlock, Timestamp};
use pcap_file::{Endianness, PcapError, ResultParsing};
use pcap_written::{PcapNgBlock, encode};
use std::alloc::Global;

/// The text of a block that was made, and the buffer for its body.
#[derive(Drop)]
pub(crate) struct Made {
    /// Whether the held packet or block is written as this text.
    pub(crate) is_lent: bool,
    pub(crate) text: Vec<u8>,
    body: Vec<u8>,
}

impl Made {
    // Returns the buffers before any block is made.
    pub(crate) fn new(alloc: Global) -> Made
        ensures { result.is_lent ≡ false }
    {
        Made {
            is_lent: false,
            text: Vec::new(alloc),
            body: Vec::new(alloc),
        }
    }

    // Makes the little-endian block of an enhanced packet of a section of this order, with all its options and with the interface number
    // of `pending`. The time and the count of `pending` stay.
    pub(crate) fn put(
        &mut self,
        alloc: Global,
        order: Endianness,
        packet: EnhancedPacketBlock<'_>,
        pending: Pending,
    ) -> ResultParsing<Pending>
        ensures makes { MakesText order pending (enhanced_of packet.entry) self.new result }
        ensures few { IfOk result (λ made. made.len ≤ 4294967260) }
    {
        let packet = renumbered(alloc, order, pending.number, packet)?;
        self.write(&packet)?;
        Ok(self.lent(pending.time, false, pending.left_out))
    }

    // Makes the little-endian block of an interface.
    pub(crate) fn describe(&mut self, parsed: &ParsedBlock<'_>) -> ResultParsing<Pending>
        ensures describes { DescribesText (body_of parsed.now) self.new result }
        ensures few { IfOk result (λ made. made.len ≤ 4294967260) }
    {
        self.write(parsed)?;
        Ok(self.lent(None, true, 0))
    }

    // Makes the text of a block without a packet that is kept. The interfaces of its section have these numbers in the output.
    pub(crate) fn keep(&mut self, numbers: &[u64], block: &Block) -> ResultParsing<Pending>
        ensures keeps { KeepsText numbers.now (framed_of block.now) self.new result }
        ensures few { IfOk result (λ made. made.len ≤ 4294967260) }
    {
        self.put_block(numbers, block)?;
        Ok(self.lent(None, false, 0))
    }

    // Replaces the text by the little-endian text of a block, and lends it.
    fn write<B: PcapNgBlock>(&mut self, block: &B) -> ResultParsing<()>
        ensures { WritesText (B.sees block.now) self.new result }
    {
        if let Err(unput) = encode(Endianness::Little, &mut self.body, &mut self.text, block) {
            return Err(PcapError::from(unput));
        }
        if self.text.len() > MOST {
            return Err(PcapError::InvalidField("Block: a block that is too long"));
        }
        self.is_lent = true;
        Ok(())
    }

    // Replaces the text by that of a block without a packet that is kept, and lends it.
    fn put_block(&mut self, numbers: &[u64], block: &Block) -> ResultParsing<()>
        ensures { PutsText numbers.now (framed_of block.now) self.new result }
    {
        if is_statistics(block.type_) {
            return self.put_numbered(numbers, block);
        }
        self.put_whole(block)
    }

    // Does the same for statistics.
    #[tactic(auto, using(crate::proofs::Keeping::first_long))]
    fn put_numbered(&mut self, numbers: &[u64], block: &Block) -> ResultParsing<()>
        ensures { PutsNumbered numbers.now (framed_of block.now) self.new result }
    {
        let Some(number) = statistics_number(numbers, block.body.as_slice()) else {
            return Err(PcapError::InvalidField("Block: too many interfaces"));
        };
        put_statistics(block, number, &mut self.body, &mut self.text)?;
        self.is_lent = true;
        Ok(())
    }

    // Does the same for another block.
    fn put_whole(&mut self, block: &Block) -> ResultParsing<()>
        ensures { PutsWhole (framed_of block.now) self.new result }
    {
        put_kept(block, &mut self.body, &mut self.text)?;
        self.is_lent = true;
        Ok(())
    }

    // Returns the facts about the lent block.
    fn lent(&self, time: Option<Timestamp>, is_interface: bool, left_out: u64) -> Pending
        ensures { result ≡ record {
          number = 0;
          time = time;
          units = 0;
          original_len = 0;
          start = 0;
          len = length self.now.text.items;
          is_made = true;
          is_interface = is_interface;
          left_out = left_out;
        } }
    {
        Pending {
            number: 0,
            time,
            units: 0,
            original_len: 0,
            start: 0,
            len: self.text.len(),
            is_made: true,
            is_interface,
            left_out,
        }
    }
}

// Returns the output's number of the interface to which statistics with this body belong, if it has one.
fn statistics_number(numbers: &[u64], body: &[u8]) -> Option<u32>
    ensures { NumbersBody numbers.now body.now result }
{
    let interface = first_number(body)?;
    number_of(numbers, interface)
}
