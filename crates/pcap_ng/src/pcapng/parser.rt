//! A parser of a capture that comes in slices, or block by block from streams that the caller keeps.

ghost use Rattle.std.specs.Prelude.{◌≡◌, IfOk, IfErr, IfSome, OnErr, map, option_map, slice_get};
ghost use Rattle.pcap_core.specs.Answer.{TellsWhere};
ghost use Rattle.pcap_core.specs.Bytes.{IsBorrowed, IsOwned};
ghost use Rattle.pcap_items.specs.Reading.{Takes, TakesAsked};
ghost use Rattle.pcap_blocks.specs.InterfaceDescription.{interface_of};
ghost use Rattle.pcap_blocks.specs.SectionHeader.{section_of};
ghost use Rattle.pcap_ng.specs.Blocks.{item_of, BlockSays, MayGrow};
ghost use Rattle.pcap_ng.specs.Opening.{OpeningSays, RefusesOpening};
ghost use Rattle.pcap_ng.specs.Parser.{state_of, section_in_force, interfaces_in_force, ReadsBlock};
ghost use Rattle.pcap_ng.specs.State.{opening, StaysUnlessTaken};

use crate::pcapng::block::Block;
use crate::pcapng::state::InForce;
use crate::pcapng::taking::{open, pull};
use pcap_blocks::{EnhancedPacketBlock, InterfaceDescriptionBlock, SectionHeaderBlock};
use pcap_core::{Endianness, ResultParsing};
use pcap_items::stream::Held;
use std::alloc::Global;
use std::io::Read;

/// A parser of a PcapNg capture, which keeps the section in force and its interfaces. It returns one block for each slice or
/// stream that begins with a block.
#[derive(Drop)]
pub struct PcapNgParser {
    alloc: Global,
    in_force: InForce,
}

impl PcapNgParser {
    /// Parses the section header at the front of a slice, and returns the bytes after it and a parser of the blocks there.
    ///
    /// The block is read big-endian, but a section header in the order that its magic number names. Returns `IncompleteBuffer` if
    /// bytes of it are missing. Returns `InvalidField` for the first rule that its frame breaks, then for the fault of its body,
    /// whatever its type, and then if it is no section header. `Utf8Error` and `IoError` are faults of bodies too. Returns
    /// `OutOfMemory` if the block is whole and something can't grow.
    pub fn new(alloc: Global, slice: &[u8]) -> ResultParsing<(&[u8], PcapNgParser)>
        ensures tells { TellsWhere (MayGrow opening slice.now) (OpeningSays slice.now) state_of result }
    {
        let (rest, block) = Block::from_slice(Endianness::Big, slice)?;
        let in_force = InForce::after(alloc, &block)?;
        Ok((rest, PcapNgParser { alloc, in_force }))
    }

    /// Reads the section header at the front of a stream, and returns the parser after it. Exactly that block is taken. A call
    /// that fails has taken no more than was missing.
    ///
    /// Returns the errors of `new` except `IncompleteBuffer`. Returns `IoError` if the stream ended early or a read failed, and
    /// `OutOfMemory` if something can't grow.
    pub fn from_reader<R: Read>(alloc: Global, reader: &mut R) -> ResultParsing<PcapNgParser>
        ensures takes { IfOk result (λ parser. Takes OpeningSays (R.remaining reader.old) (R.remaining reader.new) (state_of parser)) }
        ensures refused { IfErr result (RefusesOpening (R.remaining reader.old)) }
        ensures asked { OnErr result (TakesAsked OpeningSays (R.remaining reader.old) (R.remaining reader.new)) }
    {
        let mut has_failed = false;
        let mut held = Held::new(alloc);
        let in_force = open(alloc, reader, &mut has_failed, &mut held)?;
        Ok(PcapNgParser { alloc, in_force })
    }

    /// Parses the block at the front of a slice, and returns the bytes after it and the block. The block's body is borrowed from
    /// the slice. A section header becomes the section in force, with no interface yet; an interface description adds one
    /// interface.
    ///
    /// Returns `IncompleteBuffer` if bytes are missing, 12 for the empty slice. Returns `InvalidField` for the first rule that
    /// the block's frame breaks. In a section header or an interface description, the first fault of the body is an error too:
    /// `InvalidField`, `Utf8Error` or `IoError`. Returns `OutOfMemory` if a block of these two types is whole and something can't
    /// grow. A call that fails leaves the section and its interfaces unchanged.
    pub fn next_block<'a>(&mut self, slice: &'a [u8]) -> ResultParsing<(&'a [u8], Block<'a>)>
        ensures tells { TellsWhere (MayGrow (state_of self.old) slice.now) (BlockSays (state_of self.old) slice.now) (item_of (state_of self.new)) result }
        ensures borrowed { IfOk result (λ x. IsBorrowed x.1.body) }
        ensures unchanged { OnErr result (state_of self.new ≡ state_of self.old) }
    {
        let (rest, block) = Block::from_slice(self.in_force.order(), slice)?;
        self.in_force.follow(self.alloc, &block)?;
        Ok((rest, block))
    }

    /// Reads the block at the front of a stream, with an owned body. Returns None if the stream ends before it. The block is put
    /// in force as by `next_block`. Exactly its bytes are taken. A call that fails has taken no more than was missing, and leaves
    /// the section and its interfaces unchanged.
    ///
    /// Returns the errors of `next_block` except `IncompleteBuffer`. Returns `IoError` if the stream ended inside the block or a
    /// read failed. Returns `OutOfMemory` if the block's bytes can't be held, or what stays in force can't be kept. Bytes that a
    /// failed call took are lost. The stream is at the next block only after a whole block that is refused.
    pub fn read_block<R: Read>(&mut self, reader: &mut R) -> ResultParsing<Option<Block<'static>>>
        ensures reads { ReadsBlock (state_of self.old) (state_of self.new) (R.remaining reader.old) (R.remaining reader.new) result }
        ensures stays { StaysUnlessTaken (state_of self.old) (state_of self.new) result }
        ensures owned { IfOk result (λ found. IfSome found (λ block. IsOwned block.body)) }
    {
        let mut has_failed = false;
        let mut held = Held::new(self.alloc);
        pull(
            self.alloc,
            &mut self.in_force,
            reader,
            &mut has_failed,
            &mut held,
        )
    }

    /// Returns the section in force.
    pub fn section(&self) -> &SectionHeaderBlock<'static>
        ensures { section_of result.now ≡ section_in_force self.now }
    {
        self.in_force.section()
    }

    /// Returns the interfaces of the section in force, so far.
    pub fn interfaces(&self) -> &[InterfaceDescriptionBlock<'static>]
        ensures { map interface_of result.now ≡ interfaces_in_force self.now }
    {
        self.in_force.interfaces()
    }

    /// Returns the interface on which a packet was captured: the one with the packet's number among those of the section in
    /// force. None if there is no such interface.
    pub fn packet_interface(
        &self,
        packet: &EnhancedPacketBlock,
    ) -> Option<&InterfaceDescriptionBlock<'static>>
        ensures { option_map (λ interface. interface_of interface.now) result ≡ slice_get (interfaces_in_force self.now) packet.now.interface_id }
    {
        self.in_force.interface(packet.interface_id)
    }
}
