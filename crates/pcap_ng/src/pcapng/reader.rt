//! A reader of the blocks of a stream.

ghost use Rattle.std.specs.Prelude.{◌≡◌, false, [], IfOk, IfSome, map, option_map, slice_get};
ghost use Rattle.std.specs.Borrow.{sem, Lends};
ghost use Rattle.pcap_core.specs.Bytes.{IsOwned};
ghost use Rattle.pcap_items.specs.Reading.{NextGives};
ghost use Rattle.pcap_blocks.specs.InterfaceDescription.{interface_of};
ghost use Rattle.pcap_blocks.specs.SectionHeader.{section_of};
ghost use Rattle.pcap_ng.specs.Blocks.{item_of, block_format};
ghost use Rattle.pcap_ng.specs.Frames.{framed_of};
ghost use Rattle.pcap_ng.specs.Lent.{framed_around};

use crate::pcapng::block::Block;
use crate::pcapng::block_header::BlockHeader;
use crate::pcapng::state::InForce;
use crate::pcapng::taking::{hold, open, pull};
use pcap_blocks::{EnhancedPacketBlock, InterfaceDescriptionBlock, SectionHeaderBlock};
use pcap_core::ResultParsing;
use pcap_items::stream::Held;
use std::alloc::Global;
use std::io::Read;

/// Reads the blocks of a capture from a stream, one for each call of `next`, or of `next_header`, which needs no separate memory
/// for each block. The first section header isn't one of these blocks: it is the section in force from the start.
///
/// Both return None if the stream ends between blocks, and the next call reads the stream again. After their first error they
/// always return None. Between blocks, exactly the bytes of the blocks were taken. A call that fails has taken no more than was
/// missing, and leaves the section and its interfaces unchanged. A loop needs a bound to be proved, as a loop over packets does.
#[derive(Drop)]
pub struct PcapNgReader<T> {
    alloc: Global,
    in_force: InForce,
    inner: T,
    has_failed: bool,
    held: Held,
    is_done: bool,
    ghost unfailed: { is_done ≡ false → has_failed ≡ false },
}

impl<T: Read + Drop> PcapNgReader<T> {
    ghost use Rattle.pcap_items.specs.Lent.{LendsText};
    ghost use Rattle.pcap_ng.specs.Reader.{state_of, stream_of, has_failed, is_done, text_of, lent_item, OpensReader, StaysUnlessGiven};

    /// Reads the first block of a stream, which must be a section header, and makes a reader of the blocks after it. The reader
    /// lends the bytes of the section header (`text`). A call that fails drops the stream.
    ///
    /// Returns the errors of `PcapNgParser::new` except `IncompleteBuffer`. Returns `IoError` if the stream ended early or a read
    /// failed, and `OutOfMemory` if something can't grow.
    pub fn new(alloc: Global, mut reader: T) -> ResultParsing<PcapNgReader<T>>
        ensures { OpensReader T.remaining reader result }
    {
        let mut has_failed = false;
        let mut held = Held::new(alloc);
        let in_force = open(alloc, &mut reader, &mut has_failed, &mut held)?;
        Ok(PcapNgReader {
            alloc,
            in_force,
            inner: reader,
            has_failed,
            held,
            is_done: false,
        })
    }

    /// Reads the next block and returns its header. The reader lends the block (`block`, `body`, `text`) until it is called
    /// again. So a block needs no memory of its own, except a section header or an interface description, which stays in force.
    /// Otherwise the method behaves as `next`.
    ///
    /// Returns `InvalidField` for the first rule that the block's frame breaks. In a section header or an interface description,
    /// the first fault of the body is an error too: `InvalidField`, `Utf8Error` or `IoError`. Returns `IoError` if a read failed
    /// or the stream ended inside the block. Returns `OutOfMemory` if the block's bytes can't be held, or what stays in force
    /// can't be kept. The buffer grows with the bytes that come, and keeps its size.
    ///
    /// ```
    /// for _ in 0..u64::MAX {
    ///     let Some(header) = reader.next_header() else {
    ///         break;
    ///     };
    ///     if let ParsedBlock::EnhancedPacket(packet) = reader.block(header?).parsed(alloc)? {
    ///         println!(rt; "{} of {} bytes", packet.data_.len(), packet.original_len)?;
    ///     }
    /// }
    /// ```
    pub fn next_header(&mut self) -> Option<ResultParsing<BlockHeader>>
        ensures stays { StaysUnlessGiven (state_of self.old) (state_of self.new) result }
        ensures next { NextGives (block_format.says (state_of self.old)) (lent_item self.new) (T.remaining (stream_of self.old))
            (T.remaining (stream_of self.new)) (is_done self.old) (is_done self.new) (has_failed self.old) (has_failed self.new) result }
        ensures text { LendsText (block_format.says (state_of self.old))
            (lent_item self.new) (T.remaining (stream_of self.old)) (T.remaining (stream_of self.new)) (text_of self.new) result }
    {
        self.held.clear();
        if self.is_done {
            return None;
        }
        let header = hold(
            self.alloc,
            &mut self.in_force,
            &mut self.inner,
            &mut self.has_failed,
            &mut self.held,
        );
        self.is_done = header.is_err();
        if self.is_done {
            self.held.clear();
        }
        header.transpose()
    }
}

impl<T> PcapNgReader<T> {
    ghost use Rattle.pcap_core.specs.Bytes.{IsBorrowed};
    ghost use Rattle.pcap_ng.specs.contracts.pcapng.reader.PcapNgReader.{the_row as reader-row};
    ghost use Rattle.pcap_ng.specs.LentStreams.{reader_with};
    ghost use Rattle.pcap_ng.specs.Reader.{stream_of, has_failed, text_of, body_of, section_in_force, interfaces_in_force};

    /// Returns all bytes of the block whose header `next_header` returned last, from its type to the length after its body, as
    /// they were in the stream. Before the first call these are the bytes of the first section header. The slice is empty if the
    /// last call returned no header, and after a call of `next`.
    ///
    /// Blocks that are written this way are a part of the capture byte for byte, if the section and all its interfaces are among
    /// them:
    ///
    /// ```
    /// output.write_all(reader.text())?;
    /// for _ in 0..u64::MAX {
    ///     let Some(header) = reader.next_header() else {
    ///         break;
    ///     };
    ///     if header?.type_ != BlockType::NameResolution {
    ///         output.write_all(reader.text())?;
    ///     }
    /// }
    /// ```
    pub fn text(&self) -> &[u8]
        ensures { result.now ≡ text_of self.now }
    {
        self.held.as_slice()
    }

    /// Returns the body of the block whose `text` the reader lends.
    pub fn body(&self) -> &[u8]
        ensures { result.now ≡ body_of self.now }
    {
        let bytes = self.text();
        if bytes.len() < 12 {
            return &[];
        }
        let (_head, after) = bytes.split_at(8);
        let (body, _len) = after.split_at(bytes.len() - 12);
        body
    }

    /// Returns the block whose header `next_header` returned last, with its body lent by the reader.
    pub fn block(&self, header: BlockHeader) -> Block<'_>
        ensures block { framed_of result ≡ framed_around header (body_of self.now) }
        ensures borrowed { IsBorrowed result.body }
    {
        header.around(self.body())
    }

    /// Returns the section in force.
    pub fn section(&self) -> &SectionHeaderBlock<'static>
        ensures { section_of result.now ≡ section_in_force self.now }
    {
        self.in_force.section()
    }

    /// Returns the interfaces of the section in force, so far.
    pub fn interfaces(&self) -> &[InterfaceDescriptionBlock<'static>]
        ensures { map interface_of result.now ≡ interfaces_in_force self.now }
    {
        self.in_force.interfaces()
    }

    /// Returns the interface on which a packet was captured: the one with the packet's number among those of the section in
    /// force. None if there is no such interface.
    pub fn packet_interface(
        &self,
        packet: &EnhancedPacketBlock,
    ) -> Option<&InterfaceDescriptionBlock<'static>>
        ensures { option_map (λ interface. interface_of interface.now) result ≡ slice_get (interfaces_in_force self.now) packet.now.interface_id }
    {
        self.in_force.interface(packet.interface_id)
    }

    /// Returns a reference to the wrapped stream.
    pub fn get_ref(&self) -> &T
        ensures { result.now ≡ stream_of self.now }
    {
        &self.inner
    }

    /// Returns a mutable reference to the wrapped stream. Bytes that the caller takes from it directly are no blocks of this
    /// reader, and leave what is in force unchanged.
    pub fn get_mut(&mut self) -> &mut T
        ensures value { result.now ≡ stream_of self.old }
        ensures* writes_back { sem 𝓛 (Lends (reader-row T.row) T.row self.entry result (reader_with self.old)) }
    {
        &mut self.inner
    }

    /// Returns whether a read of the wrapped stream failed.
    pub fn failed(&self) -> bool
        ensures { result ≡ has_failed self.now }
    {
        self.has_failed
    }
}

impl<T: Read + Drop> Iterator for PcapNgReader<T> {
    ghost use Rattle.pcap_ng.specs.Reader.{state_of, stream_of, has_failed, is_done, text_of, StaysUnlessGiven};

    type Item = ResultParsing<Block<'static>>;

    ghost next_gives = { λ s r t. StaysUnlessGiven (state_of s) (state_of t) r
        × NextGives (block_format.says (state_of s)) (item_of (state_of t))
        (T.remaining (stream_of s)) (T.remaining (stream_of t)) (is_done s) (is_done t) (has_failed s) (has_failed t) r
        × (text_of t ≡ []) × IfSome r (λ given. IfOk given (λ block. IsOwned block.body)) };

    fn next(&mut self) -> Option<ResultParsing<Block<'static>>> {
        self.held.clear();
        if self.is_done {
            return None;
        }
        let taken = pull(
            self.alloc,
            &mut self.in_force,
            &mut self.inner,
            &mut self.has_failed,
            &mut self.held,
        );
        match taken {
            Ok(None) => None,
            Ok(Some(block)) => Some(Ok(block)),
            Err(e) => {
                self.is_done = true;
                self.held.clear();
                Some(Err(e))
            }
        }
    }
}
