//! Placing the packets of blocks in a classic capture, as the blocks are made.

ghost use Rattle.std.specs.Prelude.{None};

use crate::converting::header_under;
use crate::left_out::{LeftOut, type_of};
use pcap_file::run::{IfUnplaced, convert_to_pcap};
use pcap_file::{Endianness, PcapNgReader, PcapWriter, ResultParsing};
use pcapfile_run::holds_packet;
use std::alloc::Global;
use std::io;
use std::io::{Read, Write};

/// Bytes of blocks that were made.
#[derive(Drop)]
struct Made {
    bytes: Vec<u8>,
    /// The number of bytes that were read.
    passed: usize,
}

impl Made {
    // Puts the bytes of the next blocks in place of those that were read.
    fn put(&mut self, blocks: &[u8]) -> ResultParsing<()> {
        self.bytes.clear();
        self.passed = 0;
        self.bytes.extend_from_slice(blocks)?;
        Ok(())
    }
}

impl Read for Made {
    ghost remaining = { λ made. None };

    fn read(&mut self, buf: &mut [u8]) -> io::Result<usize> {
        let left = self.bytes.get(self.passed..).unwrap_or_default();
        let count = left.len().min(buf.len());
        buf[..count].copy_from_slice(&left[..count]);
        self.passed = self.passed.saturating_add(count);
        Ok(count)
    }
}

/// A classic capture that takes the packets of little-endian blocks under the link type of their first interface. It is written as the
/// blocks are made, and keeps none of them.
#[derive(Drop)]
pub(crate) struct Placing<W> {
    alloc: Global,
    reader: PcapNgReader<Made>,
    /// The number of bytes of the blocks that were made and are not placed.
    waiting: usize,
    /// The output, until the first interface is known.
    output: Option<W>,
    /// The writer after that.
    writer: Option<PcapWriter<W>>,
    snaplen: u32,
    left_out: LeftOut,
}

impl<W: Write + Drop> Placing<W> {
    /// Returns a classic capture with this snapshot length, for the blocks after this section header.
    pub(crate) fn after(
        alloc: Global,
        section: &[u8],
        output: W,
        snaplen: u32,
    ) -> ResultParsing<Placing<W>> {
        let made = Made {
            bytes: Vec::from_slice(alloc, section)?,
            passed: 0,
        };
        let reader = PcapNgReader::new(alloc, made)?;
        let mut left_out = LeftOut::default();
        left_out.note_section(&reader);
        Ok(Placing {
            alloc,
            reader,
            waiting: 0,
            output: Some(output),
            writer: None,
            snaplen,
            left_out,
        })
    }

    /// Places the packets of the next blocks. A packet without a time has no place.
    pub(crate) fn place(&mut self, blocks: &[u8], has_no_time: bool) -> ResultParsing<()> {
        if has_no_time && is_packet(blocks) {
            self.left_out.add_packets(1);
            return Ok(());
        }
        self.reader.get_mut().put(blocks)?;
        self.waiting = blocks.len();
        for _ in 0..u64::MAX {
            if self.waiting == 0 {
                break;
            }
            self.place_next()?;
        }
        Ok(())
    }

    // Places the packet of the next block, or skips a block before the first interface.
    fn place_next(&mut self) -> ResultParsing<()> {
        let Some(writer) = &mut self.writer else {
            return self.pass_next();
        };
        let placed = convert_to_pcap(
            self.alloc,
            &mut self.reader,
            writer,
            IfUnplaced::LeaveOut,
            1,
        );
        if let Some(error) = placed.fault {
            return Err(error);
        }
        if placed.blocks == 0 {
            self.waiting = 0;
            return Ok(());
        }
        self.count(placed.packets > 0);
        Ok(())
    }

    // Skips a block, or begins the capture behind the first interface. Packets before it have no place.
    fn pass_next(&mut self) -> ResultParsing<()> {
        let Some(header) = self.reader.next_header() else {
            self.waiting = 0;
            return Ok(());
        };
        let _header = header?;
        let Some(first) = self.reader.interfaces().first() else {
            self.count(false);
            return Ok(());
        };
        self.left_out.note_interface(first);
        self.pass();
        self.begin()
    }

    // Writes the header of the capture.
    fn begin(&mut self) -> ResultParsing<()> {
        let Some(output) = self.output.take() else {
            return Ok(());
        };
        let mut header = header_under(self.reader.interfaces());
        header.snaplen = self.snaplen;
        self.writer = Some(PcapWriter::with_header(header, output)?);
        Ok(())
    }

    // Counts the block that the reader lends, whose packet was placed if this is set.
    fn count(&mut self, is_placed: bool) {
        self.left_out.count(&self.reader, is_placed);
        self.pass();
    }

    // Notes that the block that the reader lends is placed or left out.
    fn pass(&mut self) {
        self.waiting = self.waiting.saturating_sub(self.reader.text().len());
    }

    /// Ends the capture, and returns what was left out of it. Interfaces that were made of the headers of classic captures don't count.
    pub(crate) fn end(mut self, of_headers: u64) -> ResultParsing<LeftOut> {
        self.begin()?;
        let Placing {
            writer,
            mut left_out,
            ..
        } = self;
        if let Some(writer) = writer {
            writer.into_writer().flush()?;
        }
        left_out.forget_interfaces(of_headers);
        Ok(left_out)
    }
}

// Returns whether these bytes begin with the block of a packet.
fn is_packet(blocks: &[u8]) -> bool {
    match type_of(Endianness::Little, blocks) {
        None => false,
        Some(type_) => holds_packet(type_),
    }
}
