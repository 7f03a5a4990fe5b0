//! Blocks of a PcapNg capture, lent from the reader's buffer without a copy.

ghost use Rattle.std.specs.Prelude.{◌≡◌, false, map, None, IfSome};
ghost use Rattle.std.specs.Io.Buffered.{reader_remaining};
ghost use Rattle.pcap_core.specs.Answer.{number_in};
ghost use Rattle.pcap_blocks.specs.InterfaceDescription.{interface_of};
ghost use Rattle.pcap_ng.specs.Reader.{state_of};
ghost use Rattle.pcap_file.specs.Placing as readers;
ghost use Rattle.pcapfile_merge.specs.BufferedBlocks.{LiesThere, PlainText, body_of, interfaces_of, left_out_of, progress_of};
ghost use Rattle.pcapfile_merge.specs.LeavingOut.{nothing, options_at, with_section, without_options};

use crate::kept::Kept;
use crate::left_out::{LeftOut, options_of};
use crate::made::Made;
use crate::parts::{behind, front};
use byteorder::{BigEndian, ByteOrder, LittleEndian};
use pcap_file::pcapng::InterfaceDescriptionBlock;
use pcap_file::pcapng::enhanced::{EnhancedNumbers, split_body, split_frame};
use pcap_file::{Endianness, PcapNgReader};
use std::alloc::Global;
use std::io::{BufRead, BufReader, Read};

/// The bytes of a block before its body.
const BEFORE: usize = 8;

/// The bytes of a block before and after its body.
const AROUND: usize = 12;

/// A reader of the blocks of a capture, with a buffer. It lends an enhanced packet without options that is whole in the buffer from
/// there, without a copy. It holds other blocks.
pub struct BufferedBlocks<R> {
    pub(crate) reader: PcapNgReader<BufReader<R>>,
    pub(crate) shown: Option<usize>,
    pub(crate) made: Made,
    pub(crate) kept: Kept,
}

// It is written out, so that crates above this one call it and prove no drop of the fields.
impl<R: Drop> Drop for BufferedBlocks<R> {
    fn drop(self) {
        let BufferedBlocks {
            reader: _,
            shown: _,
            made: _,
            kept: _,
        } = self;
    }
}

impl<R> BufferedBlocks<R> {
    /// Returns the interfaces of the current section, so far.
    pub fn interfaces(&self) -> &[InterfaceDescriptionBlock<'static>]
        ensures { map interface_of result.now ≡ interfaces_of self.now }
    {
        self.reader.interfaces()
    }

    /// Returns how many of the blocks taken so far were left out, and how many options of the section headers so far.
    pub fn left_out(&self) -> LeftOut
        ensures { result ≡ left_out_of self.now }
    {
        self.kept.left_out
    }
}

impl<R> BufferedBlocks<R> {
    /// Returns how many options the header of the current section has.
    pub fn options(&self) -> usize
        ensures { result ≡ options_at (state_of self.now.reader) }
    {
        options_of(self.reader.section())
    }

    /// Takes the options of the section headers so far away from what is left out. The caller has written them.
    pub fn keep_options(&mut self)
        ensures reader { self.new.reader ≡ self.old.reader }
        ensures lent { body_of self.new ≡ body_of self.old }
        ensures counts { self.new.kept ≡ record self.old.kept { left_out = without_options (left_out_of self.old) } }
    {
        self.kept.left_out.keep_options();
    }
}

impl<R: Read + Drop> BufferedBlocks<R> {
    /// Makes a reader of the blocks after those that `reader` took.
    pub fn new(alloc: Global, reader: PcapNgReader<BufReader<R>>) -> BufferedBlocks<R>
        ensures { progress_of R.remaining result ≡ record {
          source = readers.source_of (reader_remaining R.remaining) reader;
          kept = record { left_out = with_section (options_at (state_of reader)) nothing; before = 0; all = 0 };
        } }
    {
        let options = options_of(reader.section());
        BufferedBlocks {
            reader,
            shown: None,
            made: Made::new(alloc),
            kept: Kept::new(options),
        }
    }

    // Removes the lent block from the buffer.
    #[inline(always)]
    pub(crate) fn let_go(&mut self)
        ensures source { progress_of R.remaining self.new ≡ progress_of R.remaining self.old }
        ensures nothing { self.new.shown ≡ None }
        ensures unmade { self.new.made.is_lent ≡ false }
    {
        if let Some(used) = self.shown {
            self.reader.get_mut().consume(used);
        }
        self.shown = None;
        self.made.is_lent = false;
    }

    // Returns the numbers of the enhanced packet without options that is whole at the start of the buffer, and the size of its block in
    // bytes.
    #[inline(always)]
    pub(crate) fn packet_there(&self) -> Option<(EnhancedNumbers, usize)>
        ensures { IfSome result (λ found. LiesThere self.now found.0 found.1) }
    {
        let shown = self.reader.get_ref().buffer();
        let order = self.reader.section().endianness();
        let (after, packet) = plain_at(order, shown)?;
        Some((packet, shown.len() - after.len()))
    }

    /// Returns the body of the block that was taken last, or the text of the block that was made of it.
    #[inline(always)]
    pub fn body(&self) -> &[u8]
        ensures { result.now ≡ body_of self.now }
    {
        if self.made.is_lent {
            return self.made.text.as_slice();
        }
        match self.shown {
            None => self.reader.body(),
            Some(used) => {
                let text = front(self.reader.get_ref().buffer(), used);
                front(behind(text, BEFORE), text.len().saturating_sub(AROUND))
            }
        }
    }
}

// Returns the enhanced packet without options at the start of a slice, and the bytes after its block. Returns None if no such block is
// whole there.
#[inline(always)]
fn plain_at(order: Endianness, slice: &[u8]) -> Option<(&[u8], EnhancedNumbers)>
    ensures { IfSome result (λ x. PlainText order x.1 slice.now x.0.now) }
{
    match order {
        Endianness::Big => plain_in::<BigEndian>(order, slice),
        Endianness::Little => plain_in::<LittleEndian>(order, slice),
    }
}

// Does the same for one byte order.
#[inline(always)]
fn plain_in<B: ByteOrder>(order: Endianness, slice: &[u8]) -> Option<(&[u8], EnhancedNumbers)>
    requires { number_in order ≡ B.number_of }
    ensures { IfSome result (λ x. PlainText order x.1 slice.now x.0.now) }
{
    let (body, rest) = split_frame::<B>(order, slice)?;
    let parts = split_body::<B>(body)?;
    if !parts.options.is_empty() {
        return None;
    }
    Some((
        rest,
        EnhancedNumbers {
            interface: parts.interface,
            units: parts.units,
            stored: parts.bytes.len(),
            original: parts.original,
        },
    ))
}
