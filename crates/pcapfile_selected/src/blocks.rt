//! PcapNg captures that are read part by part.

ghost use Rattle.std.specs.Prelude.{◌≡◌, length};
ghost use Rattle.pcapfile_selected.specs.SelectedBlocks.{CountsBlock, CountsBytes, OpensBlocks, TriesPart, WritesSelected, exceptions_of, place_of, report};
ghost use Rattle.pcapfile_selected.specs.SpanBlocks.{WritesSpan};
ghost use Rattle.pcapfile_cut.specs.Cuts.{IsNew};

mod changed;
mod deciding;
mod judging;
mod selected;
mod spanned;

use crate::selecting::Tests;
use crate::source::{Exceptions, Source};
use crate::spans::Spans;
pub(crate) use judging::{BlockTests, Times};
use pcap_file::{PcapNgReader, ResultParsing};
use pcapfile_cut::{Outcome, Wanted};
pub(crate) use selected::Choosing;
use std::alloc::Global;
use std::io;
use std::io::{Read, Write};

/// A PcapNg capture that is read part by part.
#[derive(Drop)]
pub struct BlockSource<R> {
    pub(crate) blocks: pcapfile_cut::BlockCutter<R>,
    /// How many packets were left out or treated otherwise than the user asked.
    exceptions: Exceptions,
}

impl<R: Read + Drop> BlockSource<R> {
    /// Reads the first section header.
    ///
    /// The errors are those of `PcapNgReader::new`.
    pub fn new(alloc: Global, input: R) -> ResultParsing<BlockSource<R>>
        ensures { OpensBlocks R.remaining input result }
    {
        Ok(BlockSource {
            blocks: pcapfile_cut::BlockCutter::new(alloc, input)?,
            exceptions: Exceptions::default(),
        })
    }

    /// Returns the reader, which lends the block that was read last.
    pub(crate) fn reader(&self) -> &PcapNgReader<R> {
        self.blocks.reader()
    }

    /// Returns the bytes of the blocks with which a part at this position begins.
    pub fn in_force(&self) -> &[u8]
        ensures { result.now ≡ (place_of R.remaining self.now).opening }
    {
        self.blocks.opening()
    }

    /// Writes one part: the opening at this position, and all blocks after it up to the last wanted number, except packets that fail a test
    /// or are duplicates. The packets are changed as the user asks. The opening is that before the packet of the first wanted number.
    ///
    /// Without an error, no block is left, or no further packet is wanted. For a truncated or malformed block the error is that of
    /// `PcapNgReader`, and the blocks before it were written. `IoError` also if a write failed. `OutOfMemory` also if a block's options or
    /// a changed block can't be held.
    pub fn cut_selected<W: Write>(
        &mut self,
        alloc: Global,
        output: &mut W,
        tests: Tests<'_>,
    ) -> Outcome
        ensures { WritesSelected tests.entry (place_of R.remaining self.old) (place_of R.remaining self.new) (W.contents output.old)
            (W.contents output.new) (report result (exceptions_of self.new)) }
    {
        let mut outcome = Outcome::none();
        outcome.fault = self.put_tested(alloc, output, tests, &mut outcome).err();
        outcome.read_failed = self.blocks.reader().failed();
        self.exceptions.duplicates = outcome.duplicates;
        outcome
    }

    // Writes the opening at this position, and the packets after it that pass the tests.
    fn put_tested<W: Write>(
        &mut self,
        alloc: Global,
        output: &mut W,
        tests: Tests<'_>,
        outcome: &mut Outcome,
    ) -> ResultParsing<()>
        requires { IsNew outcome.old }
        ensures { TriesPart tests.entry (place_of R.remaining self.old) (place_of R.remaining self.new) (W.contents output.old)
            (W.contents output.new) (report outcome.new (exceptions_of self.new)) result }
    {
        let mut choosing = Choosing::new(alloc, tests)?;
        let done = self.put_selected(alloc, output, tests.first(), &mut choosing, outcome);
        self.exceptions = choosing.exceptions();
        done
    }
}

impl<R: Read + Drop> Source for BlockSource<R> {
    fn write_part<W: Write>(
        &mut self,
        alloc: Global,
        output: &mut W,
        wanted: Wanted<'_>,
        others_follow: bool,
    ) -> Outcome {
        self.blocks.cut(output, wanted, others_follow)
    }

    fn write_span<W: Write>(&mut self, alloc: Global, output: &mut W, spans: &mut Spans) -> Outcome
        ensures { WritesSpan spans.old spans.new (place_of R.remaining self.old) (place_of R.remaining self.new) (W.contents output.old)
            (W.contents output.new) result }
    {
        let mut outcome = Outcome::none();
        let done = self.put_span(alloc, output, spans, &mut outcome);
        outcome.fault = done.err();
        outcome.read_failed = self.blocks.reader().failed();
        outcome
    }

    fn write_selected<W: Write>(
        &mut self,
        alloc: Global,
        output: &mut W,
        tests: Tests<'_>,
    ) -> Outcome {
        self.cut_selected(alloc, output, tests)
    }

    fn is_at_end(&mut self) -> io::Result<bool> {
        Ok(self.blocks.is_all_in_parts())
    }

    fn exceptions(&self) -> Exceptions {
        self.exceptions
    }

    fn opening_len(&self) -> u64 {
        self.in_force().len() as u64
    }
}

// Counts the bytes of a block.
fn pass_text(text: &[u8], outcome: &mut Outcome)
    ensures { CountsBytes (length text.now) outcome.old outcome.new }
{
    outcome.bytes = outcome.bytes.saturating_add(text.len() as u64);
}

// Counts a block, and its packet if it holds one.
fn count_block(has_packet: bool, text: &[u8], outcome: &mut Outcome)
    ensures { CountsBlock has_packet (length text.now) outcome.old outcome.new }
{
    outcome.packets = outcome.packets.saturating_add(u64::from(has_packet));
    pass_text(text, outcome);
}
