//! Parts of a PcapNg capture that have a span of time.

ghost use Rattle.std.specs.Prelude.{◌≡◌, IfErr, IfOk};
ghost use Rattle.pcap_core.specs.Errors.{IsMemory};
ghost use Rattle.pcap_file.specs.Placed.{is_packet};
ghost use Rattle.pcapfile_cut.specs.BlockCuts.{lent_by};
ghost use Rattle.pcapfile_selected.specs.SelectedBlocks.{place_of};
ghost use Rattle.pcapfile_selected.specs.SpanBlocks.{OpensSpan, SpansBlocks, StepsSpan, TakesLent, span_run};

use super::judging::block_time;
use super::{BlockSource, count_block};
use crate::spans::Spans;
use pcap_file::ResultParsing;
use pcap_file::pcapng::BlockHeader;
use pcap_items::stream::put;
use pcapfile_cut::Outcome;
use pcapfile_run::holds_packet;
use std::alloc::Global;
use std::io::{Read, Write};

impl<R: Read + Drop> BlockSource<R> {
    // Writes the opening at this position, and the blocks before the first packet that the part's span does not take.
    pub(super) fn put_span<W: Write>(
        &mut self,
        alloc: Global,
        output: &mut W,
        spans: &mut Spans,
        outcome: &mut Outcome,
    ) -> ResultParsing<()>
        ensures { OpensSpan (span_run spans.old (W.contents output.old) outcome.old) (span_run spans.new (W.contents output.new) outcome.new)
            (place_of R.remaining self.old) (place_of R.remaining self.new) result }
    {
        put(output, &mut outcome.write_failed, self.in_force())?;
        self.put_all_taken(alloc, output, spans, outcome)
    }

    // Reads and writes blocks until the part's span does not take the next packet.
    fn put_all_taken<W: Write>(
        &mut self,
        alloc: Global,
        output: &mut W,
        spans: &mut Spans,
        outcome: &mut Outcome,
    ) -> ResultParsing<()>
        ensures { SpansBlocks (span_run spans.old (W.contents output.old) outcome.old) (span_run spans.new (W.contents output.new) outcome.new)
            (place_of R.remaining self.old) (place_of R.remaining self.new) result }
    {
        let mut blocks: u64 = 0;
        while blocks < u64::MAX {
            if !self.put_taken(alloc, output, spans, outcome)? {
                return Ok(());
            }
            blocks += 1;
        }
        Ok(())
    }

    // Reads the next block, and writes it if the part takes it. Returns false if there is none, or the part does not take it.
    fn put_taken<W: Write>(
        &mut self,
        alloc: Global,
        output: &mut W,
        spans: &mut Spans,
        outcome: &mut Outcome,
    ) -> ResultParsing<bool>
        ensures { StepsSpan (span_run spans.old (W.contents output.old) outcome.old) (span_run spans.new (W.contents output.new) outcome.new)
            (place_of R.remaining self.old) (place_of R.remaining self.new) result }
    {
        let Some(header) = self.blocks.peek()? else {
            return Ok(false);
        };
        let has_packet = holds_packet(header.type_);
        if !self.takes(alloc, header, has_packet, spans)? {
            return Ok(false);
        }
        let text = self.blocks.reader().text();
        put(output, &mut outcome.write_failed, text)?;
        count_block(has_packet, text, outcome);
        let _ = self.blocks.pass()?;
        Ok(true)
    }

    // Returns whether the part takes the lent block with this header.
    fn takes(
        &self,
        alloc: Global,
        header: BlockHeader,
        has_packet: bool,
        spans: &mut Spans,
    ) -> ResultParsing<bool>
        requires { has_packet ≡ is_packet header.type_ }
        ensures takes { IfOk result (λ is_taken. TakesLent spans.old spans.new (lent_by self.now.blocks header) is_taken) }
        ensures memory { IfErr result (λ e. IsMemory e × (spans.new ≡ spans.old)) }
    {
        if !has_packet {
            return Ok(true);
        }
        let reader = self.blocks.reader();
        let time = block_time(alloc, reader.interfaces(), &reader.block(header))?;
        Ok(spans.takes(time))
    }
}
