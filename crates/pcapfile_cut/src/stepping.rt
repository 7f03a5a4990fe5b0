//! Cutting the selected packets of a classic capture one at a time.

ghost use Rattle.std.specs.Prelude.{◌≡◌, [], false, IsTrue};
ghost use Rattle.pcap_items.specs.Held.{held_bytes};
ghost use Rattle.pcap_classic.specs.Magic.{is_magic};
ghost use Rattle.pcapfile_cut.specs.Duplicates.{most_remembered};

use crate::cutting::{Cut, Outcome, cut_next};
use crate::duplicates::Recent;
use crate::opening::Opening;
use crate::selection::Selection;
use crate::wanted::Wanted;
use pcap_classic::pcap::PcapHeader;
use pcap_core::ResultParsing;
use pcap_items::stream::Held;
use std::alloc::Global;
use std::io::{Read, Write};

/// A cut of the selected packets of a classic capture that is made one packet at a time.
#[derive(Drop)]
pub struct PacketCutter<'a> {
    pub(crate) header: PcapHeader,
    pub(crate) selection: Selection<'a>,
    pub(crate) held: Held,
    pub(crate) recent: Recent,
    pub(crate) outcome: Outcome,
    // Whether a step found the end of the input, or failed.
    pub(crate) has_ended: bool,
    ghost valid: { IsTrue (is_magic header.magic_number) },
    ghost between: { has_ended ≡ false → held_bytes held ≡ [] },
    ghost most: { has_ended ≡ false → most_remembered recent ≡ selection.dedup },
    ghost no_read_failed: { has_ended ≡ false → outcome.read_failed ≡ false },
    ghost no_write_failed: { has_ended ≡ false → outcome.write_failed ≡ false },
}

impl<'a> PacketCutter<'a> {
    ghost use Rattle.std.specs.Prelude.{◌<◌, IfErr, IfOk};
    ghost use Rattle.pcap_core.specs.Errors.{IsMemory};
    ghost use Rattle.pcapfile_cut.specs.Steps.{Begins, StaysThat, StepsOnce, progress_of};

    /// Returns a cut of the selected packets after this opening, which the caller has read. It has read and written nothing.
    ///
    /// `OutOfMemory` if there is no memory for the digests of the packets that duplicates are compared with.
    pub fn new(
        alloc: Global,
        opening: &Opening,
        selection: Selection<'a>,
    ) -> ResultParsing<PacketCutter<'a>>
        ensures begins { IfOk result (λ cutter. Begins opening.now selection.entry cutter) }
        ensures memory { IfErr result (λ e. IsMemory e × (0 < selection.entry.dedup)) }
    {
        let recent = Recent::new(alloc, selection.dedup)?;
        Ok(PacketCutter {
            header: *opening.header(),
            selection,
            held: Held::new(alloc),
            recent,
            outcome: Outcome::none(),
            has_ended: false,
        })
    }

    /// Returns what the cut has counted, and whether a read or a write failed.
    pub fn outcome(&self) -> &Outcome
        ensures { result.now ≡ self.now.outcome }
    {
        &self.outcome
    }

    /// Reads the next packet, and writes it if it is selected and no duplicate. Returns true if there was a packet. Returns false without
    /// a read after the last number of the selection, and after a call that returned false or an error.
    ///
    /// The errors are those of `cut_part`.
    pub fn put_next<R: Read, W: Write>(
        &mut self,
        input: &mut R,
        output: &mut W,
    ) -> ResultParsing<bool>
        ensures that { StaysThat self.old self.new }
        ensures steps { StepsOnce self.old self.new (progress_of self.old (R.remaining input.old) (W.contents output.old))
            (progress_of self.new (R.remaining input.new) (W.contents output.new)) result }
    {
        let wanted = Wanted::Selected(&self.selection);
        if self.has_ended || !wanted.wants_more(self.outcome.packets, self.outcome.bytes) {
            return Ok(false);
        }
        let cut = Cut {
            header: &self.header,
            wanted,
        };
        self.has_ended = true;
        let is_more = cut_next(
            cut,
            input,
            output,
            &mut self.outcome,
            &mut self.held,
            &mut self.recent,
        )?;
        if is_more {
            self.has_ended = false;
            return Ok(true);
        }
        Ok(false)
    }
}
