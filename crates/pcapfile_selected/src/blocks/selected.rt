//! The selected packets of a PcapNg capture.

ghost use Rattle.std.specs.Prelude.{◌≡◌, IfErr, IfOk};
ghost use Rattle.pcap_core.specs.Errors.{IsMemory};
ghost use Rattle.pcapfile_selected.specs.Asked.{AreAsked, first_or_1970, has_reached};
ghost use Rattle.pcapfile_selected.specs.Changing.{exceptions_changed, exceptions_moved, exceptions_shortened, exceptions_simple};
ghost use Rattle.pcapfile_selected.specs.Deciding.{exceptions_after};

use super::changed::{Changed, Changing, Lent, lent_block};
use super::deciding::{Decision, Sieve};
use super::judging::block_time;
use super::{BlockSource, count_block, pass_text};
use crate::selecting::Tests;
use crate::source::Exceptions;
use pcap_file::ResultParsing;
use pcap_file::pcapng::{BlockHeader, Timestamp};
use pcap_items::stream::put;
use pcapfile_cut::{Moved, Outcome, Recent, Shortened};
use pcapfile_run::holds_packet;
use std::alloc::Global;
use std::io::{Read, Write};

/// The time of the first packet in tests that depend on no time, and before a packet with a time was read.
const NO_TIME: Timestamp = Timestamp {
    seconds: 0,
    nanoseconds: 0,
};

/// The tests and the changes of blocks, and what was done with the blocks before.
#[derive(Drop)]
pub(crate) struct Choosing<'a> {
    pub(crate) asked: Tests<'a>,
    pub(crate) sieve: Sieve<'a>,
    pub(crate) changing: Changing,
    /// The time of the first packet that has one, if a test depends on it and that packet was read.
    pub(crate) first: Option<Timestamp>,
    /// How many packets were left out or treated otherwise than the user asked.
    pub(crate) exceptions: Exceptions,
    ghost tests: { AreAsked asked (first_or_1970 first) sieve.tests },
}

impl<'a> Choosing<'a> {
    ghost use Rattle.std.specs.Prelude.{◌<◌, OnOk, length, map};
    ghost use Rattle.pcapfile_selected.specs.Asked.{FindsFirst};
    ghost use Rattle.pcap_blocks.specs.InterfaceDescription.{interface_of};
    ghost use Rattle.pcap_ng.specs.Frames.{framed_of};
    ghost use Rattle.pcapfile_selected.specs.SelectedBlocks.{Begins, ChangesOnly, ChoosesNone, ChoosesPacket, CountsText, PutsLent, PutsText, run};

    /// Returns the tests and the changes before the first block.
    ///
    /// `OutOfMemory` if there is no memory for the digests of the packets that duplicates are compared with.
    pub(crate) fn new(alloc: Global, asked: Tests<'a>) -> ResultParsing<Choosing<'a>>
        ensures begins { IfOk result (λ choosing. Begins asked.entry choosing) }
        ensures memory { IfErr result (λ e. IsMemory e × (0 < asked.entry.asked.now.dedup)) }
    {
        let tests = asked.in_blocks(NO_TIME);
        let recent = Recent::new(alloc, tests.selection.dedup)?;
        Ok(Choosing {
            asked,
            sieve: Sieve { tests, recent },
            changing: Changing::new(alloc, tests.selection.changes),
            first: None,
            exceptions: Exceptions::default(),
        })
    }

    /// Returns how many packets were left out or treated otherwise than the user asked.
    pub(crate) fn exceptions(&self) -> Exceptions
        ensures { result ≡ self.now.exceptions }
    {
        self.exceptions
    }

    // Keeps the time of the packet in a lent block, if a test depends on the first time and this is the first one.
    fn note_first(&mut self, alloc: Global, lent: Lent<'_>) -> ResultParsing<()>
        ensures recent { self.new.sieve.recent ≡ self.old.sieve.recent }
        ensures changing { self.new.changing ≡ self.old.changing }
        ensures asked { self.new.asked ≡ self.old.asked }
        ensures exceptions { self.new.exceptions ≡ self.old.exceptions }
        ensures finds { OnOk result (FindsFirst self.old.asked (map interface_of lent.entry.interfaces.now) (framed_of lent.entry.block.now)
            self.old.first self.new.first) }
        ensures memory { IfErr result IsMemory }
    {
        if self.first.is_some() || !self.asked.is_relative() {
            return Ok(());
        }
        if let Some(time) = block_time(alloc, lent.interfaces, lent.block)? {
            self.first = Some(time);
            self.sieve.tests = self.asked.in_blocks(time);
        }
        Ok(())
    }

    /// Writes a lent block after the changes unless it holds a packet that is not selected, and counts it.
    pub(crate) fn put<W: Write>(
        &mut self,
        alloc: Global,
        lent: Lent<'_>,
        output: &mut W,
        outcome: &mut Outcome,
    ) -> ResultParsing<()>
        ensures { PutsLent (run self.old (W.contents output.old) outcome.old) (run self.new (W.contents output.new) outcome.new)
            (map interface_of lent.entry.interfaces.now) (framed_of lent.entry.block.now) lent.entry.text.now result }
    {
        if !holds_packet(lent.block.type_) {
            return self.put_changed(alloc, lent, output, outcome);
        }
        if self.choose(alloc, lent, outcome)? {
            return self.put_changed(alloc, lent, output, outcome);
        }
        pass_text(lent.text, outcome);
        Ok(())
    }

    // Returns whether the packet in a lent block is written, and counts it.
    fn choose(
        &mut self,
        alloc: Global,
        lent: Lent<'_>,
        outcome: &mut Outcome,
    ) -> ResultParsing<bool>
        ensures chooses { IfOk result (λ is_written. ChoosesPacket self.old self.new (map interface_of lent.entry.interfaces.now)
            (framed_of lent.entry.block.now) outcome.old outcome.new is_written) }
        ensures fails { IfErr result (λ e. ChoosesNone self.old self.new outcome.old outcome.new e) }
    {
        outcome.packets = outcome.packets.saturating_add(1);
        self.note_first(alloc, lent)?;
        let Lent {
            interfaces,
            block,
            ..
        } = lent;
        let decision = self
            .sieve
            .decide(alloc, interfaces, outcome.packets, block)?;
        self.exceptions.add(decision);
        decision.count(outcome);
        Ok(decision.is_written())
    }

    // Writes a lent block after the changes, and counts its bytes.
    fn put_changed<W: Write>(
        &mut self,
        alloc: Global,
        lent: Lent<'_>,
        output: &mut W,
        outcome: &mut Outcome,
    ) -> ResultParsing<()>
        ensures puts { PutsText (run self.old (W.contents output.old) outcome.old) (run self.new (W.contents output.new) outcome.new)
            (map interface_of lent.entry.interfaces.now) (framed_of lent.entry.block.now) lent.entry.text.now result }
        ensures keeps { ChangesOnly self.old self.new }
        ensures counts { CountsText (length lent.entry.text.now) outcome.old outcome.new result }
    {
        let is_longer_simple = self.changing.leaves_longer(alloc, lent)?;
        let failed = &mut outcome.write_failed;
        let changed = self.changing.put(alloc, lent, output, failed)?;
        self.exceptions.add_changed(changed, is_longer_simple);
        pass_text(lent.text, outcome);
        Ok(())
    }
}

impl<R: Read + Drop> BlockSource<R> {
    ghost use Rattle.std.specs.Prelude.{◌≤◌, ◌-◌, ◌^◌, OnOk};
    ghost use Rattle.pcap_file.specs.Placed.{is_packet};
    ghost use Rattle.pcapfile_cut.specs.BlockCuts.{lent_by};
    ghost use Rattle.pcapfile_selected.specs.SelectedBlocks.{ChoosesSame, NotesFirst, Passes, PassesBlock, SelectsBlocks, SelectsNext, SelectsPart, place_of, run, spot};

    // Writes the section header and the interfaces in force before the packet of the first number, and then all blocks up to the last
    // number, except packets that are not selected.
    pub(super) fn put_selected<W: Write>(
        &mut self,
        alloc: Global,
        output: &mut W,
        first: u64,
        choosing: &mut Choosing<'_>,
        outcome: &mut Outcome,
    ) -> ResultParsing<()>
        requires within { outcome.old.packets ≤ 2 ^ 64 - 1 }
        requires within_bytes { outcome.old.bytes ≤ 2 ^ 64 - 1 }
        ensures { SelectsPart first (run choosing.old (W.contents output.old) outcome.old) (run choosing.new (W.contents output.new) outcome.new)
            (place_of R.remaining self.old) (place_of R.remaining self.new) result }
    {
        self.pass_to(alloc, first, choosing, outcome)?;
        put(output, &mut outcome.write_failed, self.in_force())?;
        self.put_blocks(alloc, output, choosing, outcome)
    }

    // Reads blocks until no further packet is wanted, and writes those that are selected.
    fn put_blocks<W: Write>(
        &mut self,
        alloc: Global,
        output: &mut W,
        choosing: &mut Choosing<'_>,
        outcome: &mut Outcome,
    ) -> ResultParsing<()>
        ensures { SelectsBlocks (run choosing.old (W.contents output.old) outcome.old) (run choosing.new (W.contents output.new) outcome.new)
            (place_of R.remaining self.old) (place_of R.remaining self.new) result }
    {
        let mut blocks: u64 = 0;
        while blocks < u64::MAX {
            if !self.put_next(alloc, output, choosing, outcome)? {
                return Ok(());
            }
            blocks += 1;
        }
        Ok(())
    }

    /// Reads the next block, and writes it unless it is a packet that is not selected. Returns false if no further packet is wanted, or
    /// there is no block.
    pub(crate) fn put_next<W: Write>(
        &mut self,
        alloc: Global,
        output: &mut W,
        choosing: &mut Choosing<'_>,
        outcome: &mut Outcome,
    ) -> ResultParsing<bool>
        ensures { SelectsNext (run choosing.old (W.contents output.old) outcome.old) (run choosing.new (W.contents output.new) outcome.new)
            (place_of R.remaining self.old) (place_of R.remaining self.new) result }
    {
        if !choosing.sieve.tests.selection.has_more(outcome.packets) {
            return Ok(false);
        }
        let Some(header) = self.blocks.pass()? else {
            return Ok(false);
        };
        let reader = self.blocks.reader();
        let block = reader.block(header);
        let lent = lent_block(reader, &block);
        choosing.put(alloc, lent, output, outcome)?;
        Ok(true)
    }

    /// Skips blocks until the reader lends the packet of the first number, if that is above 1.
    pub(crate) fn pass_to(
        &mut self,
        alloc: Global,
        first: u64,
        choosing: &mut Choosing<'_>,
        outcome: &mut Outcome,
    ) -> ResultParsing<()>
        requires within { outcome.old.packets ≤ 2 ^ 64 - 1 }
        requires within_bytes { outcome.old.bytes ≤ 2 ^ 64 - 1 }
        ensures passes { Passes choosing.old.asked first (spot (place_of R.remaining self.old) outcome.old choosing.old.first)
            (spot (place_of R.remaining self.new) outcome.new choosing.new.first) result }
        ensures chooses { ChoosesSame choosing.old choosing.new }
    {
        if first <= 1 {
            return Ok(());
        }
        let mut blocks: u64 = 0;
        while blocks < u64::MAX {
            if !self.pass_next(alloc, first, choosing, outcome)? {
                return Ok(());
            }
            blocks += 1;
        }
        Ok(())
    }

    // Reads the next block and counts it, unless it is a packet of the first number or above.
    fn pass_next(
        &mut self,
        alloc: Global,
        first: u64,
        choosing: &mut Choosing<'_>,
        outcome: &mut Outcome,
    ) -> ResultParsing<bool>
        ensures passes { PassesBlock choosing.old.asked first (spot (place_of R.remaining self.old) outcome.old choosing.old.first)
            (spot (place_of R.remaining self.new) outcome.new choosing.new.first) result }
        ensures chooses { ChoosesSame choosing.old choosing.new }
    {
        let Some(header) = self.blocks.peek()? else {
            return Ok(false);
        };
        let has_packet = holds_packet(header.type_);
        if has_reached(first, has_packet, outcome.packets) {
            return Ok(false);
        }
        self.note_passed(alloc, header, has_packet, choosing)?;
        count_block(has_packet, self.blocks.reader().text(), outcome);
        let _ = self.blocks.pass()?;
        Ok(true)
    }

    // Keeps the time of the lent block's packet, if it holds one and a test depends on the first time.
    fn note_passed(
        &self,
        alloc: Global,
        header: BlockHeader,
        has_packet: bool,
        choosing: &mut Choosing<'_>,
    ) -> ResultParsing<()>
        requires { has_packet ≡ is_packet header.type_ }
        ensures first { OnOk result (NotesFirst choosing.old.asked (lent_by self.now.blocks header) choosing.old.first choosing.new.first) }
        ensures chooses { ChoosesSame choosing.old choosing.new }
        ensures memory { IfErr result IsMemory }
    {
        if !has_packet {
            return Ok(());
        }
        let reader = self.blocks.reader();
        let block = reader.block(header);
        choosing.note_first(alloc, lent_block(reader, &block))
    }
}

// Returns whether the next block has the packet of this number or one above, if it holds a packet, and so many precede it.
fn has_reached(first: u64, has_packet: bool, packets: u64) -> bool
    ensures { result ≡ has_reached first has_packet packets }
{
    has_packet && first <= packets.saturating_add(1)
}

impl Exceptions {
    // Counts a packet to which a test doesn't apply, or that was not compared.
    fn add(&mut self, decision: Decision)
        ensures { self.new ≡ exceptions_after decision self.old }
    {
        match decision {
            Decision::Malformed => self.malformed = self.malformed.saturating_add(1),
            Decision::WithoutTime => self.without_time = self.without_time.saturating_add(1),
            Decision::Uncompared => self.uncompared = self.uncompared.saturating_add(1),
            Decision::Written | Decision::Rejected | Decision::Duplicate => {}
        }
    }

    // Counts what the changes left as it was in a packet.
    fn add_changed(&mut self, changed: Changed, is_longer_simple: bool)
        ensures { self.new ≡ exceptions_changed changed is_longer_simple self.old }
    {
        self.add_moved(changed.moved);
        self.add_shortened(changed.shortened);
        self.add_simple(is_longer_simple);
    }

    fn add_moved(&mut self, moved: Moved)
        ensures { self.new ≡ exceptions_moved moved self.old }
    {
        match moved {
            Moved::Malformed => {
                self.unmoved_malformed = self.unmoved_malformed.saturating_add(1);
            }
            Moved::Unstated => self.unmoved = self.unmoved.saturating_add(1),
            Moved::Changed | Moved::Untimed => {}
        }
    }

    fn add_shortened(&mut self, shortened: Option<Shortened>)
        ensures { self.new ≡ exceptions_shortened shortened self.old }
    {
        if let Some(Shortened::Malformed) = shortened {
            self.whole_malformed = self.whole_malformed.saturating_add(1);
        }
    }

    fn add_simple(&mut self, is_longer_simple: bool)
        ensures { self.new ≡ exceptions_simple is_longer_simple self.old }
    {
        if is_longer_simple {
            self.whole_simple = self.whole_simple.saturating_add(1);
        }
    }
}
