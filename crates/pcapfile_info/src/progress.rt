//! The progress of a pass over the items of a capture.

ghost use Rattle.std.specs.Prelude.{◌≡◌, ◌+◌, ◌^◌, ◌<◌, ◌++◌, [], true, false, length, map, ◌⊎◌, IfErr, IfOk, OnOk, MatchResult};
ghost use Rattle.std.specs.Option.{option_to_list};
ghost use Rattle.std.specs.Result.{result_err};
ghost use Rattle.pcap_core.specs.Errors.{IsMemory};
ghost use Rattle.pcap_blocks.specs.InterfaceDescription.{interface_of};
ghost use Rattle.pcap_blocks.specs.SectionHeader.{section_of};
ghost use Rattle.pcap_ng.specs.Blocks.{block_format};
ghost use Rattle.pcap_ng.specs.Bodies.{GrowsInBody};
ghost use Rattle.pcap_ng.specs.Reader as ng;
ghost use Rattle.pcap_ng.specs.State.{is_kept};
ghost use Rattle.pcapfile_info.specs.declared.seen.Sight.TheVariants.{Packet};
ghost use Rattle.pcapfile_info.specs.Describing.{AddsDescribed, LosesNone, SameDescribed, last_description, told_of};
ghost use Rattle.pcapfile_info.specs.KeptBlocks.{EndsBlocks, KeepsBlocks};
ghost use Rattle.pcapfile_info.specs.InForce.{AreInForce};
ghost use Rattle.pcapfile_info.specs.Sights.{IsBlockSight, captured_as, captured_seen};
ghost use Rattle.pcapfile_info.specs.Telling.{AddsItem, AddsNothing, AddsPacketAlone, IsFirstPacket, SameCounts, TellsItems, TurnGives};
ghost use Rattle.pcapfile_info.specs.Totals.{IsBelow, IsFirstBy, IsWithin, NeedsRoom};

use crate::blocks::sight_of_block;
use crate::clocks::Clocks;
use crate::described::{Described, describe_last, push_comments};
use crate::packets::seen_of;
use crate::seen::{Seen, Sight};
use crate::shown::{Passes, pass_shown};
use crate::totals::Totals;
use pcap_file::pcap::PacketHeader;
use pcap_file::pcapng::enhanced::packet_at;
use pcap_file::pcapng::{BlockHeader, BlockType, InterfaceDescriptionBlock, SectionHeaderBlock};
use pcap_file::{PcapError, PcapNgReader, ResultParsing};
use std::alloc::{AllocError, Global};
use std::io::{BufRead, Read};

/// The most items that a pass counts.
pub(crate) const MOST: u64 = 18_446_744_073_709_551_614;

/// The progress of a pass: the number of items after the capture's head, their bytes including the head, and their totals. It
/// also has the number of the current section, from 1, and the descriptions and comments so far.
#[derive(Drop)]
pub(crate) struct Progress {
    pub(crate) items: u64,
    pub(crate) bytes: u64,
    pub(crate) totals: Totals,
    pub(crate) section: u64,
    pub(crate) described: Vec<Described>,
    pub(crate) comments: Vec<String>,
}

impl Progress {
    /// Counts one packet of a classic capture in the total of all packets only.
    #[inline(always)]
    pub(crate) fn add_packet_alone(&mut self, header: PacketHeader, bytes: &[u8])
        requires few { self.old.items + 1 < 2 ^ 64 }
        ensures adds { AddsPacketAlone (captured_seen (captured_as header bytes.now)) (16 + header.incl_len) self.old self.new }
        ensures same { SameDescribed self.old self.new }
    {
        self.totals.all.add(seen_of(header, bytes));
        self.items += 1;
        self.bytes = self.bytes.saturating_add(16 + u64::from(header.incl_len));
    }

    /// Counts one enhanced packet, whose block has this many bytes.
    #[inline(always)]
    pub(crate) fn add_packet(
        &mut self,
        alloc: Global,
        seen: Seen,
        bytes: usize,
    ) -> Result<(), AllocError>
        requires few { self.old.items + 1 < 2 ^ 64 }
        requires below { IsBelow (length self.old.totals.interfaces.items) seen.interface }
        ensures adds { MatchResult result (λ done. AddsItem (Packet seen) bytes self.old self.new) (λ e. AddsNothing self.old self.new) }
        ensures same { SameDescribed self.old self.new }
        ensures memory { IfErr result (λ e. IsFirstBy self.old.totals seen) }
    {
        self.totals.add_packet(alloc, seen)?;
        self.items += 1;
        self.bytes = self.bytes.saturating_add(bytes as u64);
        Ok(())
    }

    // Appends the description of the last of the section's interfaces.
    fn describe(
        &mut self,
        alloc: Global,
        interfaces: &[InterfaceDescriptionBlock<'static>],
    ) -> Result<(), AllocError>
        ensures counts { SameCounts self.old self.new }
        ensures section { self.new.section ≡ self.old.section }
        ensures comments { self.new.comments ≡ self.old.comments }
        ensures described { MatchResult result
            (λ done. map told_of self.new.described.items
            ≡ map told_of self.old.described.items ++ option_to_list (last_description self.old.section (map interface_of interfaces.now)))
            (λ e. self.new.described.items ≡ self.old.described.items) }
    {
        if let Some(described) = describe_last(alloc, self.section, interfaces)? {
            self.described.push(described)?;
        }
        Ok(())
    }

    // Appends the descriptions and comments that a block of this type adds. An `Err` loses none of the old ones.
    fn keep(
        &mut self,
        alloc: Global,
        type_: BlockType,
        section: &SectionHeaderBlock<'static>,
        interfaces: &[InterfaceDescriptionBlock<'static>],
    ) -> Result<(), AllocError>
        ensures counts { SameCounts self.old self.new }
        ensures adds { MatchResult result
            (λ done. AddsDescribed type_ (section_of section.now) (map interface_of interfaces.now) self.old self.new)
            (λ e. LosesNone self.old self.new) }
        ensures memory { IfErr result (λ _. is_kept type_ ≡ true) }
    {
        match type_ {
            BlockType::InterfaceDescription => self.describe(alloc, interfaces),
            BlockType::SectionHeader => {
                self.section = self.section.saturating_add(1);
                push_comments(alloc, &mut self.comments, section)
            }
            BlockType::EnhancedPacket
            | BlockType::Packet
            | BlockType::SimplePacket
            | BlockType::NameResolution
            | BlockType::InterfaceStatistics
            | BlockType::SystemdJournalExport
            | BlockType::Unknown(_) => Ok(()),
        }
    }

    // Counts one item of this many bytes.
    fn add(&mut self, alloc: Global, sight: Sight, bytes: u64) -> Result<(), AllocError>
        requires few { self.old.items + 1 < 2 ^ 64 }
        requires within { IsWithin (length self.old.totals.interfaces.items) sight }
        ensures adds { MatchResult result (λ done. AddsItem sight bytes self.old self.new) (λ e. AddsNothing self.old self.new) }
        ensures same { SameDescribed self.old self.new }
        ensures memory { IfErr result (λ e. NeedsRoom self.old.totals sight) }
    {
        self.totals.add(alloc, sight)?;
        self.items += 1;
        self.bytes = self.bytes.saturating_add(bytes);
        Ok(())
    }
}

// Counts the block that a reader lends.
fn tell_block<T: Read + Drop>(
    alloc: Global,
    reader: &PcapNgReader<T>,
    header: BlockHeader,
    progress: &mut Progress,
) -> ResultParsing<()>
    requires { progress.old.items + 1 < 2 ^ 64 }
    ensures counts { MatchResult result
        (λ done. (sight : Sight) × IsBlockSight (length progress.old.totals.interfaces.items) (ng.lent_item reader.now header) sight
        × AddsItem sight (length (ng.text_of reader.now)) progress.old progress.new)
        (λ e. IsMemory e × AddsNothing progress.old progress.new × LosesNone progress.old progress.new) }
    ensures describes { IfOk result
        (λ done. AddsDescribed header.type_ (ng.section_in_force reader.now) (ng.interfaces_in_force reader.now) progress.old progress.new) }
    ensures memory { IfErr result (λ _. GrowsInBody (ng.lent_item reader.now header).block ⊎ (is_kept header.type_ ≡ true)
        ⊎ IsFirstPacket progress.old.totals (ng.lent_item reader.now header)) }
{
    let described = progress.totals.interfaces.as_slice().len();
    let block = reader.block(header);
    let sight = sight_of_block(alloc, described, reader.interfaces(), &block)?;
    progress.keep(alloc, header.type_, reader.section(), reader.interfaces())?;
    progress.add(alloc, sight, reader.text().len() as u64)?;
    Ok(())
}

impl Passes for Clocks {
    ghost use Rattle.std.specs.Prelude.{⊤};
    ghost use Rattle.pcap_ng.specs.Blocks.{Item as BlockItem};
    ghost use Rattle.pcap_ng.specs.State.{State as BlockState};

    ghost State = { BlockState };

    ghost Value = { BlockItem };

    ghost format = { λ clocks. block_format };

    ghost is_valid = { λ clocks. ⊤ };

    ghost stands_for = { AreInForce };

    ghost is_sight = { IsBlockSight };

    ghost first = { 0 };

    ghost kept = { KeepsBlocks };

    fn pass(&self, shown: &[u8], progress: &mut Progress) -> usize {
        let mut rest = shown;
        while progress.items < MOST {
            let Some((after, packet)) = packet_at(self.alloc, self.order, rest) else {
                break;
            };
            let described = progress.totals.interfaces.as_slice().len();
            let seen = self.seen(described, packet);
            match progress.add_packet(self.alloc, seen, rest.len() - after.len()) {
                Ok(()) => rest = after,
                // The reader reads this packet next, and then reports that there is no memory.
                Err(_) => break,
            }
        }
        shown.len() - rest.len()
    }
}

// Reads and counts the next block, and returns whether there was one.
fn pass_next<T: Read + Drop>(
    alloc: Global,
    reader: &mut PcapNgReader<T>,
    clocks: &mut Clocks,
    read_failed: &mut bool,
    progress: &mut Progress,
) -> ResultParsing<bool>
    requires ready { ng.is_done reader.old ≡ false }
    requires fewer { progress.old.items < 18446744073709551614 }
    requires clocks { AreInForce clocks.old (ng.state_of reader.old) }
    ensures ready { OnOk result (ng.is_done reader.new ≡ false) }
    ensures clocks { OnOk result (AreInForce clocks.new (ng.state_of reader.new)) }
    ensures counts { IfOk result (λ more. more ≡ true → progress.new.items ≡ progress.old.items + 1) }
    ensures turn { TurnGives block_format IsBlockSight 0 KeepsBlocks EndsBlocks (ng.state_of reader.old) (ng.state_of reader.new)
        (T.remaining (ng.stream_of reader.old)) (T.remaining (ng.stream_of reader.new)) read_failed.new 18446744073709551614 progress.old progress.new result }
{
    let next = reader.next_header();
    *read_failed = reader.failed();
    match next {
        None => Ok(false),
        Some(Ok(header)) => {
            clocks.follow(header.type_, reader.section(), reader.interfaces())?;
            tell_block(alloc, reader, header, progress)?;
            Ok(true)
        }
        Some(Err(error)) => Err(error),
    }
}

// Counts the blocks of a reader.
fn pass_blocks<T: BufRead + Drop>(
    alloc: Global,
    reader: &mut PcapNgReader<T>,
    clocks: &mut Clocks,
    read_failed: &mut bool,
    progress: &mut Progress,
) -> ResultParsing<()>
    requires ready { ng.is_done reader.old ≡ false }
    requires unfailed { read_failed.old ≡ false }
    requires clocks { AreInForce clocks.old (ng.state_of reader.old) }
    requires none_yet { progress.old.items ≡ 0 }
    requires room { progress.old.bytes < 2 ^ 64 }
    requires nothing { KeepsBlocks (ng.state_of reader.old) [] [] progress.old }
    ensures { TellsItems block_format (ng.state_of reader.old) IsBlockSight 0 (EndsBlocks (result_err result)) (T.remaining (ng.stream_of reader.old))
        (T.remaining (ng.stream_of reader.new)) read_failed.new 18446744073709551614 progress.old progress.new (result_err result) }
{
    while progress.items < MOST {
        if !pass_shown(clocks, reader.get_mut(), read_failed, progress)? {
            return Ok(());
        }
        if progress.items == MOST {
            return Ok(());
        }
        if !pass_next(alloc, reader, clocks, read_failed, progress)? {
            return Ok(());
        }
    }
    Ok(())
}

/// Counts the blocks of a reader, and returns the error of the next block, if any.
pub(crate) fn tell_blocks<T: BufRead + Drop>(
    alloc: Global,
    reader: &mut PcapNgReader<T>,
    read_failed: &mut bool,
    progress: &mut Progress,
) -> Option<PcapError>
    requires ready { ng.is_done reader.old ≡ false }
    requires unfailed { read_failed.old ≡ false }
    requires no_interface { ng.interfaces_in_force reader.old ≡ [] }
    requires none_yet { progress.old.items ≡ 0 }
    requires room { progress.old.bytes < 2 ^ 64 }
    requires nothing { KeepsBlocks (ng.state_of reader.old) [] [] progress.old }
    ensures { TellsItems block_format (ng.state_of reader.old) IsBlockSight 0 (EndsBlocks result)
        (T.remaining (ng.stream_of reader.old)) (T.remaining (ng.stream_of reader.new)) read_failed.new 18446744073709551614 progress.old progress.new result }
{
    let mut clocks = Clocks::new(alloc, reader.section());
    pass_blocks(alloc, reader, &mut clocks, read_failed, progress).err()
}
