//! Checks of whole captures.

ghost use Rattle.std.specs.Prelude.{◌≡◌, [], true, IfSome};
ghost use Rattle.pcap_items.specs.Format.{IsLawful};
ghost use Rattle.pcapfile_run.specs.Checks.{ChecksBlocks, ChecksBodies, ChecksPackets, CountsBehind, FaultIs};
ghost use Rattle.pcapfile_run.specs.declared.format.Format.TheVariants as formats;

use crate::checked::{Checked, end_of};
use crate::format::Format;
use crate::sound_blocks::SoundBlocks;
use pcap_file::PcapError;
use pcap_file::pcap::read_header;
use pcap_file::pcapng::BlocksAhead;
use pcap_walk::{Counting, Walked, Walker, count_items, count_packets};
use std::alloc::Global;
use std::io::BufRead;

/// The most items that are counted after the opening of a capture.
const MOST: u64 = 18_446_744_073_709_551_614;

/// Checks a classic capture read from a stream: counts the packet records of its front and the bytes of header and records, and finds
/// why no other record follows. Only a packet that is cut by the end of the input's buffer is held in memory.
pub fn check_packets<R: BufRead + Drop>(alloc: Global, mut input: R) -> Checked
    ensures { IfSome (R.remaining input) (λ s. ChecksPackets s result) }
{
    let mut walked = Walked {
        items: 0,
        read_failed: false,
    };
    let header = match read_header(&mut input, &mut walked.read_failed) {
        Ok(header) => header,
        Err(error) => {
            return Checked {
                format: Format::Pcap,
                items: 0,
                bytes: 0,
                end: end_of(Some(error), walked.read_failed, 0, MOST),
            };
        }
    };
    let mut counting = Counting { bytes: 24 };
    let fault = count_packets(alloc, &header, &mut input, &mut walked, &mut counting);
    let Walked { items, read_failed } = walked;
    let bytes = counting.bytes;
    let end = end_of(fault, read_failed, items, MOST);
    Checked {
        format: Format::Pcap,
        items,
        bytes,
        end,
    }
}

// Counts the items behind a first block, which has this many bytes.
fn check_behind<F: Walker, R: BufRead>(walker: &mut F, input: &mut R, first: u64) -> Checked
    requires lawful { IsLawful (F.format (F.setting walker.old)) }
    requires between { F.held walker.old ≡ [] }
    ensures { CountsBehind (F.format (F.setting walker.old)) (F.state walker.old) (R.remaining input.old) (R.remaining input.new) first result }
{
    let mut walked = Walked {
        items: 0,
        read_failed: false,
    };
    let mut counting = Counting { bytes: first };
    let fault = count_items(walker, input, &mut walked, &mut counting);
    let Walked { items, read_failed } = walked;
    let items = items + 1;
    let bytes = counting.bytes;
    let end = end_of(fault, read_failed, items, MOST + 1);
    Checked {
        format: Format::PcapNg,
        items,
        bytes,
        end,
    }
}

// Returns the result of a check of a capture whose first block can't be read.
fn unopened(error: PcapError) -> Checked
    ensures { (result.format ≡ formats.PcapNg) × (result.items ≡ 0) × (result.bytes ≡ 0) × FaultIs error true result.end }
{
    Checked {
        format: Format::PcapNg,
        items: 0,
        bytes: 0,
        end: end_of(Some(error), true, 0, MOST),
    }
}

/// Checks a PcapNg capture read from a stream: counts the blocks of its front, with the first section header, and their bytes, and
/// finds why no other block follows. It checks the bodies only of section headers and interface descriptions, since these stay in
/// force. It holds the current section and interfaces in memory, and at most one block. An enhanced packet block is held only if the
/// end of the input's buffer cuts it.
pub fn check_blocks<R: BufRead + Drop>(alloc: Global, mut input: R) -> Checked
    ensures { IfSome (R.remaining input) (λ s. ChecksBlocks s result) }
{
    let mut blocks = match BlocksAhead::open(alloc, &mut input, &mut false) {
        Ok(blocks) => blocks,
        Err(error) => return unopened(error),
    };
    let first = blocks.text().len() as u64;
    blocks.clear();
    check_behind(&mut blocks, &mut input, first)
}

/// Checks a PcapNg capture as `check_blocks` does, and the body of each block with its options. No block with a malformed body is
/// counted.
pub fn check_bodies<R: BufRead + Drop>(alloc: Global, mut input: R) -> Checked
    ensures { IfSome (R.remaining input) (λ s. ChecksBodies s result) }
{
    let mut blocks = match BlocksAhead::open(alloc, &mut input, &mut false) {
        Ok(blocks) => blocks,
        Err(error) => return unopened(error),
    };
    let first = blocks.text().len() as u64;
    blocks.clear();
    check_behind(&mut SoundBlocks::new(alloc, blocks), &mut input, first)
}
